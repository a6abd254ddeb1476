// The setting that a line shows.
ghost use Rattle.std.specs.Prelude.{◌≤◌};

use flood::Marks;

mod methods;

// Which links of a net are closed, and how many links it has; without the net itself, since a caller may keep many lines.
#[derive(Clone, Copy)]
pub(crate) struct Shown {
    closed: Marks<60>,
    links: u64,
    ghost few: { links ≤ 60 },
}
