// Boards: radial ones, and ones with a loop.
ghost use Rattle.net.specs.Nets.{InService};
ghost use Rattle.net.specs.Settings.{Closed, opening, Radial};
ghost use Rattle.survey.specs.Answers.{net_of};
ghost use Rattle.flood.specs.Marked.{switched};

use flood::Switches;

mod loops;
mod switches;

// A radial setting of a surveyed net.
#[derive(Drop)]
pub struct Board {
    switches: Switches,
    ghost radial: { ∥ Radial (net_of switches.site) (switched switches) ∥₁ },
}

// A radial setting with one link more closed. It can't be dropped: it must be split or undone.
pub struct Looped {
    switches: Switches,
    link: u64,
    ghost served: { ∥ InService (net_of switches.site) link ∥₁ },
    ghost last: { Closed (switched switches) link },
    ghost radial: { ∥ Radial (net_of switches.site) (opening (switched switches) link) ∥₁ },
}
