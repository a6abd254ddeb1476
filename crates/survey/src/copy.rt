// A net copied from its source.
ghost use Rattle.std.specs.Prelude.{◌≡◌, ◌≤◌, true, length};
ghost use Rattle.net.specs.Tested.{within_limits};
ghost use Rattle.survey.specs.Copies.{table_net};

mod methods;

// A net within the limits.
// An array and a count: a surveyed net is copied, and the library's vector of fixed capacity is not.
#[derive(Clone, Copy)]
pub(crate) struct NetCopy {
    bars: u32,
    links: u32,
    ends: [Option<(u32, u32)>; 60],
    ghost long: { length ends ≡ 60 },
    ghost few: { links ≤ 60 },
    ghost within: { within_limits (table_net bars links ends) ≡ true },
}
