// Where a search stands.
ghost use Rattle.std.specs.Prelude.{◌≡◌, ◌+◌, ◌<◌, ◌≤◌, true, length};
ghost use Rattle.survey.specs.Answers.{net_of};
ghost use Rattle.search.specs.Descents.{setting_at, descends};
ghost use Rattle.flood.specs.Marked.{switched, fed_in};
ghost use Rattle.search.specs.Frames.{descent_in, feds_in, fed_without, feds_along, start_feds, start_feds_in};

use flood::{Marks, Switches};

mod exchanges;
mod moves;
mod questions;
mod readings;
mod start;

// An exchange by the ranks of its leaving link and its entering link.
#[derive(Clone, Copy, PartialEq, Eq, Debug)]
pub struct Move {
    pub leaving: usize,
    pub entering: usize,
}

// An exchange not yet taken back, and the bars that its setting fed without the leaving link.
#[derive(Clone, Copy)]
pub(crate) struct Frame {
    moved: Move,
    fed: Marks<32>,
}

// A setting of a surveyed net and a ceiling of rank.
// The frames are an array with a depth beside it, as a search is Copy and no ArrayVec is.
// That the net stays is a clause of each call: one word for that and the rest would only hide it.
#[derive(Clone, Copy)]
pub struct Search {
    switches: Switches,
    starts: [Marks<32>; 32],
    ceiling: usize,
    fed: Marks<32>,
    frames: [Frame; 32],
    depth: usize,
    ghost long: { length frames ≡ 32 },
    ghost room: { length starts ≡ 32 },
    ghost shallow: { depth + ceiling < 32 },
    ghost begun: { start_feds_in (net_of switches.site) starts ≡ start_feds (net_of switches.site) },
    ghost down: { descends (net_of switches.site) (descent_in frames depth) ceiling ≡ true },
    ghost shown: { switched switches ≡ setting_at (net_of switches.site) (descent_in frames depth) },
    ghost here: { 1 ≤ ceiling → fed_in (net_of switches.site) fed ≡ fed_without (net_of switches.site) (setting_at (net_of switches.site) (descent_in frames depth)) ceiling },
    ghost along: { feds_in (net_of switches.site) frames depth ≡ feds_along (net_of switches.site) (descent_in frames depth) },
}
