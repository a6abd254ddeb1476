// A search at its start.
ghost use Rattle.std.specs.Prelude.{◌≡◌, ◌-◌, []};
ghost use Rattle.survey.specs.Surveys.{start_setting};
ghost use Rattle.survey.specs.Answers.{net_of};
ghost use Rattle.trees.specs.Rules.{IsStart};
ghost use Rattle.flood.specs.Marked.{switched, fed_in};
ghost use Rattle.search.specs.Frames.{fed_without, start_feds, start_feds_in};
ghost use Rattle.search.specs.States.{net_in, descent_of, ceiling_of};

use super::{Frame, Move, Search};
use flood::{Marks, Switches};
use net::NetSource;
use std::array;
use survey::Surveyed;

impl Search {
    // At the start setting, every start link below the ceiling.
    pub fn new(site: &Surveyed) -> Search
        ensures net { net_in result ≡ net_of site.now }
        ensures setting { descent_of result ≡ [] }
        ensures ceiling { ceiling_of result ≡ (net_of site.now).bars - 1 }
    {
        let switches = Switches::at_start(site);
        let starts = feed_starts(&switches);
        let ceiling = site.bars() as usize - 1;
        let fed = feed_without(&switches, ceiling);
        let moved = Move {
            leaving: 0,
            entering: 0,
        };
        Search {
            switches,
            starts,
            ceiling,
            fed,
            frames: [Frame { moved, fed }; 32],
            depth: 0,
        }
    }
}

// The bars fed without each start link, by rank.
fn feed_starts(switches: &Switches) -> [Marks<32>; 32]
    requires { switched switches.now ≡ start_setting (net_of switches.now.site) }
    ensures { start_feds_in (net_of switches.now.site) result ≡ start_feds (net_of switches.now.site) }
{
    array::from_fn(|at| feed_without(switches, at + 1))
}

// The bars fed without the start link of a rank; nothing is asked of what is no rank of a start link.
pub(crate) fn feed_without(switches: &Switches, rank: usize) -> Marks<32>
    ensures { IsStart (net_of switches.now.site) rank → fed_in (net_of switches.now.site) result ≡ fed_without (net_of switches.now.site) (switched switches.now) rank }
{
    match switches.site().start_link(rank) {
        Some(link) => switches.flood_without(u64::from(link)),
        None => Marks::new(),
    }
}
