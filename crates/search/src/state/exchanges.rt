// Exchanges made and taken back, and lower ceilings.
ghost use Rattle.std.specs.Prelude.{◌≡◌, suc, ◌≤◌, ◌∷◌};
ghost use Rattle.std.specs.Option.{unwrap_or};
ghost use Rattle.trees.specs.Cuts.{swapped};
ghost use Rattle.flood.specs.Marked.{switched};
ghost use Rattle.search.specs.Descents.{EntersAt};
ghost use Rattle.search.specs.Frames.{ranks_of};
ghost use Rattle.search.specs.States.{net_in, descent_of, setting_of, ceiling_of};

use super::start::feed_without;
use super::{Frame, Move, Search};
use flood::Switches;

impl Search {
    // Makes the exchange for which the link of a rank enters.
    pub(super) fn push(&mut self, rank: usize)
        requires { EntersAt (net_in self.old) (setting_of self.old) (ceiling_of self.old) rank }
        ensures net { net_in self.new ≡ net_in self.old }
        ensures setting { descent_of self.new ≡ (ceiling_of self.old, rank) ∷ descent_of self.old }
        ensures ceiling { ceiling_of self.old ≡ suc (ceiling_of self.new) }
    {
        let moved = Move {
            leaving: self.ceiling,
            entering: rank,
        };
        let leaving = self.switches.site().start_link(moved.leaving);
        let entering = self.switches.site().link_at_rank(moved.entering);
        self.frames[self.depth] = Frame {
            moved,
            fed: self.fed,
        };
        self.depth += 1;
        swap(&mut self.switches, leaving, entering);
        self.ceiling -= 1;
        self.fed = feed_without(&self.switches, self.ceiling);
    }

    // Takes the next lower ceiling.
    pub(super) fn descend(&mut self)
        requires { 1 ≤ ceiling_of self.old }
        ensures net { net_in self.new ≡ net_in self.old }
        ensures setting { descent_of self.new ≡ descent_of self.old }
        ensures ceiling { ceiling_of self.old ≡ suc (ceiling_of self.new) }
    {
        self.ceiling -= 1;
        self.fed = feed_without(&self.switches, self.ceiling);
    }

    // Takes the last exchange back, which stands in the frame at this index.
    pub(super) fn pop(&mut self, last: usize) -> Move
        requires { self.old.depth ≡ suc last }
        ensures net { net_in self.new ≡ net_in self.old }
        ensures setting { descent_of self.old ≡ ranks_of result ∷ descent_of self.new }
        ensures ceiling { ceiling_of self.new ≡ result.leaving }
    {
        let frame = self.frames[last];
        let leaving = self.switches.site().start_link(frame.moved.leaving);
        let entering = self.switches.site().link_at_rank(frame.moved.entering);
        self.depth = last;
        swap(&mut self.switches, entering, leaving);
        self.ceiling = frame.moved.leaving;
        self.fed = frame.fed;
        frame.moved
    }
}

// Opens one link and closes another, each if there is one.
fn swap(switches: &mut Switches, link_out: Option<u32>, link_in: Option<u32>)
    ensures site { switches.new.site ≡ switches.old.site }
    ensures row { switched switches.new ≡ swapped (switched switches.old) (unwrap_or link_out 0) (unwrap_or link_in 0) }
{
    if let Some(link) = link_out {
        switches.put(u64::from(link), false);
    }
    if let Some(link) = link_in {
        switches.put(u64::from(link), true);
    }
}
