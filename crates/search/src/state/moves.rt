// The moves of a search. Those that answer yes or no have nothing else to tell.
ghost use Rattle.std.specs.Prelude.{◌≡◌};
ghost use Rattle.std.specs.Option.{option_map};
ghost use Rattle.search.specs.Descents.{ToChild, ToLower, ToParent};
ghost use Rattle.search.specs.Frames.{ranks_of};
ghost use Rattle.search.specs.States.{net_in, descent_of, ceiling_of};

use super::{Move, Search};

impl Search {
    // Goes to the child for which the link of a rank enters, with the next lower ceiling; where there is none, answers no and stays.
    pub fn to_child(&mut self, rank: usize) -> bool
        ensures net { net_in self.new ≡ net_in self.old }
        ensures moved { ToChild (net_in self.old) (descent_of self.old) (ceiling_of self.old) rank result (descent_of self.new) (ceiling_of self.new) }
    {
        if !self.may_enter(rank) {
            return false;
        }
        self.push(rank);
        true
    }

    // Goes to the next lower ceiling; at 0, answers no and stays.
    pub fn lower(&mut self) -> bool
        ensures net { net_in self.new ≡ net_in self.old }
        ensures moved { ToLower (descent_of self.old) (ceiling_of self.old) result (descent_of self.new) (ceiling_of self.new) }
    {
        if self.ceiling == 0 {
            return false;
        }
        self.descend();
        true
    }

    // Goes back to the parent, the ceiling at the link that is closed again; at the start setting, answers none and stays.
    pub fn back(&mut self) -> Option<Move>
        ensures net { net_in self.new ≡ net_in self.old }
        ensures moved { ToParent (descent_of self.old) (ceiling_of self.old) (option_map ranks_of result) (descent_of self.new) (ceiling_of self.new) }
    {
        let last = self.depth.checked_sub(1)?;
        Some(self.pop(last))
    }
}
