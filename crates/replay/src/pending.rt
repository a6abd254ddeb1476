// The forward exchanges not yet reversed.
ghost use Rattle.std.specs.Prelude.{◌≡◌, ◌<◌, ◌≤◌, [], ◌∷◌, length};
ghost use Rattle.replay.specs.Pending.{links_of, pending_of, TakesBack};

use arrayvec::ArrayVec;

// An exchange: the link that is opened and the link that is closed.
#[derive(Clone, Copy, PartialEq, Eq, Default)]
pub(crate) struct Swap {
    pub(crate) link_out: u16,
    pub(crate) link_in: u16,
}

impl Swap {
    // The exchange that takes it back.
    fn reversed(self) -> Swap
        ensures { links_of result ≡ (self.link_in, self.link_out) }
    {
        Swap {
            link_out: self.link_in,
            link_in: self.link_out,
        }
    }
}

// A stack of forward exchanges, the last on top.
#[derive(Drop)]
pub(crate) struct Pending {
    swaps: ArrayVec<Swap, 32>,
}

impl Pending {
    // An empty stack.
    pub(crate) fn new() -> Pending
        ensures { pending_of result ≡ [] }
    {
        Pending {
            swaps: ArrayVec::new(),
        }
    }

    // How many exchanges it holds.
    pub(crate) fn depth(&self) -> usize
        ensures count { result ≡ length (pending_of self.now) }
        ensures few { result ≤ 32 }
    {
        self.swaps.len()
    }

    // Puts an exchange on top.
    pub(crate) fn push(&mut self, swap: Swap)
        requires { length (pending_of self.old) < 32 }
        ensures { pending_of self.new ≡ links_of swap ∷ pending_of self.old }
    {
        self.swaps.push(swap);
    }

    // Takes the top off where a back exchange reverses it; else answers no and stays.
    pub(crate) fn take_back(&mut self, back: Swap) -> bool
        ensures { TakesBack (pending_of self.old) back.link_out back.link_in result (pending_of self.new) }
    {
        if self.swaps.last() != Some(&back.reversed()) {
            return false;
        }
        self.swaps.pop();
        true
    }
}
