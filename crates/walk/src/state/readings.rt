// What a walk holds, as its calls answer it.
ghost use Rattle.std.specs.Prelude.{◌≡◌, length, ◌==◌};
ghost use Rattle.trees.specs.Listings.{told};
ghost use Rattle.walk.specs.Calls.{handed_on, left_after, word_of};
ghost use Rattle.walk.specs.Walks.{net_of_walk, handed_by};

use super::Walk;
use crate::answers::Word;

impl Walk {
    // How many settings were told.
    pub(super) fn settings_told(&self) -> u64
        ensures { result ≡ length (told (net_of_walk self.now) (handed_on (net_of_walk self.now) (handed_by self.now))) }
    {
        self.settings
    }

    // How many exchanges were told.
    pub(super) fn exchanges_told(&self) -> u64
        ensures { result ≡ handed_by self.now }
    {
        self.exchanges
    }

    // Whether no exchange is left.
    pub(super) fn is_finished(&self) -> bool
        ensures { result ≡ (left_after (net_of_walk self.now) (handed_by self.now) == 0) }
    {
        self.cursor.is_done()
    }

    // How an advance ended that handed on so many, with so much spare before it.
    pub(super) fn word(&self, count: u64, spare: u64) -> Word
        ensures { result ≡ word_of (left_after (net_of_walk self.now) (handed_by self.now)) count spare }
    {
        if self.is_finished() {
            Word::Finished
        } else if count == spare {
            Word::Full
        } else {
            Word::Spent
        }
    }
}
