// Taking records, one after another.
ghost use Rattle.std.specs.Prelude.{◌+◌, ◌^◌, ◌<◌, MatchBool};
ghost use Rattle.stream.specs.Bodies.{record_of};
ghost use Rattle.replay.specs.Streams.{GoesOn};
ghost use Rattle.replay.specs.Players.{place_of, site_of_player, shown_at};
ghost use Rattle.replay.specs.Taking.{Takes};
ghost use Rattle.replay.specs.Replays.{Finishes};

use super::opening::take_first;
use super::{Player, Replayed};
use faults::ReplayFault;
use stream::Entry;

impl Player {
    // Takes the record that stands at a place, or says the first question about it that is answered no.
    // Place and entry stay apart: each kind of record takes the entry to pieces, and only a refusal says the place.
    pub(crate) fn take(self, place: u64, entry: Entry) -> Result<Player, ReplayFault>
        requires { shown_at (place_of self) + 1 < 2 ^ 64 }
        ensures { Takes (site_of_player self) place (place_of self) (record_of entry) result }
    {
        match self {
            Player::Unopened(site) => take_first(site, place, entry),
            Player::Starting(starts) => starts.take(place, entry),
            Player::Walking(course) => course.take(place, entry),
            Player::Ended(_) => Err(ReplayFault::Misplaced(place)),
        }
    }

    // Whether the end was taken.
    pub(crate) fn has_ended(&self) -> bool
        ensures { MatchBool result (¬ GoesOn (place_of self.now)) (GoesOn (place_of self.now)) }
    {
        matches!(self, Player::Ended(_))
    }

    // What was replayed, if the end was taken; else the bytes end here too soon.
    pub(crate) fn finish(self, place: u64) -> Result<Replayed, ReplayFault>
        ensures { Finishes self place result }
    {
        match self {
            Player::Ended(replayed) => Ok(replayed),
            _ => Err(ReplayFault::Misplaced(place)),
        }
    }
}
