// The exchanges, record by record.
ghost use Rattle.std.specs.Prelude.{◌≡◌, ◌+◌, ◌^◌, ◌<◌, ◌&&◌, length, ◌==◌, nat_le};
ghost use Rattle.stream.specs.Records.{F, B, Z};
ghost use Rattle.stream.specs.Bodies.{record_of};
ghost use Rattle.board.specs.Boards.{board_net};
ghost use Rattle.replay.specs.Pending.{pending_of};
ghost use Rattle.replay.specs.Players.{course_place};
ghost use Rattle.replay.specs.Taking.{Takes};

use super::{Course, Player, Replayed};
use crate::exchanges::exchange;
use crate::pending::Swap;
use faults::ReplayFault;
use net::NetSource;
use stream::Entry;

impl Course {
    // Takes a record, which must be of an exchange or the end.
    pub(super) fn take(self, place: u64, entry: Entry) -> Result<Player, ReplayFault>
        requires { self.shown + 1 < 2 ^ 64 }
        ensures { Takes self.board.switches.site place (course_place self) (record_of entry) result }
    {
        match entry {
            Entry::Forward { link_out, link_in } => self.forward(place, Swap { link_out, link_in }),
            Entry::Back { link_out, link_in } => self.back(place, Swap { link_out, link_in }),
            Entry::End { settings } => self.end(place, settings),
            _ => Err(ReplayFault::Misplaced(place)),
        }
    }

    // Makes a forward exchange, which shows one setting more.
    fn forward(self, place: u64, swap: Swap) -> Result<Player, ReplayFault>
        requires { self.shown + 1 < 2 ^ 64 }
        ensures { Takes self.board.switches.site place (course_place self) (F swap.link_out swap.link_in) result }
    {
        if swap.link_out == swap.link_in {
            return Err(ReplayFault::SameLinks(place));
        }
        if self.is_deep() {
            return Err(ReplayFault::TooDeep(place));
        }
        let Course {
            board,
            mut pending,
            shown,
        } = self;
        let board = exchange(board, swap).map_err(|fault| ReplayFault::OnBoard {
            fault,
            record: place,
        })?;
        pending.push(swap);
        Ok(Player::Walking(Course {
            board,
            pending,
            shown: shown + 1,
        }))
    }

    // Makes a back exchange, which must reverse the last forward exchange not yet reversed.
    fn back(self, place: u64, swap: Swap) -> Result<Player, ReplayFault>
        ensures { Takes self.board.switches.site place (course_place self) (B swap.link_out swap.link_in) result }
    {
        let Course {
            board,
            mut pending,
            shown,
        } = self;
        if !pending.take_back(swap) {
            return Err(ReplayFault::NotReversal(place));
        }
        let board = exchange(board, swap).unwrap();
        Ok(Player::Walking(Course {
            board,
            pending,
            shown,
        }))
    }

    // Ends the replay: all must be reversed, and so many settings shown.
    fn end(self, place: u64, settings: u64) -> Result<Player, ReplayFault>
        ensures { Takes self.board.switches.site place (course_place self) (Z settings) result }
    {
        if !self.may_end(settings) {
            return Err(ReplayFault::WrongEnd(place));
        }
        let Course {
            board,
            pending: _,
            shown,
        } = self;
        Ok(Player::Ended(Replayed { board, shown }))
    }

    // Whether as many forward exchanges are not yet reversed as may be: one fewer than the bars.
    fn is_deep(&self) -> bool
        ensures { result ≡ nat_le (board_net self.now.board).bars (length (pending_of self.now.pending) + 1) }
    {
        u64::from(self.board.bars()) <= self.pending.depth() as u64 + 1
    }

    // Whether all is reversed, and so many settings were shown.
    fn may_end(&self, settings: u64) -> bool
        ensures { result ≡ (length (pending_of self.now.pending) == 0 && settings == self.now.shown) }
    {
        self.pending.depth() == 0 && settings == self.shown
    }
}
