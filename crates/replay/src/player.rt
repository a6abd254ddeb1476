// Where a replay stands.
ghost use Rattle.std.specs.Prelude.{◌+◌, ◌<◌};
ghost use Rattle.survey.specs.Answers.{net_of};
ghost use Rattle.board.specs.Boards.{board_net, setting_of};
ghost use Rattle.replay.specs.Pending.{pending_of};
ghost use Rattle.replay.specs.Reversals.{CanReverse};

use crate::pending::Pending;
use board::Board;
use flood::Switches;
use survey::Surveyed;

mod opening;
mod starting;
mod taking;
mod walking;

// Among the records of the starting set: the links so far are closed, and they are fewer than the set has.
#[derive(Drop)]
pub(crate) struct Starts {
    switches: Switches,
    closed: u32,
    ghost few: { closed + 1 < (net_of switches.site).bars },
}

// Among the exchanges: the board, the forward exchanges not yet reversed, and how many settings were shown.
#[derive(Drop)]
pub(crate) struct Course {
    board: Board,
    pending: Pending,
    shown: u64,
    ghost reversible: { ∥ CanReverse (board_net board) (setting_of board) (pending_of pending) ∥₁ },
}

// A stream that was replayed to its end: the board at its starting set, and how many settings it shows.
#[derive(Drop)]
pub struct Replayed {
    pub board: Board,
    pub shown: u64,
}

// Before the net's record, among the records of the starting set, among the exchanges, or at the end.
#[derive(Drop)]
pub(crate) enum Player {
    Unopened(Surveyed),
    Starting(Starts),
    Walking(Course),
    Ended(Replayed),
}
