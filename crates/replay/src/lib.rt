// The replay of a stream on a board.
#![tactic(auto)]

mod exchanges;
mod pending;
mod player;
mod replays;

pub use player::Replayed;
pub use replays::replay;
