// Exchanges, and what collects them.
#![tactic(auto)]

mod collector;
mod exchange;
mod mixed;

pub use collector::Collector;
pub use either::Either;
pub use exchange::{Exchange, Kind};
