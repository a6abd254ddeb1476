// The tally: whether each link is closed, and in how many of the settings told it was.
#![tactic(auto)]

mod counts;

pub use counts::{LinkCount, Tally};
