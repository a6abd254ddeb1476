// The survey of a net: a depth-first visit from the infeed, and the ranks of bars and links that come of it.
#![tactic(auto)]

mod copy;
mod links;
mod ranking;
mod surveyed;
mod tour;

pub use surveyed::{Surveyed, survey};
