// The walk through all radial settings of a net.
#![tactic(auto)]

mod answers;
mod cursor;
mod state;

pub use answers::{Advance, Look, Word};
pub use state::Walk;
