// The board: a setting on which links are switched one after another.
#![tactic(auto)]

mod boards;
mod rows;
mod settings;

pub use boards::{Board, Looped};
