// The direct search for entering links: a setting, a ceiling of rank, and the moves between settings.
#![tactic(auto)]

mod state;

pub use state::{Move, Search};
