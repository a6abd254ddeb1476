// The text of a listing, one line a setting.
#![tactic(auto)]

mod print;
mod shown;
mod text;

pub use text::Lines;
