// A surveyed net whose links are switched, and the bars that are fed from the infeed, found by a flood over the closed links.
#![tactic(auto)]

mod fed;
mod marks;
mod rows;
mod switches;
mod ways;

pub use marks::Marks;
pub use switches::Switches;
