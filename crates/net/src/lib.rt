// Nets: what a source of nets answers, two sources, and the limits that a net must keep.
#![tactic(auto)]

mod limits;
mod source;
mod sources;

pub use limits::{INFEED, MOST_BARS, MOST_LINKS, check};
pub use source::NetSource;
pub use sources::{LadderSource, ListSource};
