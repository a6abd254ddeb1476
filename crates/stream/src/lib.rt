// The stream: its records, the writer and the reader.
#![tactic(auto)]

mod bodies;
mod fronts;
mod reader;
mod records;
mod writer;

pub use bodies::{Body, Entry};
pub use reader::Reader;
pub use writer::Writer;
