// A caller's buffer that is written on, from its first byte on.
#![tactic(auto)]

mod sheet;

pub use sheet::Sheet;
