// A listing passed on is a listing read back.
#![tactic(auto)]

mod head;
mod packer;
mod stage;

pub use packer::Packer;
