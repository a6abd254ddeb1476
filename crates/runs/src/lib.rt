// Any list of calls on a new walk of any net.
#![tactic(auto)]

mod calls;
mod driver;

pub use calls::Call;
pub use driver::run;
