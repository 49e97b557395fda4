// Runs: any list of calls on a new module over any stage, and what is promised of every run.
#![tactic(auto)]

pub mod call;
pub mod running;

pub use call::{Answer, Call, Outcome, Reply};
pub use running::run;
