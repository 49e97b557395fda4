// Bench scripts: what a script says, the run of its calls, and the listing of what they were answered.
#![tactic(auto)]

pub mod command;
pub mod fault;
pub mod listing;
pub mod numbers;
pub mod parsing;
pub mod reader;
pub mod text;
pub mod words;

pub use command::{Setup, StageKind};
pub use fault::{ScriptFault, Wrong};
pub use listing::{Listing, perform};
pub use parsing::{parse, text_of};
pub use reader::Script;
