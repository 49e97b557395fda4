// The module's plain inner table: what each channel and the module keep, and what its registers read.
#![tactic(auto)]

pub mod carrying;
pub mod change;
pub mod channel;
pub mod order;
pub mod reading;
pub mod records;
pub mod round;
pub mod setting;
pub mod writing;

pub use carrying::Drive;
pub use records::{Amounts, Both, Channel, Conditions, Findings, Flags, Groups, Half, Table};
pub use round::{Pass, Reading};
pub use setting::Setting;
