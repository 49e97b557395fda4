#![tactic(auto)]

pub mod model;
pub mod ranges;
pub mod steps;
pub mod words;

pub use model::{Model, UnknownModel};
pub use ranges::{
    at_most, current_admitted, limit, out_of_bounds, speed_admitted, stored_maximum,
    voltage_admitted,
};
pub use steps::{limit_steps, ramp_step, set_steps};
pub use words::{Words, words_return};
