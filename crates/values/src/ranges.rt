ghost use Rattle.std.specs.Prelude.{◌≡◌, ◌≤◌};
ghost use Rattle.values.specs.Ranges as Ranges;
ghost use Rattle.values.specs.Steps.{limit_steps};

use crate::model::Model;

// False where either is not a number.
pub fn at_most(value: f32, top: f32) -> bool
    ensures { result ≡ Ranges.at_most value top }
{
    value <= top
}

fn within(low: f32, value: f32, high: f32) -> bool
    ensures { result ≡ Ranges.within low value high }
{
    at_most(low, value) && at_most(value, high)
}

// The two ranges differ in their top and unit, and each is one call.

pub fn voltage_admitted(volts: f32, model: Model) -> bool
    ensures { result ≡ Ranges.voltage_admitted model volts }
{
    within(0.0, volts, model.nominal_voltage())
}

pub fn current_admitted(amperes: f32, model: Model) -> bool
    ensures { result ≡ Ranges.current_admitted model amperes }
{
    within(0.0, amperes, model.nominal_current())
}

// In per cent a second.
pub fn speed_admitted(percent: f32) -> bool
    ensures { result ≡ Ranges.speed_admitted percent }
{
    within(0.04, percent, 10.0)
}

// A maximum that is not within 0 to 100 per cent is stored as 0.
#[tactic(auto, using(crate::proofs::Limits::limit_steps_of_stored))]
pub fn stored_maximum(percent: f32) -> f32
    ensures value { result ≡ Ranges.stored_maximum percent }
    ensures top { limit_steps result ≤ 100000 }
{
    if within(0.0, percent, 100.0) {
        percent
    } else {
        0.0
    }
}

// The product and the quotient are each rounded once.
pub fn limit(nominal: f32, percent: f32) -> f32
    ensures { result ≡ Ranges.limit_value nominal percent }
{
    nominal * percent / 100.0
}

// The bounds are above 0, and the distance of the value from the set value, one subtraction, is not at most the bounds.
pub fn out_of_bounds(value: f32, setpoint: f32, bounds: f32) -> bool
    ensures { result ≡ Ranges.out_of_bounds value setpoint bounds }
{
    let distance = value - setpoint;
    (0.0 < bounds) & !(at_most(distance, bounds) & at_most(-distance, bounds))
}
