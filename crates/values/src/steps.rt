ghost use Rattle.std.specs.Prelude.{◌≡◌, ◌^◌, ◌<◌, ◌≤◌, T};
ghost use Rattle.values.specs.Model.{nominal_volts};
ghost use Rattle.values.specs.Ranges.{voltage_admitted, speed_admitted, percent_admitted};
ghost use Rattle.values.specs.Steps.{rounded_down, set_steps, limit_steps, ramp_step, LastStep};

use crate::model::Model;
use std::num::{f32_to_f64_with_nan, saturating_f64_to_u64};

// A binary32 number times a whole number of at most 29 bits is exact in binary64.
fn rounded_down(value: f32, numerator: u32, denominator: u32) -> u32
    requires { (0 < numerator) × (numerator ≤ 2 ^ 29) × (0 < denominator) }
    ensures { result ≡ rounded_down numerator denominator value }
{
    let product = f32_to_f64_with_nan(value) * (numerator as f64);
    let whole = saturating_f64_to_u64(product);
    (whole / (denominator as u64)).min(u32::MAX as u64) as u32
}

// The three counts differ in their constant and unit, and each is one call.

// 100,000 steps are the nominal voltage.
pub fn set_steps(volts: f32, model: Model) -> u32
    ensures value { result ≡ set_steps model volts }
    ensures last { T (voltage_admitted model volts) → LastStep 100000 (nominal_volts model) 0 100000 volts result }
{
    rounded_down(volts, 100_000, model.volts())
}

// A step of a limit is a thousandth of a per cent of the nominal voltage.
pub fn limit_steps(percent: f32) -> u32
    ensures value { result ≡ limit_steps percent }
    ensures last { T (percent_admitted percent) → LastStep 1000 1 0 100000 percent result }
{
    rounded_down(percent, 1000, 1)
}

// The steps of one round, a tenth of a second, at a speed in per cent a second.
pub fn ramp_step(percent: f32) -> u32
    ensures value { result ≡ ramp_step percent }
    ensures last { T (speed_admitted percent) → LastStep 100 1 3 1000 percent result }
{
    rounded_down(percent, 100, 1)
}
