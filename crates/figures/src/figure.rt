// A figure is a call of the crate `values`; its outcome is what the call answers.
ghost use Rattle.std.specs.Prelude.{◌≡◌};
ghost use Rattle.figures.specs.Outcomes.{outcome_of, pattern_of};

use std::fmt;
use std::num::f32_to_bits_with_nan;
use values::{
    Model, Words, at_most, current_admitted, limit, limit_steps, out_of_bounds, ramp_step,
    set_steps, speed_admitted, stored_maximum, voltage_admitted,
};

#[derive(Clone, Copy, PartialEq, Debug)]
pub enum Figure {
    Join {
        words: Words,
    },
    UpperWord {
        value: f32,
    },
    LowerWord {
        value: f32,
    },
    NominalVoltage {
        model: Model,
    },
    NominalCurrent {
        model: Model,
    },
    SetSteps {
        model: Model,
        volts: f32,
    },
    LimitSteps {
        percent: f32,
    },
    RampStep {
        percent: f32,
    },
    AtMost {
        value: f32,
        top: f32,
    },
    VoltageAdmitted {
        model: Model,
        volts: f32,
    },
    CurrentAdmitted {
        model: Model,
        amperes: f32,
    },
    SpeedAdmitted {
        percent: f32,
    },
    StoredMaximum {
        percent: f32,
    },
    Limit {
        nominal: f32,
        percent: f32,
    },
    OutOfBounds {
        value: f32,
        setpoint: f32,
        bounds: f32,
    },
}

#[derive(Clone, Copy, PartialEq, Eq, Debug)]
pub enum Outcome {
    // The 32 bits of a value; 7FC00000 where it is not a number.
    Pattern(u32),
    Word(u16),
    Count(u32),
    Truth(bool),
}

impl Figure {
    pub(crate) fn outcome(self) -> Outcome
        ensures { result ≡ outcome_of self }
    {
        match self {
            Figure::Join { words } => pattern_of(f32::from(words)),
            Figure::UpperWord { value } => Outcome::Word(Words::from(value).upper),
            Figure::LowerWord { value } => Outcome::Word(Words::from(value).lower),
            Figure::NominalVoltage { model } => pattern_of(model.nominal_voltage()),
            Figure::NominalCurrent { model } => pattern_of(model.nominal_current()),
            Figure::SetSteps { model, volts } => Outcome::Count(set_steps(volts, model)),
            Figure::LimitSteps { percent } => Outcome::Count(limit_steps(percent)),
            Figure::RampStep { percent } => Outcome::Count(ramp_step(percent)),
            Figure::AtMost { value, top } => Outcome::Truth(at_most(value, top)),
            Figure::VoltageAdmitted { model, volts } => {
                Outcome::Truth(voltage_admitted(volts, model))
            }
            Figure::CurrentAdmitted { model, amperes } => {
                Outcome::Truth(current_admitted(amperes, model))
            }
            Figure::SpeedAdmitted { percent } => Outcome::Truth(speed_admitted(percent)),
            Figure::StoredMaximum { percent } => pattern_of(stored_maximum(percent)),
            Figure::Limit { nominal, percent } => pattern_of(limit(nominal, percent)),
            Figure::OutOfBounds {
                value,
                setpoint,
                bounds,
            } => Outcome::Truth(out_of_bounds(value, setpoint, bounds)),
        }
    }
}

fn pattern_of(value: f32) -> Outcome
    ensures { result ≡ pattern_of value }
{
    Outcome::Pattern(f32_to_bits_with_nan(value))
}

impl fmt::Display for Outcome {
    fn fmt<W: fmt::Write>(&self, f: &mut fmt::Formatter<W>) -> fmt::Result {
        match *self {
            Outcome::Pattern(bits) => write!(f, "{bits:08X}"),
            Outcome::Word(word) => write!(f, "{word:04X}"),
            Outcome::Count(count) => write!(f, "{count}"),
            Outcome::Truth(true) => f.write_str("yes"),
            Outcome::Truth(false) => f.write_str("no"),
        }
    }
}
