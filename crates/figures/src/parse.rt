// A line has the name of a call of the crate `values`, its arguments and the expected outcome, with spaces between.
// Patterns and words are hexadecimal; a model is its volts; volts and counts are decimal; a truth is `yes` or `no`.
use crate::figure::{Figure, Outcome};
use crate::verdict::Vector;
use std::num::f32_from_bits_with_nan;
use std::str::SplitWhitespace;
use values::{Model, Words};

// None if it is no such line.
pub(crate) fn parse_line(line: &str) -> Option<Vector> {
    let mut words = line.split_whitespace();
    let name = words.next()?;
    let figure = parse_figure(name, &mut words)?;
    let expected = parse_outcome(figure, words.next()?)?;
    words
        .next()
        .is_none()
        .then_some(Vector { figure, expected })
}

// One function for each kind of answer: in one match they would be longer than a function may be.

// The calls that answer a value or a word.
fn parse_figure(name: &str, words: &mut SplitWhitespace<'_>) -> Option<Figure> {
    match name {
        "join" => Some(Figure::Join {
            words: Words {
                upper: parse_word(words)?,
                lower: parse_word(words)?,
            },
        }),
        "upper_word" => Some(Figure::UpperWord {
            value: parse_value(words)?,
        }),
        "lower_word" => Some(Figure::LowerWord {
            value: parse_value(words)?,
        }),
        "nominal_voltage" => Some(Figure::NominalVoltage {
            model: parse_model(words)?,
        }),
        "nominal_current" => Some(Figure::NominalCurrent {
            model: parse_model(words)?,
        }),
        "stored_maximum" => Some(Figure::StoredMaximum {
            percent: parse_value(words)?,
        }),
        "limit" => Some(Figure::Limit {
            nominal: parse_value(words)?,
            percent: parse_value(words)?,
        }),
        _ => parse_count(name, words),
    }
}

// The calls that answer a count of steps.
fn parse_count(name: &str, words: &mut SplitWhitespace<'_>) -> Option<Figure> {
    match name {
        "set_steps" => Some(Figure::SetSteps {
            model: parse_model(words)?,
            volts: parse_value(words)?,
        }),
        "limit_steps" => Some(Figure::LimitSteps {
            percent: parse_value(words)?,
        }),
        "ramp_step" => Some(Figure::RampStep {
            percent: parse_value(words)?,
        }),
        _ => parse_test(name, words),
    }
}

// The calls that answer yes or no.
fn parse_test(name: &str, words: &mut SplitWhitespace<'_>) -> Option<Figure> {
    match name {
        "at_most" => Some(Figure::AtMost {
            value: parse_value(words)?,
            top: parse_value(words)?,
        }),
        "voltage_admitted" => Some(Figure::VoltageAdmitted {
            model: parse_model(words)?,
            volts: parse_value(words)?,
        }),
        "current_admitted" => Some(Figure::CurrentAdmitted {
            model: parse_model(words)?,
            amperes: parse_value(words)?,
        }),
        "speed_admitted" => Some(Figure::SpeedAdmitted {
            percent: parse_value(words)?,
        }),
        "out_of_bounds" => Some(Figure::OutOfBounds {
            value: parse_value(words)?,
            setpoint: parse_value(words)?,
            bounds: parse_value(words)?,
        }),
        _ => None,
    }
}

// Each width is read by its own type's function, which is no method of a trait.

fn parse_word(words: &mut SplitWhitespace<'_>) -> Option<u16> {
    u16::from_str_radix(words.next()?, 16).ok()
}

fn parse_value(words: &mut SplitWhitespace<'_>) -> Option<f32> {
    let bits = u32::from_str_radix(words.next()?, 16).ok()?;
    Some(f32_from_bits_with_nan(bits))
}

fn parse_model(words: &mut SplitWhitespace<'_>) -> Option<Model> {
    Model::try_from(words.next()?.parse::<u32>().ok()?).ok()
}

// What is expected is of the kind that the figure answers.
fn parse_outcome(figure: Figure, text: &str) -> Option<Outcome> {
    match figure.outcome() {
        Outcome::Pattern(_) => u32::from_str_radix(text, 16).ok().map(Outcome::Pattern),
        Outcome::Word(_) => u16::from_str_radix(text, 16).ok().map(Outcome::Word),
        Outcome::Count(_) => text.parse::<u32>().ok().map(Outcome::Count),
        Outcome::Truth(_) => match text {
            "yes" => Some(Outcome::Truth(true)),
            "no" => Some(Outcome::Truth(false)),
            _ => None,
        },
    }
}
