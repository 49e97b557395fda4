// Compares an outcome with the one that is expected.
ghost use Rattle.figures.specs.Outcomes.{outcome_of};
ghost use Rattle.figures.specs.Verdicts.{Judged};

use crate::figure::{Figure, Outcome};

// The figure and what is expected of it.
#[derive(Clone, Copy, PartialEq, Debug)]
pub struct Vector {
    pub figure: Figure,
    pub expected: Outcome,
}

impl Vector {
    // What came, where it is not what is expected.
    pub(crate) fn verdict(self) -> Result<(), Outcome>
        ensures { Judged (outcome_of self.figure) self.expected result }
    {
        let outcome = self.figure.outcome();
        if outcome == self.expected {
            Ok(())
        } else {
            Err(outcome)
        }
    }
}
