// How many figures were right and how many wrong.
ghost use Rattle.std.specs.Prelude.{◌≡◌};
ghost use Rattle.figures.specs.Tallies.{counted};

use std::fmt;

#[derive(Clone, Copy, Default, PartialEq, Eq, Debug)]
pub struct Tally {
    right: u64,
    wrong: u64,
}

impl Tally {
    pub(crate) fn count(&mut self, right: bool)
        ensures { self.new ≡ counted self.old right }
    {
        if right {
            self.right = self.right.saturating_add(1);
        } else {
            self.wrong = self.wrong.saturating_add(1);
        }
    }
}

impl fmt::Display for Tally {
    fn fmt<W: fmt::Write>(&self, f: &mut fmt::Formatter<W>) -> fmt::Result {
        let all = self.right.saturating_add(self.wrong);
        write!(
            f,
            "{all} figures: {} right, {} wrong",
            self.right, self.wrong
        )
    }
}
