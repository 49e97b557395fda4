// Laws that belong to no single round: each function does nothing, and its contract is the law.
ghost use Rattle.module.specs.RoundLawsExamples.{PercentIsPercent, NewPlaced, FirstRounds};

// A VoltageMax of n per cent is n thousand steps.
pub fn percent_is_percent()
    ensures { PercentIsPercent }
{}

// The table of a new module has the record of each of its channels, so that the laws of a round hold of every one.
pub fn new_module_is_placed()
    ensures { NewPlaced }
{}

// The first rounds of a channel of 2,000 V that is set to 1,000 V.
pub fn first_rounds_are()
    ensures { FirstRounds }
{}
