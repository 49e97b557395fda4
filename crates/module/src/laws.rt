// Laws of every call.
ghost use Rattle.module.specs.CallNumbers.{CallNumbers};
ghost use Rattle.module.specs.WriteLaws.{StaysWhole, HalfAlone, HeldAfter, ReadBack, RefusedChangesNothing, OthersUntouched, SwitchRefused};

// Does nothing: its contract is the laws that every write of every module obeys.
pub fn write_laws()
    ensures whole { StaysWhole }
    ensures half { HalfAlone }
    ensures held { HeldAfter }
    ensures back { ReadBack }
    ensures refused { RefusedChangesNothing }
    ensures others { OthersUntouched }
    ensures switching { SwitchRefused }
{}

// Reads are refused with 1 or 2, writes with 1 to 6, rounds with 7: the stage's 9 never comes up.
pub fn call_numbers()
    ensures { CallNumbers }
{}
