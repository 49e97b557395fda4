// A line of a script that cannot be understood.
ghost use Rattle.std.specs.Prelude.{◌≡◌};
ghost use Rattle.script.specs.Faults.{at_line, out_of_memory};

use std::alloc::AllocFailed;
use thiserror::Error;

#[derive(Clone, Copy, PartialEq, Eq, Debug, Error)]
pub enum Wrong {
    #[error("not UTF-8 text")]
    NotText,
    #[error("the first command is not a module")]
    NoModule,
    #[error("a second module")]
    SecondModule,
    #[error("unknown command")]
    UnknownCommand,
    #[error("neither a read nor a write")]
    NotAccess,
    #[error("a word is missing")]
    MissingWord,
    #[error("a word too many")]
    SurplusWord,
    #[error("no such model")]
    BadModel,
    #[error("the stage is neither direct nor distributor")]
    BadStage,
    #[error("the count is not decimal")]
    BadCount,
    #[error("the offset is not one to four hexadecimal digits")]
    BadOffset,
    #[error("the word is not one to four hexadecimal digits")]
    BadWord,
    #[error("not a number")]
    BadNumber,
    #[error("the supply is neither good nor bad")]
    BadSupply,
    #[error("the loop is neither closed nor open")]
    BadLoop,
    #[error("the inhibit line is neither high nor low")]
    BadInhibit,
    #[error("the script ends inside a block")]
    EndInBlock,
    #[error("the script ends inside a round")]
    EndInRound,
    #[error("not enough memory")]
    NoMemory,
}

// Lines are counted from 1.
#[derive(Clone, Copy, PartialEq, Eq, Debug, Error)]
#[error("line {line}: {wrong}")]
pub struct ScriptFault {
    pub line: usize,
    pub wrong: Wrong,
}

// What is wrong, with the line that it is wrong in.
pub(crate) fn at_line<T>(line: usize, read: Result<T, Wrong>) -> Result<T, ScriptFault>
    ensures { result ≡ at_line line read }
{
    read.map_err(|wrong| ScriptFault { line, wrong })
}

impl<T: Drop> From<AllocFailed<T>> for Wrong {
    ghost from_gives = { λ _ r. r ≡ out_of_memory };

    fn from(_refused: AllocFailed<T>) -> Wrong {
        Wrong::NoMemory
    }
}
