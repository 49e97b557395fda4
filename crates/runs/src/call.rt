// A call as data, with all that it brings, and what it is answered.
use module::{Access, BlockFault, Kind, Levels, Module};
use registers::ModuleFault;
use stage::Stage;
use table::{Conditions, Reading};

#[derive(Debug, Drop)]
pub enum Call {
    Read {
        offset: u16,
    },
    Write {
        offset: u16,
        word: u16,
    },
    Block {
        accesses: Vec<Access>,
    },
    Round {
        conditions: Conditions,
        readings: Vec<Reading>,
    },
}

// A read or a write alone.
impl From<Access> for Call {
    ghost use Rattle.std.specs.Prelude.{◌≡◌};
    ghost use Rattle.runs.specs.Calls.{asked, asked_by};

    ghost from_gives = { λ access call. asked call ≡ asked_by access };

    fn from(access: Access) -> Call {
        let Access { kind, offset, word } = access;
        match kind {
            Kind::Read => Call::Read { offset },
            Kind::Write => Call::Write { offset, word },
        }
    }
}

#[derive(Debug, Drop)]
pub enum Answer {
    Read(Result<u16, ModuleFault>),
    Write(Result<(), ModuleFault>),
    // the records as the block left them
    Block {
        end: Result<usize, BlockFault>,
        records: Vec<Access>,
    },
    Round(Result<(), ModuleFault>),
}

// The answer to a call, and the levels that the stage then answers.
#[derive(Debug, Drop)]
pub struct Reply {
    pub answer: Answer,
    pub levels: Levels,
}

#[derive(Drop)]
pub struct Outcome<S: Stage> {
    pub module: Module<S>,
    pub replies: Vec<Reply>,
}
