// How a module refuses: a number, and what it carries.
ghost use Rattle.std.specs.Prelude.{◌≡◌};
ghost use Rattle.registers.specs.Faults as Faults;
ghost use Rattle.registers.specs.Faults.{refusal_9, NumbersStand};

use stage::StageFault;
use std::error::Error;
use std::fmt;

#[derive(Clone, Copy, PartialEq, Eq, Debug)]
pub enum ModuleFault {
    // 1: the offset is odd or above 3FE
    Outside { offset: u16 },
    // 2: nothing stands at the offset
    EmptyPlace { offset: u16 },
    // 2: the channel asked for is not placed
    NoChannel { channel: usize },
    // 3: the word at the offset is read only
    ReadOnly { offset: u16 },
    // 4: a lower half whose upper half is not held
    UpperNotHeld { offset: u16 },
    // 5: the value is not admitted
    NotAdmitted { offset: u16 },
    // 6: a blocked channel that is off cannot be switched on
    Blocked { offset: u16 },
    // 7: there is not one reading for each channel
    Readings { count: usize },
    // 8: an image has not 1,024 bytes
    ImageLength { bytes: usize },
    // 9: the output stage refuses
    Stage(StageFault),
}

impl ModuleFault {
    pub fn number(self) -> u32
        ensures { result ≡ Faults.number self }
    {
        match self {
            ModuleFault::Outside { .. } => 1,
            ModuleFault::EmptyPlace { .. } | ModuleFault::NoChannel { .. } => 2,
            ModuleFault::ReadOnly { .. } => 3,
            ModuleFault::UpperNotHeld { .. } => 4,
            ModuleFault::NotAdmitted { .. } => 5,
            ModuleFault::Blocked { .. } => 6,
            ModuleFault::Readings { .. } => 7,
            ModuleFault::ImageLength { .. } => 8,
            ModuleFault::Stage(fault) => fault.number(),
        }
    }
}

impl From<StageFault> for ModuleFault {
    ghost from_gives = { λ fault r. r ≡ refusal_9 fault };

    fn from(fault: StageFault) -> ModuleFault {
        ModuleFault::Stage(fault)
    }
}

// The number, and what is carried.
impl fmt::Display for ModuleFault {
    fn fmt<W: fmt::Write>(&self, f: &mut fmt::Formatter<W>) -> fmt::Result {
        let number = self.number();
        match *self {
            ModuleFault::Outside { offset }
            | ModuleFault::EmptyPlace { offset }
            | ModuleFault::ReadOnly { offset }
            | ModuleFault::UpperNotHeld { offset }
            | ModuleFault::NotAdmitted { offset }
            | ModuleFault::Blocked { offset } => write!(f, "{number} offset {offset:04X}"),
            ModuleFault::NoChannel { channel } | ModuleFault::Stage(StageFault { channel }) => {
                write!(f, "{number} channel {channel}")
            }
            ModuleFault::Readings { count } => write!(f, "{number} readings {count}"),
            ModuleFault::ImageLength { bytes } => write!(f, "{number} bytes {bytes}"),
        }
    }
}

impl Error for ModuleFault {}

// Each refusal has its own number and carries what it was made with.
pub fn numbers_stand()
    ensures { NumbersStand }
{}
