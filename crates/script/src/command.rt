// The lines of a script, each from its words.
ghost use Rattle.std.specs.Prelude.{◌≡◌, Some, Ok};
ghost use Rattle.script.specs.Commands.{word_at, keyword_read, stage_name, stage_read, choice_of, fitting, read_line, write_line, access_line, reading_line, round_line, module_line, block_line, command_line};
ghost use Rattle.script.specs.Numbers.{decimal_number, hex_word};
ghost use Rattle.values.specs.Model.{with_volts};

use crate::fault::Wrong;
use crate::numbers::{amount, decimal, hex_word};
use module::{Access, Kind};
use stage::taken_count;
use std::fmt;
use std::str::FromStr;
use table::{Amounts, Conditions, Reading};
use values::Model;

#[derive(Clone, Copy, PartialEq, Eq, Debug)]
pub enum StageKind {
    Direct,
    Distributor,
}

// The module of a script, with the count of channels as it is taken.
#[derive(Clone, Copy, PartialEq, Eq, Debug)]
pub struct Setup {
    pub model: Model,
    pub stage: StageKind,
    pub count: usize,
}

// A block or a round is followed by so many lines of its own.
#[derive(Clone, Copy, PartialEq, Debug)]
pub enum Command {
    Module(Setup),
    Access(Access),
    Block {
        accesses: usize,
    },
    Round {
        conditions: Conditions,
        readings: usize,
    },
}

#[derive(Clone, Copy, PartialEq, Eq, Debug)]
enum Keyword {
    Module,
    Read,
    Write,
    Block,
    Round,
}

impl FromStr for Keyword {
    type Err = Wrong;

    ghost from_str_gives = { λ name r. r ≡ keyword_read name };

    fn from_str(name: &str) -> Result<Keyword, Wrong> {
        match name {
            "module" => Ok(Keyword::Module),
            "read" => Ok(Keyword::Read),
            "write" => Ok(Keyword::Write),
            "block" => Ok(Keyword::Block),
            "round" => Ok(Keyword::Round),
            _ => Err(Wrong::UnknownCommand),
        }
    }
}

impl FromStr for StageKind {
    type Err = Wrong;

    ghost from_str_gives = { λ name r. r ≡ stage_read name };

    fn from_str(name: &str) -> Result<StageKind, Wrong> {
        match name {
            "direct" => Ok(StageKind::Direct),
            "distributor" => Ok(StageKind::Distributor),
            _ => Err(Wrong::BadStage),
        }
    }
}

impl fmt::Display for StageKind {
    ghost output = { λ stage. Some (stage_name stage) };

    fn fmt<W: fmt::Write>(&self, f: &mut fmt::Formatter<W>) -> fmt::Result {
        f.write_str(match self {
            StageKind::Direct => "direct",
            StageKind::Distributor => "distributor",
        })
    }
}

// Whether it is the first of two words or the second.
fn choice(word: &str, first: &str, second: &str) -> Option<bool>
    ensures { result ≡ choice_of first.now second.now word.now }
{
    if word == first {
        Some(true)
    } else if word == second {
        Some(false)
    } else {
        None
    }
}

// The model of so many volts.
fn model_of(volts: usize) -> Option<Model>
    ensures { result ≡ with_volts volts }
{
    Model::try_from(u32::try_from(volts).unwrap_or(0)).ok()
}

fn first_word(words: &[&str]) -> Result<Keyword, Wrong>
    ensures { result ≡ keyword_read (word_at words.now 0) }
{
    words.first().ok_or(Wrong::UnknownCommand)?.parse()
}

fn expect_words(words: &[&str], count: usize) -> Result<(), Wrong>
    ensures { result ≡ fitting count words.now (Ok tt) }
{
    if words.len() < count {
        Err(Wrong::MissingWord)
    } else if words.len() > count {
        Err(Wrong::SurplusWord)
    } else {
        Ok(())
    }
}

// The word of a read begins as 0.
fn read_access(words: &[&str]) -> Result<Access, Wrong>
    ensures { result ≡ read_line words.now }
{
    expect_words(words, 2)?;
    Ok(Access {
        kind: Kind::Read,
        offset: hex_word(words[1]).ok_or(Wrong::BadOffset)?,
        word: 0,
    })
}

// A write has one word more, with a fault of its own, so it is no read with a parameter.
fn write_access(words: &[&str]) -> Result<Access, Wrong>
    ensures { result ≡ write_line words.now }
{
    expect_words(words, 3)?;
    Ok(Access {
        kind: Kind::Write,
        offset: hex_word(words[1]).ok_or(Wrong::BadOffset)?,
        word: hex_word(words[2]).ok_or(Wrong::BadWord)?,
    })
}

// A line of a block.
pub(crate) fn block_access(words: &[&str]) -> Result<Access, Wrong>
    ensures { result ≡ access_line words.now }
{
    match first_word(words) {
        Ok(Keyword::Read) => read_access(words),
        Ok(Keyword::Write) => write_access(words),
        _ => Err(Wrong::NotAccess),
    }
}

// A line of a round.
pub(crate) fn round_reading(words: &[&str]) -> Result<Reading, Wrong>
    ensures { result ≡ reading_line words.now }
{
    expect_words(words, 3)?;
    Ok(Reading {
        voltage: amount(words[0]).ok_or(Wrong::BadNumber)?,
        current: amount(words[1]).ok_or(Wrong::BadNumber)?,
        inhibit_low: choice(words[2], "low", "high").ok_or(Wrong::BadInhibit)?,
    })
}

fn round_command(words: &[&str]) -> Result<Command, Wrong>
    ensures { result ≡ round_line words.now }
{
    expect_words(words, 7)?;
    let conditions = Conditions {
        temperature: amount(words[1]).ok_or(Wrong::BadNumber)?,
        supply_good: choice(words[2], "good", "bad").ok_or(Wrong::BadSupply)?,
        loop_closed: choice(words[3], "closed", "open").ok_or(Wrong::BadLoop)?,
        maxima: Amounts {
            voltage: amount(words[4]).ok_or(Wrong::BadNumber)?,
            current: amount(words[5]).ok_or(Wrong::BadNumber)?,
        },
    };
    let readings = decimal(words[6]).ok_or(Wrong::BadCount)?;
    Ok(Command::Round {
        conditions,
        readings,
    })
}

fn module_command(words: &[&str]) -> Result<Command, Wrong>
    ensures { result ≡ module_line words.now }
{
    expect_words(words, 4)?;
    let volts = decimal(words[1]).ok_or(Wrong::BadModel)?;
    let model = model_of(volts).ok_or(Wrong::BadModel)?;
    let stage = words[2].parse()?;
    let count = decimal(words[3]).ok_or(Wrong::BadCount)?;
    Ok(Command::Module(Setup {
        model,
        stage,
        count: taken_count(count),
    }))
}

fn block_command(words: &[&str]) -> Result<Command, Wrong>
    ensures { result ≡ block_line words.now }
{
    expect_words(words, 2)?;
    let accesses = decimal(words[1]).ok_or(Wrong::BadCount)?;
    Ok(Command::Block { accesses })
}

pub(crate) fn command_of(words: &[&str]) -> Result<Command, Wrong>
    ensures { result ≡ command_line words.now }
{
    match first_word(words)? {
        Keyword::Module => module_command(words),
        Keyword::Read => read_access(words).map(Command::Access),
        Keyword::Write => write_access(words).map(Command::Access),
        Keyword::Block => block_command(words),
        Keyword::Round => round_command(words),
    }
}
