// The text of a listing.
use crate::command::Setup;
use crate::listing::{Echo, Entry, Listing, done_count};
use module::{Access, BlockFault, Kind, Levels};
use runs::Answer;
use stage::MOST_CHANNELS;
use std::fmt;
use std::fmt::Formatter;

// An access of a block, as the block left it.
#[derive(Clone, Copy, PartialEq, Eq, Debug)]
struct Record(Access);

impl fmt::Display for Record {
    fn fmt<W: fmt::Write>(&self, f: &mut Formatter<W>) -> fmt::Result {
        let Access { kind, offset, word } = self.0;
        match kind {
            Kind::Read => write!(f, "read {offset:04X} {word:04X}"),
            Kind::Write => write!(f, "write {offset:04X} {word:04X}"),
        }
    }
}

#[derive(Clone, Copy, Debug)]
struct Answered<'a>(&'a Answer);

impl fmt::Display for Answered<'_> {
    fn fmt<W: fmt::Write>(&self, f: &mut Formatter<W>) -> fmt::Result {
        match self.0 {
            Answer::Read(Ok(word)) => write!(f, "{word:04X}"),
            Answer::Write(Ok(())) | Answer::Round(Ok(())) => f.write_str("done"),
            Answer::Read(Err(fault)) | Answer::Write(Err(fault)) | Answer::Round(Err(fault)) => {
                write!(f, "refused {fault}")
            }
            Answer::Block { end, records } => {
                for record in records {
                    writeln!(f, "  {}", Record(*record))?;
                }
                write!(f, "block of {}: ", records.len())?;
                match end {
                    Ok(done) => write!(f, "{done} done"),
                    Err(BlockFault { index, fault }) => { write!(f, "refused at {index}: {fault}") }
                }
            }
        }
    }
}

// A block begins with its records instead.
impl fmt::Display for Echo {
    fn fmt<W: fmt::Write>(&self, f: &mut Formatter<W>) -> fmt::Result {
        match self {
            Echo::Read { offset } => write!(f, "read {offset:04X}: "),
            Echo::Write { offset, word } => write!(f, "write {offset:04X} {word:04X}: "),
            Echo::Block => Ok(()),
            Echo::Round { readings } => write!(f, "round of {readings}: "),
        }
    }
}

// An answer to another kind of call is an error.
impl fmt::Display for Entry<'_> {
    fn fmt<W: fmt::Write>(&self, f: &mut Formatter<W>) -> fmt::Result {
        match (self.echo, &self.reply.answer) {
            (Echo::Read { .. }, Answer::Read(_))
            | (Echo::Write { .. }, Answer::Write(_))
            | (Echo::Block, Answer::Block { .. })
            | (Echo::Round { .. }, Answer::Round(_)) => {
                write!(f, "{}{}", self.echo, Answered(&self.reply.answer))
            }
            _ => Err(fmt::Error),
        }
    }
}

#[derive(Clone, Copy, PartialEq, Eq, Debug)]
struct Shown(Levels);

impl fmt::Display for Shown {
    fn fmt<W: fmt::Write>(&self, f: &mut Formatter<W>) -> fmt::Result {
        f.write_str("levels")?;
        for step in self.0.steps.iter().take(self.0.count) {
            write!(f, " {step}")?;
        }
        Ok(())
    }
}

impl fmt::Display for Listing {
    fn fmt<W: fmt::Write>(&self, f: &mut Formatter<W>) -> fmt::Result {
        let Setup {
            model,
            stage,
            count,
        } = self.setup;
        writeln!(f, "module {} {stage} {count}", model.volts())?;
        let mut shown = Levels {
            count,
            steps: [0; MOST_CHANNELS],
        };
        for (echo, reply) in self.echoes.iter().zip(&self.replies) {
            writeln!(f, "{}", Entry { echo: *echo, reply })?;
            // All are of one module, so their counts are the same.
            if reply.levels.steps != shown.steps {
                shown = reply.levels;
                writeln!(f, "{}", Shown(shown))?;
            }
        }
        writeln!(f, "{}", Shown(shown))?;
        let calls = self.replies.len();
        let done = done_count(self.replies.as_slice());
        writeln!(f, "{calls} calls: {done} done, {} refused", calls - done)
    }
}
