// What the lines of a script, up to one of them, have said.
ghost use Rattle.std.specs.Prelude.{◌≡◌, ◌-◌, [], ◌∷◌, ◌++◌, None, Ok, MatchResult};
ghost use Rattle.script.specs.Faults.{out_of_memory};
ghost use Rattle.runs.specs.Calls.{asked};

use crate::command::{Command, Setup, block_access, command_of, round_reading};
use crate::fault::Wrong;
use module::Access;
use runs::Call;
use std::alloc::Global;
use std::marker::Model;
use std::mem;
use table::{Conditions, Reading};

#[derive(Drop)]
pub struct Script {
    pub setup: Setup,
    pub calls: Vec<Call>,
}

// The lines of a block or a round, of which `left` are to come.
#[derive(Drop)]
struct Gathering<T> {
    left: usize,
    items: Vec<T>,
}

impl<T: Drop> Gathering<T> {
    fn new(heap: Global, left: usize) -> Gathering<T>
        ensures { (result.left ≡ left) × (result.items.items ≡ []) }
    {
        Gathering {
            left,
            items: Vec::new(heap),
        }
    }

    // The next line.
    fn with(mut self, item: T) -> Result<Gathering<T>, Wrong>
        ensures { MatchResult result (λ g. (g.left ≡ self.left - 1) × (g.items.items ≡ self.items.items ++ item ∷ [])) (λ w. w ≡ out_of_memory) }
    {
        self.items.push(item)?;
        self.left = self.left.saturating_sub(1);
        Ok(self)
    }
}

// A block or a round whose lines are still to come.
#[derive(Drop)]
enum Pending {
    Nothing,
    Block(Gathering<Access>),
    Round(Conditions, Gathering<Reading>),
}

#[derive(Drop)]
pub struct Reader {
    setup: Option<Setup>,
    calls: Vec<Call>,
    pending: Pending,
}

impl Model for Reader {
    ghost use Rattle.std.specs.Prelude.{map};
    ghost use Rattle.runs.specs.Calls.{asked};
    ghost use Rattle.script.specs.Progress.{Progress, progress, opened_by};

    ghost Value = { Progress };

    ghost view = { λ r. progress r.setup (map asked r.calls.items) (opened_by r.pending) };
}

impl Reader {
    ghost use Rattle.script.specs.Progress.{progress, nothing, Reads, called, opening, opened_by, begun, taken, ended, whole_by};

    pub(crate) fn new(heap: Global) -> Reader
        ensures { result ≡ progress None [] nothing }
    {
        Reader {
            setup: None,
            calls: Vec::new(heap),
            pending: Pending::Nothing,
        }
    }

    fn with_call(mut self, call: Call) -> Result<Reader, Wrong>
        ensures { Reads result (Ok (called self (asked call))) }
    {
        self.calls.push(call)?;
        self.pending = Pending::Nothing;
        Ok(self)
    }

    // A block or a round is a call once none of its lines is to come.
    fn with_pending(mut self, pending: Pending) -> Result<Reader, Wrong>
        ensures { Reads result (Ok (opening self (opened_by pending))) }
    {
        match pending {
            Pending::Block(Gathering { left: 0, items }) => {
                self.with_call(Call::Block { accesses: items })
            }
            Pending::Round(conditions, Gathering { left: 0, items }) => {
                self.with_call(Call::Round {
                    conditions,
                    readings: items,
                })
            }
            pending => {
                self.pending = pending;
                Ok(self)
            }
        }
    }

    // A command between calls; the module comes first.
    fn with_command(mut self, heap: Global, command: Command) -> Result<Reader, Wrong>
        ensures { Reads result (begun self.setup self command) }
    {
        match (self.setup, command) {
            (None, Command::Module(first)) => {
                self.setup = Some(first);
                self.pending = Pending::Nothing;
                Ok(self)
            }
            (None, _) => Err(Wrong::NoModule),
            (Some(_), Command::Module(_)) => Err(Wrong::SecondModule),
            (Some(_), Command::Access(access)) => self.with_call(Call::from(access)),
            (Some(_), Command::Block { accesses }) => {
                self.with_pending(Pending::Block(Gathering::new(heap, accesses)))
            }
            (
                Some(_),
                Command::Round {
                    conditions,
                    readings,
                },
            ) => self.with_pending(Pending::Round(conditions, Gathering::new(heap, readings))),
        }
    }

    // One more line, by its words.
    pub(crate) fn take(mut self, heap: Global, words: &[&str]) -> Result<Reader, Wrong>
        ensures { Reads result (taken self words.now) }
    {
        match mem::replace(&mut self.pending, Pending::Nothing) {
            Pending::Nothing => self.with_command(heap, command_of(words)?),
            Pending::Block(block) => {
                let block = block.with(block_access(words)?)?;
                self.with_pending(Pending::Block(block))
            }
            Pending::Round(conditions, readings) => {
                let readings = readings.with(round_reading(words)?)?;
                self.with_pending(Pending::Round(conditions, readings))
            }
        }
    }

    // The script, if it may end here.
    pub(crate) fn finish(self) -> Result<Script, Wrong>
        ensures { whole_by result ≡ ended self }
    {
        let Reader {
            setup,
            calls,
            pending,
        } = self;
        match pending {
            Pending::Nothing => {
                let setup = setup.ok_or(Wrong::NoModule)?;
                Ok(Script { setup, calls })
            }
            Pending::Block(_) => Err(Wrong::EndInBlock),
            Pending::Round(..) => Err(Wrong::EndInRound),
        }
    }
}
