// A module: the table of its registers over an output stage.
#![tactic(auto)]

ghost use Rattle.std.specs.Prelude.{◌≡◌, ◌<◌, ◌≤◌, length, Ok};
ghost use Rattle.module.specs.RoundLaws.{RoundLaws, EventsStay};
ghost use Rattle.module.specs.Rounds.{stepped, round_state, round_answer};
ghost use Rattle.module.specs.State.{count, new_state, word_answer, write_state, write_answer, zeros};

pub mod block;
pub mod figures;
pub mod laws;
pub mod levels;
pub mod round_laws;

pub use block::{Access, BlockFault, Kind};
pub use levels::Levels;
use registers::ModuleFault;
use stage::{Stage, StageFault};
use table::{Conditions, Drive, Pass, Reading, Table};
use values::Model;

#[derive(Drop)]
pub struct Module<S: Stage> {
    table: Table,
    stage: S,
}

// Contracts see a module as its state.
impl<S: Stage> std::marker::Model for Module<S> {
    ghost use Rattle.module.specs.State.{State};

    ghost Value = { State };

    ghost view = { λ m. record { table = m.table; levels = S.levels m.stage } };
}

impl<S: Stage> Module<S> {
    // A new module over a stage with whatever levels: every level is driven to 0.
    pub fn new(mut stage: S, model: Model) -> Module<S>
        ensures { result ≡ new_state model (length (S.levels stage)) }
    {
        let _ = drive_to_zero(&mut stage);
        Module {
            table: Table::new(model),
            stage,
        }
    }

    pub fn read(&self, offset: u16) -> Result<u16, ModuleFault>
        ensures { result ≡ word_answer self.now offset }
    {
        self.table.read(offset, self.stage.count())
    }

    // A half is held; a completed write is one order, carried out whole or refused.
    pub fn write(&mut self, offset: u16, word: u16) -> Result<(), ModuleFault>
        ensures state { self.new ≡ write_state self.old offset word }
        ensures answer { result ≡ write_answer self.old offset word }
    {
        match self.table.write(offset, word, self.stage.count())? {
            Drive::Nothing => Ok(()),
            Drive::ToZero { channel } => {
                self.stage.drive(channel, 0)?;
                Ok(())
            }
            Drive::AllToZero => {
                drive_to_zero(&mut self.stage)?;
                Ok(())
            }
        }
    }
}

impl<S: Stage> Module<S> {
    // A measuring pass over all channels, one reading for each: ten a second.
    pub fn round(
        &mut self,
        conditions: &Conditions,
        readings: &[Reading],
    ) -> Result<(), ModuleFault>
        ensures state { self.new ≡ round_state S.REGULATES self.old conditions.now readings.now }
        ensures answer { result ≡ round_answer self.old readings.now }
        ensures laws { result ≡ Ok tt → RoundLaws S.REGULATES self.old conditions.now readings.now self.new }
        ensures stays { EventsStay self.old self.new }
    {
        let count = self.stage.count();
        if readings.len() != count {
            return Err(ModuleFault::Readings {
                count: readings.len(),
            });
        }
        self.table.begin_round(conditions);
        let pass = self.table.fix_round(S::REGULATES);
        for (channel, reading) in readings.iter().enumerate() {
            self.step(channel, reading, &pass)?;
        }
        self.table.collect(count);
        Ok(())
    }

    // One channel's part of the round; its level is driven to where the round moves it.
    fn step(&mut self, channel: usize, reading: &Reading, pass: &Pass) -> Result<(), ModuleFault>
        requires channel_in_bounds { channel < count self.old }
        requires limit_steps_bound { pass.now.limit_steps ≤ 100000 }
        ensures state { self.new ≡ stepped pass.now self.old channel reading.now }
        ensures answer { result ≡ Ok tt }
    {
        let level = self.stage.level(channel)?;
        let moved = self.table.channels[channel].pass(reading, pass, level);
        self.stage.drive(channel, moved)?;
        Ok(())
    }
}

fn drive_to_zero<S: Stage>(stage: &mut S) -> Result<(), StageFault>
    ensures answer { result ≡ Ok tt }
    ensures state { S.levels stage.new ≡ zeros (S.levels stage.old) }
{
    // A stage knows its channels by number, so there is no list to go over.
    for channel in 0..stage.count() {
        stage.drive(channel, 0)?;
    }
    Ok(())
}
