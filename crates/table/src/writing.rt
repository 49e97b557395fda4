// A write: the halves, the order that it completes, and the events collected after it.
ghost use Rattle.std.specs.Prelude.{◌≡◌, ◌≤◌, length, IfOk};
ghost use Rattle.std.specs.List.{list_any};
ghost use Rattle.table.specs.Changes.{event_passes};
ghost use Rattle.table.specs.Carrying.{DrivePlaced};
ghost use Rattle.table.specs.Writes.{passing, collected, carries, request_at, requested, served, served_answer, written_table, written_answer};

use crate::carrying::Drive;
use crate::channel::bit;
use crate::order::{Order, value_order, word_order};
use crate::records::{Channel, Half, Table};
use registers::{ModuleFault, Place, locate};
use values::Words;

// What a write asks for: that an upper half is held, or that an order is carried out.
#[derive(Clone, Copy, Debug, PartialEq)]
pub enum Request {
    Hold(Half),
    Carry(Order),
}

// Bit k: channel k has an event that passes its mask.
fn passing_word(channels: &[Channel]) -> u16
    requires { length channels.now ≤ 12 }
    ensures { result ≡ passing channels.now }
{
    let mut word: u16 = 0;
    for (k, channel) in channels.iter().enumerate() {
        word += bit(channel.event_passes(), 1 << k);
    }
    word
}

// Whether any has an event that passes its mask.
fn any_passes(channels: &[Channel]) -> bool
    ensures { result ≡ list_any event_passes channels.now }
{
    channels.iter().any(|channel| channel.event_passes())
}

// A register without an order is read only.
fn carry(order: Option<Order>, offset: u16) -> Result<Request, ModuleFault>
    ensures { result ≡ carries offset order }
{
    order
        .map(Request::Carry)
        .ok_or(ModuleFault::ReadOnly { offset })
}

// What a word written at a writable place asks for, with the half held.
fn request_at(
    held: Option<Half>,
    place: Place,
    offset: u16,
    word: u16,
) -> Result<Request, ModuleFault>
    requires { offset ≤ 0x3FE }
    ensures { result ≡ request_at held place offset word }
{
    match (held, place) {
        (_, Place::Word(register)) => carry(word_order(register, word), offset),
        (_, Place::Upper(_)) => Ok(Request::Hold(Half {
            awaited: offset + 2,
            word,
        })),
        (Some(half), Place::Lower(register)) if half.awaited == offset => {
            let words = Words {
                upper: half.word,
                lower: word,
            };
            carry(value_order(register, words), offset)
        }
        (_, Place::Lower(_)) => Err(ModuleFault::UpperNotHeld { offset }),
    }
}

impl Table {
    // EventChannelStatus gains the bits of the channels that have an event that passes its mask.
    pub fn collect(&mut self, count: usize)
        ensures { self.new ≡ collected count self.old }
    {
        if any_passes(&self.channels) {
            self.channel_events |= passing_word(self.placed(count));
        }
    }

    // Offset, word and count make no value of their own: a record of them would only be taken apart again.
    fn request(&self, offset: u16, word: u16, count: usize) -> Result<Request, ModuleFault>
        ensures { result ≡ requested count self.now offset word }
    {
        let place = locate(offset, count)?;
        if !place.writable() {
            return Err(ModuleFault::ReadOnly { offset });
        }
        request_at(self.held, place, offset, word)
    }

    fn serve(&mut self, offset: u16, word: u16, count: usize) -> Result<Drive, ModuleFault>
        ensures state { self.new ≡ served count self.old (requested count self.old offset word) }
        ensures answer { result ≡ served_answer count self.old offset (requested count self.old offset word) }
    {
        let request = self.request(offset, word, count);
        self.held = None;
        match request? {
            Request::Hold(half) => {
                self.held = Some(half);
                Ok(Drive::Nothing)
            }
            Request::Carry(order) => self.carry_out(order, offset, count),
        }
    }

    // A word written at an offset of a module with `count` channels; the answer names the levels to drive to 0.
    pub fn write(&mut self, offset: u16, word: u16, count: usize) -> Result<Drive, ModuleFault>
        ensures state { self.new ≡ written_table count self.old offset word }
        ensures answer { result ≡ written_answer count self.old offset word }
        ensures placed { IfOk result (DrivePlaced count) }
    {
        let answer = self.serve(offset, word, count);
        self.collect(count);
        answer
    }
}
