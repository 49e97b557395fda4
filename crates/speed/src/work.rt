// What is timed: reads, writes, rounds and blocks of a module.
ghost use Rattle.std.specs.Prelude.{◌≤◌};

use crate::checksum::Checksum;
use module::{Access, Kind, Module};
use stage::Stage;
use std::alloc::{AllocError, Global};
use std::array;
use table::{Amounts, Conditions, Reading};

const READ_TURNS: u32 = 4_000;

const WRITE_TURNS: u32 = 50_000;

const RAMP_ROUNDS: u32 = 30_000;

const BLOCK_TURNS: u32 = 25_000;

const GROUP_VOLTAGE: u16 = 0x2A0;

const RAMP_SPEED: u16 = 0x14;

const GROUP_SWITCH: u16 = 0x2B4;

// The offsets of all words that the module answers.
pub(crate) fn placed_offsets<S: Stage>(
    heap: Global,
    module: &Module<S>,
) -> Result<Vec<u16>, AllocError> {
    (0..=0x3FE)
        .step_by(2)
        .filter(|offset| module.read(*offset).is_ok())
        .collect(heap)
}

// Those with `_all` in their names answer how many calls they made.

pub(crate) fn read_all<S: Stage>(module: &Module<S>, offsets: &[u16], sum: &mut Checksum) -> usize {
    for _ in 0..READ_TURNS {
        for offset in offsets {
            sum.add_answer(module.read(*offset).map(u32::from));
        }
    }
    offsets.len().saturating_mul(READ_TURNS as usize)
}

// Where the block of a channel begins.
fn channel_begins(channel: u16) -> u16
    ensures { result ≤ 0x270 }
{
    0x60 + 0x30 * (channel % 12)
}

// From 512 to 1,023 volts.
fn upper_half(turn: u32) -> u16 {
    0x4400 + (turn % 128) as u16
}

fn lower_half(turn: u32) -> u16 {
    (turn.wrapping_mul(40_503) % 65_536) as u16
}

fn write_halves<S: Stage>(
    module: &mut Module<S>,
    offset: u16,
    upper: u16,
    lower: u16,
    sum: &mut Checksum,
) {
    for (offset, word) in [(offset, upper), (offset.wrapping_add(2), lower)] {
        sum.add_answer(module.write(offset, word).map(|()| 1));
    }
}

// Both halves of VoltageSet of each channel in turn.
pub(crate) fn write_all<S: Stage>(module: &mut Module<S>, sum: &mut Checksum) -> usize {
    for turn in 0..WRITE_TURNS {
        // Channels are numbers here: their offsets are worked out from them.
        for channel in 0..12u16 {
            write_halves(
                module,
                channel_begins(channel) + 0x08,
                upper_half(turn),
                lower_half(turn),
                sum,
            );
        }
    }
    WRITE_TURNS as usize * 24
}

fn conditions() -> Conditions {
    Conditions {
        temperature: 25.0,
        supply_good: true,
        loop_closed: true,
        maxima: Amounts {
            voltage: 100.0,
            current: 100.0,
        },
    }
}

fn readings() -> [Reading; 12] {
    array::from_fn(|channel| Reading {
        voltage: 500.0 + channel as f32,
        current: 0.001,
        inhibit_low: false,
    })
}

fn rounds<S: Stage>(module: &mut Module<S>, turns: u32, sum: &mut Checksum) {
    let conditions = conditions();
    let readings = readings();
    for _ in 0..turns {
        sum.add_answer(module.round(&conditions, &readings).map(|()| 1));
    }
}

// Every channel on, at the least ramp speed, and on its way up.
pub(crate) fn start<S: Stage>(module: &mut Module<S>, sum: &mut Checksum) {
    write_halves(module, RAMP_SPEED, 0x3D23, 0xD70A, sum);
    write_halves(module, GROUP_SWITCH, 0, 1, sum);
    write_halves(module, GROUP_VOLTAGE, 0x44FA, 0, sum);
    rounds(module, 1_000, sum);
}

// Up towards 2,000 V and down towards 0 V; neither is reached.
pub(crate) fn ramp_all<S: Stage>(module: &mut Module<S>, sum: &mut Checksum) -> usize {
    write_halves(module, GROUP_VOLTAGE, 0x44FA, 0, sum);
    rounds(module, RAMP_ROUNDS, sum);
    write_halves(module, GROUP_VOLTAGE, 0, 0, sum);
    rounds(module, RAMP_ROUNDS, sum);
    2 * RAMP_ROUNDS as usize
}

fn access_of(kind: Kind, offset: u16) -> Access {
    Access {
        kind,
        offset,
        word: 0,
    }
}

// VoltageSet is written and read back; then the status, the events and VoltageMeasure are read.
fn block_of(channel: u16) -> [Access; 8] {
    let begins = channel_begins(channel);
    [
        access_of(Kind::Write, begins + 0x08),
        access_of(Kind::Write, begins + 0x0A),
        access_of(Kind::Read, begins + 0x08),
        access_of(Kind::Read, begins + 0x0A),
        access_of(Kind::Read, begins),
        access_of(Kind::Read, begins + 0x04),
        access_of(Kind::Read, begins + 0x10),
        access_of(Kind::Read, begins + 0x12),
    ]
}

fn blocks<S: Stage>(module: &mut Module<S>, list: &mut [Access; 8], sum: &mut Checksum) {
    for turn in 0..BLOCK_TURNS {
        list[0].word = upper_half(turn);
        list[1].word = lower_half(turn);
        let done = module.block(list).map(|_| 8);
        sum.add_answer(done.map_err(|refused| refused.fault));
        for access in list.iter() {
            sum.add(u32::from(access.word));
        }
    }
}

pub(crate) fn block_all<S: Stage>(module: &mut Module<S>, sum: &mut Checksum) -> usize {
    // Channels are numbers here, as above.
    for channel in 0..12 {
        blocks(module, &mut block_of(channel), sum);
    }
    BLOCK_TURNS as usize * 12
}

pub(crate) fn add_levels<S: Stage>(module: &Module<S>, sum: &mut Checksum) {
    for level in module.levels().steps.iter() {
        sum.add(*level);
    }
}
