// What the module's registers read.
ghost use Rattle.std.specs.Prelude.{◌≡◌};
ghost use Rattle.registers.specs.Map.{WordPlaced, ValuePlaced};
ghost use Rattle.table.specs.Reads.{placed, temperature_good, all_good, event_active, quiet, still, module_status, placed_channels, module_word, module_bits, group_bits, word_read, bits_read, read_answer};

use crate::channel::{bit, passes};
use crate::records::{Channel, Conditions, Groups, Table};
use registers::{
    GroupValue, ModuleFault, ModuleValue, ModuleWord, Place, ValueRegister, WordRegister, locate,
};
use std::num::f32_to_bits_with_nan;
use values::{Words, at_most};

// A bit for each of the first `count` channels, 12 at most.
pub(crate) fn placed_channels(count: usize) -> u16
    ensures { result ≡ placed_channels count }
{
    (1 << count.min(12)) - 1
}

impl Conditions {
    pub fn temperature_good(&self) -> bool
        ensures { result ≡ temperature_good self.now }
    {
        at_most(self.temperature, 55.0)
    }

    fn all_good(&self, quiet: bool) -> bool
        ensures { result ≡ all_good self.now quiet }
    {
        self.temperature_good() && self.supply_good && self.loop_closed && quiet
    }
}

impl Groups {
    pub fn bits(&self, value: GroupValue) -> u32
        ensures { result ≡ group_bits self.now value }
    {
        match value {
            GroupValue::Voltage => f32_to_bits_with_nan(self.setpoint.voltage),
            GroupValue::Current => f32_to_bits_with_nan(self.setpoint.current),
            GroupValue::VoltageBounds => f32_to_bits_with_nan(self.bounds.voltage),
            GroupValue::CurrentBounds => f32_to_bits_with_nan(self.bounds.current),
            GroupValue::Emergency => self.emergency,
            GroupValue::OnOff => self.on_off,
        }
    }
}

// The stage alone knows how many channels are placed, so each call that needs the count brings it.
impl Table {
    // The records of the first `count` channels, 12 at most.
    pub(crate) fn placed(&self, count: usize) -> &[Channel]
        ensures { result.now ≡ placed count self.now }
    {
        &self.channels[..count.min(12)]
    }

    fn event_active(&self) -> bool
        ensures { result ≡ event_active self.now }
    {
        passes(self.events, self.mask) || passes(self.channel_events, self.channel_mask)
    }

    fn quiet(&self, count: usize) -> bool
        ensures { result ≡ quiet count self.now }
    {
        !self.placed(count).iter().any(|channel| channel.alarmed())
    }

    fn still(&self, count: usize) -> bool
        ensures { result ≡ still count self.now }
    {
        !self.placed(count).iter().any(|channel| channel.ramping)
    }

    // ModuleStatus of a module with `count` channels, worked out from the rest of the table.
    pub fn status(&self, count: usize) -> u16
        ensures { result ≡ module_status count self.now }
    {
        let conditions = self.conditions;
        let quiet = self.quiet(count);
        bit(self.kill_enable, 0x8000)
            + bit(conditions.temperature_good(), 0x4000)
            + bit(conditions.supply_good, 0x2000)
            + bit(conditions.all_good(quiet), 0x1000)
            + bit(self.event_active(), 0x0800)
            + bit(conditions.loop_closed, 0x0400)
            + bit(self.still(count), 0x0200)
            + bit(quiet, 0x0100)
    }

    fn module_word(&self, word: ModuleWord, count: usize) -> u16
        ensures { result ≡ module_word count self.now word }
    {
        match word {
            ModuleWord::Status => self.status(count),
            ModuleWord::Control => bit(self.kill_enable, 0x4000),
            ModuleWord::EventStatus => self.events,
            ModuleWord::EventMask => self.mask,
            ModuleWord::EventChannelStatus => self.channel_events,
            ModuleWord::EventChannelMask => self.channel_mask,
            ModuleWord::PlacedChannels => placed_channels(count),
            ModuleWord::DeviceClass => 0x0014,
        }
    }

    fn module_bits(&self, value: ModuleValue) -> u32
        ensures { result ≡ module_bits self.now value }
    {
        let amount = match value {
            ModuleValue::VoltageRampSpeed => self.speed,
            ModuleValue::VoltageMax => self.conditions.maxima.voltage,
            ModuleValue::CurrentMax => self.conditions.maxima.current,
            ModuleValue::Temperature => self.conditions.temperature,
        };
        f32_to_bits_with_nan(amount)
    }

    fn word(&self, register: WordRegister, count: usize) -> u16
        requires { WordPlaced 12 register }
        ensures { result ≡ word_read count self.now register }
    {
        match register {
            WordRegister::Module(word) => self.module_word(word, count),
            WordRegister::Channel { channel, word } => self.channels[channel].word(word),
        }
    }

    fn bits(&self, register: ValueRegister) -> u32
        requires { ValuePlaced 12 register }
        ensures { result ≡ bits_read self.now register }
    {
        match register {
            ValueRegister::Module(value) => self.module_bits(value),
            ValueRegister::Channel { channel, value } => self.channels[channel].bits(
                value, self.model,
            ),
            ValueRegister::Group(value) => self.groups.bits(value),
        }
    }

    // The word at an offset of a module with `count` channels.
    pub fn read(&self, offset: u16, count: usize) -> Result<u16, ModuleFault>
        ensures { result ≡ read_answer count self.now offset }
    {
        match locate(offset, count)? {
            Place::Word(register) => Ok(self.word(register, count)),
            Place::Upper(register) => Ok(Words::from(self.bits(register)).upper),
            Place::Lower(register) => Ok(Words::from(self.bits(register)).lower),
        }
    }
}
