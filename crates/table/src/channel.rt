// The words of one channel.
ghost use Rattle.std.specs.Prelude.{◌≡◌, ◌≤◌, cond};
ghost use Rattle.table.specs.Reads.{passes};
ghost use Rattle.table.specs.Words.{channel_status, channel_word, channel_bits, alarmed};

use crate::records::Channel;
use registers::{ChannelValue, ChannelWord};
use std::num::f32_to_bits_with_nan;
use values::Model;

// The weight of a bit that is set, else 0.
pub(crate) fn bit(set: bool, weight: u16) -> u16
    ensures value { result ≡ cond «set» weight 0 }
    ensures most { result ≤ weight }
{
    if set { weight } else { 0 }
}

// An event that its mask lets through.
pub(crate) fn passes(events: u16, mask: u16) -> bool
    ensures { result ≡ passes events mask }
{
    events & mask != 0
}

impl Channel {
    // A status bit of 15 to 10 is set.
    pub fn alarmed(&self) -> bool
        ensures { result ≡ alarmed self.now }
    {
        let found = &self.findings;
        found.over.voltage
            || found.over.current
            || self.kill
            || found.inhibited
            || found.outside.voltage
            || found.outside.current
    }

    pub fn status(&self) -> u16
        ensures { result ≡ channel_status self.now }
    {
        let found = self.findings;
        let upper = bit(found.over.voltage, 0x8000)
            + bit(found.over.current, 0x4000)
            + bit(self.kill, 0x2000)
            + bit(found.inhibited, 0x1000)
            + bit(found.outside.voltage, 0x0800)
            + bit(found.outside.current, 0x0400);
        let lower = bit(found.control.voltage, 0x0080)
            + bit(found.control.current, 0x0040)
            + bit(self.emergency, 0x0020)
            + bit(self.ramping, 0x0010)
            + bit(self.on, 0x0008)
            + bit(self.error, 0x0004);
        upper + lower
    }

    pub fn word(&self, word: ChannelWord) -> u16
        ensures { result ≡ channel_word self.now word }
    {
        match word {
            ChannelWord::Status => self.status(),
            ChannelWord::Control => bit(self.emergency, 0x0020) + bit(self.on, 0x0008),
            ChannelWord::EventStatus => self.events,
            ChannelWord::EventMask => self.mask,
        }
    }

    // The 32 bits of a value of the channel.
    pub fn bits(&self, value: ChannelValue, model: Model) -> u32
        ensures { result ≡ channel_bits model self.now value }
    {
        // The record is read first and without a branch; the nominal values are the model's instead.
        let kept = match value {
            ChannelValue::VoltageSet => self.setpoint.voltage,
            ChannelValue::CurrentSet => self.setpoint.current,
            ChannelValue::VoltageMeasure => self.measured.voltage,
            ChannelValue::CurrentMeasure => self.measured.current,
            ChannelValue::VoltageBounds => self.bounds.voltage,
            _ => self.bounds.current,
        };
        let amount = match value {
            ChannelValue::VoltageNominal => model.nominal_voltage(),
            ChannelValue::CurrentNominal => model.nominal_current(),
            _ => kept,
        };
        f32_to_bits_with_nan(amount)
    }
}
