// The register map: from an offset to what stands there.
ghost use Rattle.std.specs.Prelude.{◌≡◌, ℕ, ◌<◌, ◌≤◌, IfOk, OnOk};
ghost use Rattle.registers.specs.Offsets.{MapStands};
ghost use Rattle.registers.specs.Map.{checked, located, half_at, stands_in, module_rows, channel_rows, group_rows, place_at, Placed, SomePlaced};

use crate::fault::ModuleFault;
use crate::place::{
    ChannelValue, ChannelWord, GroupValue, ModuleValue, ModuleWord, Place, ValueRegister,
    WordRegister,
};

// Every word is at an even offset up to 3FE.
pub fn check_offset(offset: u16) -> Result<(), ModuleFault>
    ensures answer { result ≡ checked offset }
    ensures within { OnOk result (offset ≤ 0x3FE) }
{
    if offset % 2 == 1 || offset > 0x3FE {
        return Err(ModuleFault::Outside { offset });
    }
    Ok(())
}

// The place at an offset of a module with `count` channels.
pub fn locate(offset: u16, count: usize) -> Result<Place, ModuleFault>
    ensures place { result ≡ located count offset }
    ensures placed { IfOk result (Placed count) }
    ensures within { IfOk result (Placed 12) }
{
    check_offset(offset)?;
    find_place(offset, count).ok_or(ModuleFault::EmptyPlace { offset })
}

fn find_place(offset: u16, count: usize) -> Option<Place>
    requires { offset < 0x400 }
    ensures place { result ≡ place_at count offset }
    ensures placed { SomePlaced count result }
    ensures within { SomePlaced 12 result }
{
    if offset < 0x60 {
        return module_place(offset);
    }
    if offset >= 0x2A0 {
        return group_place(offset);
    }
    let inner = offset - 0x60;
    let channel = (inner / 0x30) as usize;
    if channel >= count {
        return None;
    }
    channel_place(channel, inner % 0x30)
}

// A value stands at a multiple of 4, its upper half first.
fn half_at(offset: u16, register: ValueRegister) -> Place
    ensures { result ≡ half_at offset register }
{
    if offset % 4 == 0 {
        Place::Upper(register)
    } else {
        Place::Lower(register)
    }
}

fn module_place(offset: u16) -> Option<Place>
    ensures place { result ≡ stands_in module_rows offset }
    ensures placed { (n : ℕ) → SomePlaced n result }
{
    let word = |word| Place::Word(WordRegister::Module(word));
    let half = |value| half_at(offset, ValueRegister::Module(value));
    let place = match offset {
        0x00 => word(ModuleWord::Status),
        0x02 => word(ModuleWord::Control),
        0x04 => word(ModuleWord::EventStatus),
        0x06 => word(ModuleWord::EventMask),
        0x08 => word(ModuleWord::EventChannelStatus),
        0x0A => word(ModuleWord::EventChannelMask),
        0x14 | 0x16 => half(ModuleValue::VoltageRampSpeed),
        0x1C | 0x1E => half(ModuleValue::VoltageMax),
        0x20 | 0x22 => half(ModuleValue::CurrentMax),
        0x30 | 0x32 => half(ModuleValue::Temperature),
        0x3C => word(ModuleWord::PlacedChannels),
        0x3E => word(ModuleWord::DeviceClass),
        _ => return None,
    };
    Some(place)
}

// The place at `inner` bytes from where the channel's block begins.
fn channel_place(channel: usize, inner: u16) -> Option<Place>
    ensures place { result ≡ stands_in (channel_rows channel) inner }
    ensures placed { (n : ℕ) → channel < n → SomePlaced n result }
{
    let word = |word| Place::Word(WordRegister::Channel { channel, word });
    let half = |value| half_at(inner, ValueRegister::Channel { channel, value });
    let place = match inner {
        0x00 => word(ChannelWord::Status),
        0x02 => word(ChannelWord::Control),
        0x04 => word(ChannelWord::EventStatus),
        0x06 => word(ChannelWord::EventMask),
        0x08 | 0x0A => half(ChannelValue::VoltageSet),
        0x0C | 0x0E => half(ChannelValue::CurrentSet),
        0x10 | 0x12 => half(ChannelValue::VoltageMeasure),
        0x14 | 0x16 => half(ChannelValue::CurrentMeasure),
        0x18 | 0x1A => half(ChannelValue::VoltageBounds),
        0x1C | 0x1E => half(ChannelValue::CurrentBounds),
        0x20 | 0x22 => half(ChannelValue::VoltageNominal),
        0x24 | 0x26 => half(ChannelValue::CurrentNominal),
        _ => return None,
    };
    Some(place)
}

fn group_place(offset: u16) -> Option<Place>
    ensures place { result ≡ stands_in group_rows offset }
    ensures placed { (n : ℕ) → SomePlaced n result }
{
    let half = |value| half_at(offset, ValueRegister::Group(value));
    let place = match offset {
        0x2A0 | 0x2A2 => half(GroupValue::Voltage),
        0x2A4 | 0x2A6 => half(GroupValue::Current),
        0x2A8 | 0x2AA => half(GroupValue::VoltageBounds),
        0x2AC | 0x2AE => half(GroupValue::CurrentBounds),
        0x2B0 | 0x2B2 => half(GroupValue::Emergency),
        0x2B4 | 0x2B6 => half(GroupValue::OnOff),
        _ => return None,
    };
    Some(place)
}

// Each register stands at its own offset, and there only.
#[tactic(auto, using(crate::proofs::Standing::map_stands))]
pub fn map_stands()
    ensures { MapStands }
{}
