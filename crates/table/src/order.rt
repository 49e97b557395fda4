// The orders that completed writes make.
ghost use Rattle.std.specs.Prelude.{◌≡◌};
ghost use Rattle.table.specs.Orders.{module_word_order, word_order, channel_order, group_order, value_order};

use crate::setting::Setting;
use registers::{
    ChannelValue, ChannelWord, GroupValue, ModuleValue, ModuleWord, ValueRegister, WordRegister,
};
use values::Words;

#[derive(Clone, Copy, Debug, PartialEq)]
pub enum Order {
    ModuleControl { word: u16 },
    ClearModuleEvents { word: u16 },
    ModuleEventMask { word: u16 },
    ClearCollectedEvents { word: u16 },
    CollectedEventMask { word: u16 },
    RampSpeed { percent: f32 },
    // Three cases and not one with a Change: no write clears one channel by doCLEAR or makes only an input error.
    ChannelControl { channel: usize, word: u16 },
    ClearChannelEvents { channel: usize, word: u16 },
    ChannelEventMask { channel: usize, word: u16 },
    ChannelSetting { channel: usize, setting: Setting },
    GroupSetting { setting: Setting },
    GroupEmergency { data: u32 },
    GroupSwitch { data: u32 },
}

// The order of a word written to a register of one word; none for a register that is read only.
pub(crate) fn word_order(register: WordRegister, word: u16) -> Option<Order>
    ensures { result ≡ word_order register word }
{
    match register {
        WordRegister::Module(module) => module_word_order(module, word),
        WordRegister::Channel {
            channel,
            word: register,
        } => match register {
            ChannelWord::Status => None,
            ChannelWord::Control => Some(Order::ChannelControl { channel, word }),
            ChannelWord::EventStatus => Some(Order::ClearChannelEvents { channel, word }),
            ChannelWord::EventMask => Some(Order::ChannelEventMask { channel, word }),
        },
    }
}

fn module_word_order(register: ModuleWord, word: u16) -> Option<Order>
    ensures { result ≡ module_word_order register word }
{
    match register {
        ModuleWord::Control => Some(Order::ModuleControl { word }),
        ModuleWord::EventStatus => Some(Order::ClearModuleEvents { word }),
        ModuleWord::EventMask => Some(Order::ModuleEventMask { word }),
        ModuleWord::EventChannelStatus => Some(Order::ClearCollectedEvents { word }),
        ModuleWord::EventChannelMask => Some(Order::CollectedEventMask { word }),
        ModuleWord::Status | ModuleWord::PlacedChannels | ModuleWord::DeviceClass => None,
    }
}

// The order of a value whose two halves were written; none for a value that is read only.
pub(crate) fn value_order(register: ValueRegister, words: Words) -> Option<Order>
    ensures { result ≡ value_order register words.upper words.lower }
{
    match register {
        ValueRegister::Module(ModuleValue::VoltageRampSpeed) => Some(Order::RampSpeed {
            percent: f32::from(words),
        }),
        ValueRegister::Module(_) => None,
        ValueRegister::Channel { channel, value } => channel_order(
            channel,
            value,
            f32::from(words),
        ),
        ValueRegister::Group(value) => Some(group_order(value, words)),
    }
}

fn channel_order(channel: usize, register: ChannelValue, value: f32) -> Option<Order>
    ensures { result ≡ channel_order channel register value }
{
    let setting = match register {
        ChannelValue::VoltageSet => Setting::Voltage(value),
        ChannelValue::CurrentSet => Setting::Current(value),
        ChannelValue::VoltageBounds => Setting::VoltageBounds(value),
        ChannelValue::CurrentBounds => Setting::CurrentBounds(value),
        ChannelValue::VoltageMeasure
        | ChannelValue::CurrentMeasure
        | ChannelValue::VoltageNominal
        | ChannelValue::CurrentNominal => return None,
    };
    Some(Order::ChannelSetting { channel, setting })
}

// The values of a channel and of the groups are two enums of the map, so each has its rows.
fn group_order(register: GroupValue, words: Words) -> Order
    ensures { result ≡ group_order register words.upper words.lower }
{
    let value = f32::from(words);
    let data = u32::from(words);
    let setting = match register {
        GroupValue::Voltage => Setting::Voltage(value),
        GroupValue::Current => Setting::Current(value),
        GroupValue::VoltageBounds => Setting::VoltageBounds(value),
        GroupValue::CurrentBounds => Setting::CurrentBounds(value),
        GroupValue::Emergency => return Order::GroupEmergency { data },
        GroupValue::OnOff => return Order::GroupSwitch { data },
    };
    Order::GroupSetting { setting }
}
