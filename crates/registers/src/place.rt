// What stands at an offset: a register of one word, or the upper or the lower half of a value.
ghost use Rattle.std.specs.Prelude.{◌≡◌};
ghost use Rattle.registers.specs.Rights as Rights;

#[derive(Clone, Copy, PartialEq, Eq, Debug)]
pub enum ModuleWord {
    Status,
    Control,
    EventStatus,
    EventMask,
    EventChannelStatus,
    EventChannelMask,
    PlacedChannels,
    DeviceClass,
}

#[derive(Clone, Copy, PartialEq, Eq, Debug)]
pub enum ModuleValue {
    VoltageRampSpeed,
    VoltageMax,
    CurrentMax,
    Temperature,
}

#[derive(Clone, Copy, PartialEq, Eq, Debug)]
pub enum ChannelWord {
    Status,
    Control,
    EventStatus,
    EventMask,
}

#[derive(Clone, Copy, PartialEq, Eq, Debug)]
pub enum ChannelValue {
    VoltageSet,
    CurrentSet,
    VoltageMeasure,
    CurrentMeasure,
    VoltageBounds,
    CurrentBounds,
    VoltageNominal,
    CurrentNominal,
}

// A fixed group: one register for all channels.
#[derive(Clone, Copy, PartialEq, Eq, Debug)]
pub enum GroupValue {
    Voltage,
    Current,
    VoltageBounds,
    CurrentBounds,
    Emergency,
    OnOff,
}

// A register of one word.
#[derive(Clone, Copy, PartialEq, Eq, Debug)]
pub enum WordRegister {
    Module(ModuleWord),
    Channel { channel: usize, word: ChannelWord },
}

// A register of two words, the upper half first.
#[derive(Clone, Copy, PartialEq, Eq, Debug)]
pub enum ValueRegister {
    Module(ModuleValue),
    Channel { channel: usize, value: ChannelValue },
    Group(GroupValue),
}

#[derive(Clone, Copy, PartialEq, Eq, Debug)]
pub enum Place {
    Word(WordRegister),
    Upper(ValueRegister),
    Lower(ValueRegister),
}

impl Place {
    pub fn writable(self) -> bool
        ensures { result ≡ Rights.writable self }
    {
        match self {
            Place::Word(register) => register.writable(),
            Place::Upper(register) | Place::Lower(register) => register.writable(),
        }
    }
}

impl WordRegister {
    fn writable(self) -> bool
        ensures { result ≡ Rights.word_writable self }
    {
        match self {
            WordRegister::Module(word) => word.writable(),
            WordRegister::Channel { channel: _, word } => !matches!(word, ChannelWord::Status),
        }
    }
}

impl ValueRegister {
    fn writable(self) -> bool
        ensures { result ≡ Rights.value_writable self }
    {
        match self {
            ValueRegister::Module(value) => matches!(value, ModuleValue::VoltageRampSpeed),
            ValueRegister::Channel { channel: _, value } => value.writable(),
            ValueRegister::Group(_) => true,
        }
    }
}

impl ModuleWord {
    fn writable(self) -> bool
        ensures { result ≡ Rights.module_word_writable self }
    {
        !matches!(
            self,
            ModuleWord::Status | ModuleWord::PlacedChannels | ModuleWord::DeviceClass
        )
    }
}

impl ChannelValue {
    fn writable(self) -> bool
        ensures { result ≡ Rights.channel_value_writable self }
    {
        matches!(
            self,
            ChannelValue::VoltageSet
                | ChannelValue::CurrentSet
                | ChannelValue::VoltageBounds
                | ChannelValue::CurrentBounds
        )
    }
}
