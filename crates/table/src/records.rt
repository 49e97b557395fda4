// The records of the table.
ghost use Rattle.std.specs.Prelude.{◌≡◌};
ghost use Rattle.table.specs.New.{new_channel, new_table};

use values::Model;

// One for the voltage and one for the current.
#[derive(Clone, Copy, Debug, Default, PartialEq, Eq)]
pub struct Both<T> {
    pub voltage: T,
    pub current: T,
}

// In volts and in amperes; as maxima, both in per cent of the nominal value.
pub type Amounts = Both<f32>;

pub type Flags = Both<bool>;

// What the latest round found of a channel.
#[derive(Clone, Copy, Debug, Default, PartialEq, Eq)]
pub struct Findings {
    // above the limit: isVLIM and isCLIM
    pub over: Flags,
    // the inhibit line is low: isEINH
    pub inhibited: bool,
    // too far from the set value: isVBND and isCBND
    pub outside: Flags,
    // what the channel regulates: isCV and isCC
    pub control: Flags,
}

#[derive(Clone, Copy, Debug, PartialEq)]
pub struct Channel {
    pub findings: Findings,
    // a kill is stored: isTRIP
    pub kill: bool,
    // isEMCY
    pub emergency: bool,
    // isRAMP
    pub ramping: bool,
    // isON
    pub on: bool,
    // isIERR
    pub error: bool,
    // ChannelEventStatus and ChannelEventMask
    pub events: u16,
    pub mask: u16,
    // VoltageSet and CurrentSet
    pub setpoint: Amounts,
    pub bounds: Amounts,
    pub measured: Amounts,
}

// The upper half of a value, and the offset of the lower half that completes it.
#[derive(Clone, Copy, Debug, PartialEq, Eq)]
pub struct Half {
    pub awaited: u16,
    pub word: u16,
}

// The surroundings of a module, as a round brings them.
#[derive(Clone, Copy, Debug, PartialEq)]
pub struct Conditions {
    // degrees Celsius
    pub temperature: f32,
    pub supply_good: bool,
    pub loop_closed: bool,
    // VoltageMax and CurrentMax
    pub maxima: Amounts,
}

// The last accepted value of each fixed group.
#[derive(Clone, Copy, Debug, Default, PartialEq)]
pub struct Groups {
    pub setpoint: Amounts,
    pub bounds: Amounts,
    pub emergency: u32,
    pub on_off: u32,
}

#[derive(Clone, Copy, Debug, PartialEq)]
pub struct Table {
    pub model: Model,
    // always twelve, in fixed memory; how many are placed is asked from the stage at each call
    pub channels: [Channel; 12],
    pub held: Option<Half>,
    pub kill_enable: bool,
    // ModuleEventStatus and ModuleEventMask
    pub events: u16,
    pub mask: u16,
    // EventChannelStatus and EventChannelMask
    pub channel_events: u16,
    pub channel_mask: u16,
    // VoltageRampSpeed, per cent of the nominal voltage a second
    pub speed: f32,
    pub conditions: Conditions,
    pub groups: Groups,
}

impl Channel {
    pub fn new(model: Model) -> Channel
        ensures { result ≡ new_channel model }
    {
        Channel {
            findings: Findings::default(),
            kill: false,
            emergency: false,
            ramping: false,
            on: false,
            error: false,
            events: 0,
            mask: 0,
            setpoint: Amounts {
                voltage: 0.0,
                current: model.nominal_current(),
            },
            bounds: Amounts::default(),
            measured: Amounts::default(),
        }
    }
}

impl Table {
    pub fn new(model: Model) -> Table
        ensures { result ≡ new_table model }
    {
        Table {
            model,
            channels: [Channel::new(model); 12],
            held: None,
            kill_enable: false,
            events: 0,
            mask: 0,
            channel_events: 0,
            channel_mask: 0,
            speed: 1.0,
            conditions: Conditions {
                temperature: 0.0,
                supply_good: true,
                loop_closed: true,
                maxima: Amounts::default(),
            },
            groups: Groups::default(),
        }
    }
}
