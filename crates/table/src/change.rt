// What an order does to one channel.
ghost use Rattle.std.specs.Prelude.{◌≡◌};
ghost use Rattle.table.specs.Changes.{changed, emergency_off, switched, event_passes, blocked, switch_refused};

use crate::channel::{bit, passes};
use crate::records::Channel;
use crate::setting::Setting;

#[derive(Clone, Copy, Debug, PartialEq)]
pub enum Change {
    Set(Setting),
    EmergencyOff,
    Switch { on: bool },
    ClearEvents { word: u16 },
    EventMask { word: u16 },
    // doCLEAR: every event and the kill
    Clear,
    // the value that was written is not admitted
    InputError,
}

impl Channel {
    pub fn apply(&mut self, change: Change)
        ensures { self.new ≡ changed self.old change }
    {
        match change {
            Change::Set(setting) => {
                setting.store(&mut self.setpoint, &mut self.bounds);
                self.error = false;
            }
            Change::EmergencyOff => self.emergency_off(),
            Change::Switch { on } => self.switch(on),
            Change::ClearEvents { word } => self.events &= !word,
            Change::EventMask { word } => self.mask = word & 0xFCFC,
            Change::Clear => {
                self.events = 0;
                self.kill = false;
            }
            Change::InputError => {
                self.error = true;
                self.events |= 0x0004;
            }
        }
    }

    fn emergency_off(&mut self)
        ensures { self.new ≡ emergency_off self.old }
    {
        self.events = self.events | 0x0020 | bit(self.on, 0x0008);
        self.emergency = true;
        self.ramping = false;
        self.on = false;
    }

    fn switch(&mut self, on: bool)
        ensures { self.new ≡ switched self.old on }
    {
        self.events |= bit(self.on && !on, 0x0008);
        self.emergency = false;
        self.on = on;
    }

    // It is off and blocked, so it cannot be switched on.
    pub fn refuses_switch(&self, module_passes: bool) -> bool
        ensures { result ≡ switch_refused module_passes self.now }
    {
        !self.on && self.blocked(module_passes)
    }

    // A kill is stored, or an event of the channel passes its mask, or a module event passes the module's.
    pub fn blocked(&self, module_passes: bool) -> bool
        ensures { result ≡ blocked module_passes self.now }
    {
        self.kill || self.event_passes() || module_passes
    }

    // An event of the channel passes its mask.
    pub fn event_passes(&self) -> bool
        ensures { result ≡ event_passes self.now }
    {
        passes(self.events, self.mask)
    }
}
