// Carrying out an order.
ghost use Rattle.std.specs.Prelude.{◌≡◌};
ghost use Rattle.std.specs.List.{list_any};
ghost use Rattle.table.specs.Orders.{subject_of, quantity_of, switching_of};
ghost use Rattle.table.specs.Changes.{switch_refused};
ghost use Rattle.table.specs.Reads.{channel_of, placed};
ghost use Rattle.table.specs.Carrying.{control_change, changed_at, changed_all, module_passes, controlled, obeyed, error_noted, admitted, drive_of, blocked_switch, carried, carried_answer};

use crate::change::Change;
use crate::channel::passes;
use crate::order::Order;
use crate::reading::placed_channels;
use crate::records::Table;
use registers::ModuleFault;
use values::speed_admitted;

// Which levels an order drives to 0.
#[derive(Clone, Copy, Debug, PartialEq, Eq)]
pub enum Drive {
    Nothing,
    ToZero { channel: usize },
    AllToZero,
}

// What a ChannelControl word does: with bit 5, bit 3 is ignored.
fn control_change(word: u16) -> Change
    ensures { result ≡ control_change word }
{
    if word & 0x0020 != 0 {
        Change::EmergencyOff
    } else {
        Change::Switch {
            on: word & 0x0008 != 0,
        }
    }
}

impl Order {
    fn drive(self) -> Drive
        ensures { result ≡ drive_of (subject_of self) (switching_of self) }
    {
        match self {
            Order::ChannelControl { channel, word } if word & 0x0020 != 0 => Drive::ToZero {
                channel,
            },
            Order::GroupEmergency { .. } => Drive::AllToZero,
            _ => Drive::Nothing,
        }
    }
}

// As where words are read, each call that needs the count of channels brings it.
impl Table {
    pub(crate) fn module_passes(&self) -> bool
        ensures { result ≡ module_passes self.now }
    {
        passes(self.events, self.mask)
    }

    // One channel is changed, if it has a record.
    fn change(&mut self, channel: usize, change: Change)
        ensures { self.new ≡ changed_at self.old channel change }
    {
        if channel < self.channels.len() {
            self.channels[channel].apply(change);
        }
    }

    fn change_all(&mut self, change: Change, count: usize)
        ensures { self.new ≡ changed_all count self.old change }
    {
        let placed = &mut self.channels[..count.min(12)];
        for channel in placed.iter_mut() {
            channel.apply(change);
        }
    }

    fn control(&mut self, word: u16, count: usize)
        ensures { self.new ≡ controlled count self.old word }
    {
        if word & 0x0040 != 0 {
            self.change_all(Change::Clear, count);
            self.events = 0;
            self.channel_events = 0;
        }
        self.kill_enable = word & 0x4000 != 0;
    }

    fn admits(&self, order: Order) -> bool
        ensures { result ≡ admitted self.now.model (quantity_of order) }
    {
        match order {
            Order::RampSpeed { percent } => speed_admitted(percent),
            Order::ChannelSetting { setting, .. } | Order::GroupSetting { setting } => {
                setting.admitted(self.model)
            }
            Order::GroupSwitch { data } => data < 2,
            _ => true,
        }
    }

    // A channel without a record has no events, and is off: only a module event blocks it.
    fn refuses_switch(&self, channel: usize) -> bool
        ensures { result ≡ switch_refused (module_passes self.now) (channel_of self.now channel) }
    {
        let module_passes = self.module_passes();
        self.channels.get(channel).map_or(module_passes, |record| {
            record.refuses_switch(module_passes)
        })
    }

    fn any_refuses_switch(&self, count: usize) -> bool
        ensures { result ≡ list_any (switch_refused (module_passes self.now)) (placed count self.now) }
    {
        let module_passes = self.module_passes();
        self.placed(count)
            .iter()
            .any(|channel| channel.refuses_switch(module_passes))
    }

    // A blocked channel that is off would be switched on.
    fn blocks(&self, order: Order, count: usize) -> bool
        ensures { result ≡ blocked_switch count self.now (subject_of order) (switching_of order) }
    {
        match order {
            Order::ChannelControl { channel, word } => {
                word & 0x0020 == 0 && word & 0x0008 != 0 && self.refuses_switch(channel)
            }
            Order::GroupSwitch { data } => data == 1 && self.any_refuses_switch(count),
            _ => false,
        }
    }

    fn obey(&mut self, order: Order, count: usize)
        ensures { self.new ≡ obeyed count self.old order }
    {
        match order {
            Order::ModuleControl { word } => self.control(word, count),
            Order::ClearModuleEvents { word } => self.events &= !word,
            Order::ModuleEventMask { word } => self.mask = word & 0x6440,
            Order::ClearCollectedEvents { word } => self.channel_events &= !word,
            Order::CollectedEventMask { word } => self.channel_mask = word & placed_channels(count),
            Order::RampSpeed { percent } => self.speed = percent,
            Order::ChannelControl { channel, word } => self.change(channel, control_change(word)),
            Order::ClearChannelEvents { channel, word } => self.change(
                channel,
                Change::ClearEvents { word },
            ),
            Order::ChannelEventMask { channel, word } => self.change(
                channel,
                Change::EventMask { word },
            ),
            Order::ChannelSetting { channel, setting } => self.change(
                channel,
                Change::Set(setting),
            ),
            Order::GroupSetting { setting } => {
                self.change_all(Change::Set(setting), count);
                setting.store(&mut self.groups.setpoint, &mut self.groups.bounds);
            }
            Order::GroupEmergency { data } => {
                self.change_all(Change::EmergencyOff, count);
                self.groups.emergency = data;
            }
            Order::GroupSwitch { data } => {
                self.change_all(Change::Switch { on: data == 1 }, count);
                self.groups.on_off = data;
            }
        }
    }

    // The error bits of a value that is not admitted: its channel's, or the module's input error event.
    fn note_error(&mut self, order: Order)
        ensures { self.new ≡ error_noted self.old (subject_of order) }
    {
        match order {
            Order::ChannelControl { channel, .. }
            | Order::ClearChannelEvents { channel, .. }
            | Order::ChannelEventMask { channel, .. }
            | Order::ChannelSetting { channel, .. } => self.change(channel, Change::InputError),
            _ => self.events |= 0x0040,
        }
    }

    // An order is carried out whole or refused with the first number that fits.
    pub(crate) fn carry_out(
        &mut self,
        order: Order,
        offset: u16,
        count: usize,
    ) -> Result<Drive, ModuleFault>
        ensures state { self.new ≡ carried count self.old order }
        ensures answer { result ≡ carried_answer count self.old order offset }
    {
        if !self.admits(order) {
            self.note_error(order);
            return Err(ModuleFault::NotAdmitted { offset });
        }
        if self.blocks(order, count) {
            return Err(ModuleFault::Blocked { offset });
        }
        self.obey(order, count);
        Ok(order.drive())
    }
}
