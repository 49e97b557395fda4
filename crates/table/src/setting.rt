// The values that writes set, for one channel or for all.
ghost use Rattle.std.specs.Prelude.{◌≡◌};
ghost use Rattle.table.specs.Carrying.{admitted};
ghost use Rattle.table.specs.Orders.{quantity_set};
ghost use Rattle.table.specs.Changes.{with_set_value, with_set_bound};

use crate::records::Amounts;
use values::{Model, current_admitted, voltage_admitted};

// In volts or in amperes.
#[derive(Clone, Copy, Debug, PartialEq)]
pub enum Setting {
    Voltage(f32),
    Current(f32),
    VoltageBounds(f32),
    CurrentBounds(f32),
}

impl Setting {
    pub(crate) fn admitted(self, model: Model) -> bool
        ensures { result ≡ admitted model (quantity_set self) }
    {
        match self {
            Setting::Voltage(volts) | Setting::VoltageBounds(volts) => {
                voltage_admitted(volts, model)
            }
            Setting::Current(amperes) | Setting::CurrentBounds(amperes) => {
                current_admitted(amperes, model)
            }
        }
    }

    // It is stored among the set values or among the bounds.
    pub(crate) fn store(self, setpoint: &mut Amounts, bounds: &mut Amounts)
        ensures values { setpoint.new ≡ with_set_value setpoint.old self }
        ensures bounds { bounds.new ≡ with_set_bound bounds.old self }
    {
        match self {
            Setting::Voltage(volts) => setpoint.voltage = volts,
            Setting::Current(amperes) => setpoint.current = amperes,
            Setting::VoltageBounds(volts) => bounds.voltage = volts,
            Setting::CurrentBounds(amperes) => bounds.current = amperes,
        }
    }
}
