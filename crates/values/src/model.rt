ghost use Rattle.std.specs.Prelude.{◌≡◌};
ghost use Rattle.values.specs.Model.{nominal_volts, nominal_milliamperes, nominal_voltage, nominal_current, FromVolts, nearest};

use std::error::Error;
use std::fmt;

// A model is named after its nominal voltage.
#[derive(Clone, Copy, PartialEq, Eq, Hash, Debug)]
pub enum Model {
    V500,
    V1000,
    V2000,
    V3000,
    V4000,
    V6000,
}

// Volts that no model is named after.
#[derive(Clone, Copy, PartialEq, Eq, Hash, Debug)]
pub struct UnknownModel {
    pub volts: u32,
}

impl TryFrom<u32> for Model {
    type Error = UnknownModel;

    ghost try_from_gives = { FromVolts };

    fn try_from(volts: u32) -> Result<Model, UnknownModel> {
        match volts {
            500 => Ok(Model::V500),
            1000 => Ok(Model::V1000),
            2000 => Ok(Model::V2000),
            3000 => Ok(Model::V3000),
            4000 => Ok(Model::V4000),
            6000 => Ok(Model::V6000),
            _ => Err(UnknownModel { volts }),
        }
    }
}

impl fmt::Display for UnknownModel {
    ghost use Rattle.std.specs.Prelude.{Some};
    ghost use Rattle.values.specs.Model.{unknown_text};

    ghost output = { λ unknown. Some (unknown_text unknown.volts) };

    fn fmt<W: fmt::Write>(&self, f: &mut fmt::Formatter<W>) -> fmt::Result {
        write!(f, "no model of {} V", self.volts)
    }
}

impl Error for UnknownModel {}

// One function of model and quantity would be a match of both tables, of which only the currents are divided: no plainer.
impl Model {
    pub fn volts(self) -> u32
        ensures { result ≡ nominal_volts self }
    {
        match self {
            Model::V500 => 500,
            Model::V1000 => 1000,
            Model::V2000 => 2000,
            Model::V3000 => 3000,
            Model::V4000 => 4000,
            Model::V6000 => 6000,
        }
    }

    pub fn nominal_voltage(self) -> f32
        ensures value { result ≡ nominal_voltage self }
        ensures nearest { result ≡ nearest (nominal_volts self) 1 }
    {
        self.volts() as f32
    }

    // In amperes.
    pub fn nominal_current(self) -> f32
        ensures value { result ≡ nominal_current self }
        ensures nearest { result ≡ nearest (nominal_milliamperes self) 1000 }
    {
        self.milliamperes() as f32 / 1000.0
    }

    fn milliamperes(self) -> u32
        ensures { result ≡ nominal_milliamperes self }
    {
        match self {
            Model::V500 => 15,
            Model::V1000 => 8,
            Model::V2000 => 4,
            Model::V3000 => 3,
            Model::V4000 => 2,
            Model::V6000 => 1,
        }
    }
}
