// The registers of a module: where each stands, which may be written, and how a module refuses.
#![tactic(auto)]

pub mod fault;
pub mod map;
pub mod place;

pub use fault::ModuleFault;
pub use map::{check_offset, locate, map_stands};
pub use place::{
    ChannelValue, ChannelWord, GroupValue, ModuleValue, ModuleWord, Place, ValueRegister,
    WordRegister,
};
