//! The memory map and images: where the port and the ROM stand, if they are there, and which bytes
//! a memory is filled with.
//!
//! Sources, tapes and the machine take theirs from here, so that an assembler needs no machine.
//! `bus` passes both types on.
#![tactic(auto)]

pub use image::Image;
pub use map_spec::MapSpec;
pub use memory::memory_of;
pub use model::{BusFault, Profile};
pub use port::{DEFAULT_PORT, Port};

mod image;
mod map_spec;
mod memory;
mod port;
