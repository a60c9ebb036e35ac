//! What routines of cc65's runtime do.

ghost use Rattle.std.specs.Prelude.{◌≡◌, ◌-◌, ◌%◌};
ghost use Rattle.c_frames.specs.Routines.{effect_at, fixed_rise, rise_by_y};

use crate::rises::Rise;

/// What a routine of the runtime does to the software stack pointer.
#[derive(Clone, Copy)]
pub enum Effect {
    /// It adds so many bytes.
    Adds(u8),
    /// It takes so many bytes off.
    Takes(u8),
    /// It takes so many bytes off. As the first instruction of a function it pushes the function's
    /// last parameter.
    Pushes(u8),
    /// It takes one byte off, and is the first instruction of a function with `...`.
    Enter,
    /// It adds what Y holds, and so many more.
    AddsY(u8),
    /// It takes off what Y holds.
    SubtractsY,
}

/// A routine of the runtime, at its address.
#[derive(Clone, Copy)]
pub struct Routine {
    pub address: u16,
    pub effect: Effect,
}

/// Returns what the routine at an address does, if one of these is there.
pub fn effect_at(routines: &[Routine], address: u16) -> Option<Effect>
    ensures { result ≡ effect_at routines.now address }
{
    for routine in routines {
        if routine.address == address {
            return Some(routine.effect);
        }
    }
    None
}

/// Returns a number taken off, as a number added.
fn taken(number: u8) -> Rise
    ensures { result ≡ record { sp = (65536 - number) % 65536; s = 0 } }
{
    Rise {
        sp: ((65536 - number as u32) % 65536) as u16,
        s: 0,
    }
}

/// Returns what an effect adds that is the same at each call.
pub fn fixed_rise(effect: Effect) -> Option<Rise>
    ensures { result ≡ fixed_rise effect }
{
    match effect {
        Effect::Adds(number) => Some(Rise {
            sp: number as u16,
            s: 0,
        }),
        Effect::Takes(number) | Effect::Pushes(number) => Some(taken(number)),
        Effect::Enter => Some(taken(1)),
        Effect::AddsY(_) | Effect::SubtractsY => None,
    }
}

/// Returns what an effect adds that goes by what Y holds.
pub fn rise_by_y(effect: Effect, y: u8) -> Option<Rise>
    ensures { result ≡ rise_by_y effect y }
{
    match effect {
        Effect::Adds(_) | Effect::Takes(_) | Effect::Pushes(_) | Effect::Enter => None,
        Effect::AddsY(more) => Some(Rise {
            sp: y as u16 + more as u16,
            s: 0,
        }),
        Effect::SubtractsY => Some(taken(y)),
    }
}
