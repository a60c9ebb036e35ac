//! How far the stack pointers have gone up, and what is known of it.

ghost use Rattle.std.specs.Prelude.{◌≡◌, IsTrue, ◌↔◌};
ghost use Rattle.c_frames.specs.Rises.{IsBelow, joined, no_rise, risen, same, summed};

/// How far the software stack pointer and the stack pointer have gone up: what goes down has gone
/// up by so much less than 65,536 or 256.
#[derive(Clone, Copy)]
pub struct Rise {
    pub sp: u16,
    pub s: u8,
}

/// What is known of a rise: nothing, one rise, or two that differ.
#[derive(Clone, Copy)]
pub enum Depth {
    Unknown,
    Known(Rise),
    Differing,
}

/// Returns the rise of what changes nothing.
pub fn no_rise() -> Rise
    ensures { result ≡ no_rise }
{
    Rise { sp: 0, s: 0 }
}

/// Returns one rise and then another.
pub fn risen(first: Rise, second: Rise) -> Rise
    ensures { result ≡ risen first second }
{
    Rise {
        sp: ((first.sp as u32 + second.sp as u32) % 65536) as u16,
        s: ((first.s as u16 + second.s as u16) % 256) as u8,
    }
}

/// Returns whether two rises are the same.
pub fn same(first: Rise, second: Rise) -> bool
    ensures { result ≡ same first second }
{
    first.sp == second.sp && first.s == second.s
}

/// Returns what is known of one rise and then another.
pub fn summed(first: Depth, second: Depth) -> Depth
    ensures { result ≡ summed first second }
{
    match first {
        Depth::Unknown => Depth::Unknown,
        Depth::Known(rise) => match second {
            Depth::Unknown => Depth::Unknown,
            Depth::Known(further) => Depth::Known(risen(rise, further)),
            Depth::Differing => Depth::Differing,
        },
        Depth::Differing => match second {
            Depth::Unknown => Depth::Unknown,
            Depth::Known(_) | Depth::Differing => Depth::Differing,
        },
    }
}

/// Returns what is known where two ways come together.
pub fn joined(first: Depth, second: Depth) -> Depth
    ensures { result ≡ joined first second }
{
    match first {
        Depth::Unknown => second,
        Depth::Known(rise) => match second {
            Depth::Unknown => first,
            Depth::Known(other) => {
                if same(rise, other) {
                    first
                } else {
                    Depth::Differing
                }
            }
            Depth::Differing => Depth::Differing,
        },
        Depth::Differing => Depth::Differing,
    }
}
