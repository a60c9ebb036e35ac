//! Which pages of memory a new checkpoint need not copy.

ghost use Rattle.std.specs.Prelude.{◌≡◌};

use bus::Stamps;

/// What is known of the checkpoints' memory. Each checkpoint has a number: those in use count up to
/// `now`, which the last one has. In each page whose stamp is below its number, a checkpoint's
/// memory is the machine's.
#[derive(Drop)]
pub struct Pages {
    pub stamps: Stamps,
    /// The stamp of a page that changes now.
    pub now: u32,
    /// The number of the last spare checkpoint, 0 where nothing is known of it.
    pub spare: u32,
}

impl Pages {
    /// Makes the record of a new session: no page has changed since the first checkpoint, and
    /// nothing is known of a spare one.
    pub fn new() -> Pages
        ensures now { result.now ≡ 1 }
        ensures spare { result.spare ≡ 0 }
    {
        Pages {
            stamps: [0; 256],
            now: 1,
            spare: 0,
        }
    }
}
