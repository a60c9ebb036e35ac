//! What the words ask for.

ghost use Rattle.std.specs.Prelude.{◌≤◌};

use image_reader::Form;
use memory_map::Port;
use model::Profile;

/// What the words of `debug FILE [--image] [--bin HHHH] [--prg]` and its options ask for.
#[derive(Clone, Copy)]
pub struct DebugImageWords<'a> {
    /// The file to read.
    pub file: &'a str,
    /// Its form, if one is said.
    pub form: Option<Form>,
    /// How many events the session holds.
    pub history: u32,
    /// The first of the port's four addresses, or no port.
    pub port: Port,
    /// The first and the last address of the ROM, if there is one.
    pub rom: Option<(u16, u16)>,
    /// The processor of the machine.
    pub profile: Profile,
    ghost history_held: { history ≤ 65536 },
}
