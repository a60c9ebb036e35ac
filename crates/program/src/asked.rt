//! What words ask for.
ghost use Rattle.std.specs.Prelude.{◌≤◌};

use memory_map::Port;
use model::Profile;

/// What the words of the program ask for.
#[derive(Clone, Copy, Debug, PartialEq, Eq)]
pub enum Words<'a> {
    /// `asm SOURCE TAPE`: assembles a source and writes its tape.
    Asm(AsmWords<'a>),
    /// `dis TAPE LO HI`: lists what a tape has between two addresses.
    Dis(DisWords<'a>),
    /// `debug FILE`: debugs a source or a tape.
    Debug(DebugWords<'a>),
}

/// What `asm SOURCE TAPE [--listing FILE] [--port HHHH] [--profile N|C]` asks for.
///
/// No two of the files have the same name.
#[derive(Clone, Copy, Debug, PartialEq, Eq)]
pub struct AsmWords<'a> {
    /// The file to read.
    pub source: &'a str,
    /// The file to write the tape to.
    pub tape: &'a str,
    /// The file to write the listing to, if one is asked for.
    pub listing: Option<&'a str>,
    /// The first of the port's four addresses, or no port.
    pub port: Port,
    /// The processor whose instructions the source is written in.
    pub profile: Profile,
}

/// What `dis TAPE LO HI [--profile N|C]` asks for.
#[derive(Clone, Copy, Debug, PartialEq, Eq)]
pub struct DisWords<'a> {
    /// The file to read.
    pub tape: &'a str,
    /// The first address to list, at most the last one.
    pub first: u16,
    /// The address after which no row begins.
    pub last: u16,
    /// The processor whose instructions are listed.
    pub profile: Profile,
}

/// What `debug FILE` asks for, with its options.
///
/// They are `[--tape] [--history N] [--port HHHH] [--rom LO-HI] [--profile N|C]`.
#[derive(Clone, Copy, Debug, PartialEq, Eq)]
pub struct DebugWords<'a> {
    /// The file to read.
    pub file: &'a str,
    /// Whether the file is a tape and not a source.
    pub is_tape: bool,
    /// How many events the session holds.
    pub history: u32,
    /// The first of the port's four addresses, or no port.
    pub port: Port,
    /// The first and the last address of the ROM, if there is one.
    pub rom: Option<(u16, u16)>,
    /// The processor of the machine.
    pub profile: Profile,
    ghost history_held: { history ≤ 65536 },
}
