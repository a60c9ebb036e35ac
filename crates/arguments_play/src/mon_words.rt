//! What the words of `mon` ask for.

ghost use Rattle.std.specs.Prelude.{◌≤◌};

use arguments::{FileWords, OtherFiles};

/// What the words of `mon` ask for.
#[derive(Clone, Copy, Debug, PartialEq, Eq)]
pub struct MonWords<'a> {
    /// The file to load, and its map.
    pub file: FileWords<'a>,
    /// More files of the same machine.
    pub others: OtherFiles<'a>,
    /// How many events can be undone.
    pub history: u32,
    /// A file of names, if one is named.
    pub symbols: Option<&'a str>,
    /// A file of debug information, if one is named.
    pub debug_info: Option<&'a str>,
    /// Where relative names of its sources begin, if that is given.
    pub source_root: Option<&'a str>,
    /// Whether a prompt is asked for.
    pub prompts: bool,
    /// Whether a screen is asked for.
    pub has_screen: bool,
    /// The columns and rows of the screen, if they are given.
    pub size: Option<(u8, u8)>,

    ghost history_held: { history ≤ 1048576 },
}
