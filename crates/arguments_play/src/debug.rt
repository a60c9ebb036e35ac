//! The debug information that words ask for.

ghost use Rattle.std.specs.Prelude.{◌≡◌, option_map};
ghost use Rattle.arguments.specs.Asked.{file_view};
ghost use Rattle.arguments_play.specs.Debug.{debug_asked};

use arguments::{FileForm, FileWords};

/// What is said where debug information is given for a source.
pub const DEBUG_TAKES: &str =
    "--debug-info is for an image, of raw bytes as FILE@HHHH; a source has its own lines";

/// What help says of `--debug-info`.
pub const DEBUG_HELP: &str = "What another tool says of an image's lines: a debug file of ld65";

/// What help says of `--source-root`.
pub const ROOT_HELP: &str = "Where relative names of its sources begin [default: its own folder]";

/// Returns the file of debug information that is named, if one is; `None` if one is for a source.
pub fn debug_asked<'a>(file: &FileWords<'_>, debug: Option<&'a str>) -> Option<Option<&'a str>>
    ensures { option_map (option_map (λ s. s.now)) result
        ≡ debug_asked (file_view file.now).form (option_map (λ s. s.now) debug.entry) }
{
    match (file.form, debug) {
        (FileForm::Source, Some(_)) => None,
        _ => Some(debug),
    }
}
