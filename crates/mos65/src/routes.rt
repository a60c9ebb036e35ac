//! Which call serves the words of the program.

ghost use Rattle.std.specs.Prelude.{◌≡◌};
ghost use Rattle.arguments.specs.Words.{texts};
ghost use Rattle.mos65.specs.Routes.{added, asks_for_help, asks_for_image, asks_for_source};
ghost use Rattle.mos65.specs.Routes.{asks_for_following, asks_for_names, asks_for_ranges};
ghost use Rattle.mos65.specs.Routes.{asm_route, debug_route};
ghost use Rattle.mos65.specs.Routes.{dis_route, find, route_of, session_route};

use arguments::has_option;
use word_asm::asks_for_files;
use word_debug::is_strict;

/// A call that serves words.
#[derive(Clone, Copy, Debug, PartialEq, Eq)]
pub enum Route {
    /// `check`.
    Check,
    /// `info`.
    Info,
    /// `cmp`.
    Cmp,
    /// `mend`.
    Mend,
    /// `convert`.
    Convert,
    /// `test`.
    Test,
    /// `mon`.
    Mon,
    /// `run`.
    Run,
    /// `trace`.
    Trace,
    /// `page`.
    Page,
    /// `lsp`.
    Lsp,
    /// `dap`.
    Dap,
    /// `dis` with `--source`, or an option that goes with it.
    DisSource,
    /// `dis` with an image.
    DisImage,
    /// `asm` with files for other programs.
    AsmFiles,
    /// `debug` with `--strict`.
    StrictDebug,
    /// `debug` with `--strict` and an image.
    StrictImage,
    /// `debug` with an image.
    DebugImage,
    /// `asm`, `dis` and `debug` as promised.
    Program,
    /// The whole command line: help, the version, and words that are none.
    Whole,
}

/// Returns the call for a name among those that are added to the promised words.
#[tactic(auto, unfolding(crate::specs::Routes::added))]
fn added(name: &str) -> Route
    ensures { result ≡ find name.now added }
{
    match name {
        "check" => Route::Check,
        "info" => Route::Info,
        "cmp" => Route::Cmp,
        "mend" => Route::Mend,
        "convert" => Route::Convert,
        "test" => Route::Test,
        "mon" => Route::Mon,
        "run" => Route::Run,
        "trace" => Route::Trace,
        "page" => Route::Page,
        "lsp" => Route::Lsp,
        "dap" => Route::Dap,
        _ => Route::Whole,
    }
}

/// Returns whether a single word asks for help.
fn asks_for_help(words: &[&str]) -> bool
    ensures { result ≡ asks_for_help (texts words.entry.now) }
{
    match words {
        [word] => *word == "--help" || *word == "-h",
        _ => false,
    }
}

/// Returns whether an option says that a file is an image: `--image`, `--bin` or `--prg`.
fn asks_for_image(words: &[&str]) -> bool
    ensures { result ≡ asks_for_image (texts words.entry.now) }
{
    has_option("image", words) || has_option("bin", words) || has_option("prg", words)
}

/// Returns the call for the words after `asm`.
fn asm_route(rest: &[&str]) -> Route
    ensures { result ≡ asm_route (texts rest.entry.now) }
{
    if asks_for_help(rest) {
        Route::Whole
    } else if asks_for_files(rest) {
        Route::AsmFiles
    } else {
        Route::Program
    }
}

/// Whether an option is among the words that says how control is followed.
fn asks_for_following(rest: &[&str]) -> bool
    ensures { result ≡ asks_for_following (texts rest.entry.now) }
{
    has_option("follow", rest) || has_option("follow-only", rest) || has_option("inline", rest)
}

/// Whether an option is among the words that says what ranges have.
fn asks_for_ranges(rest: &[&str]) -> bool
    ensures { result ≡ asks_for_ranges (texts rest.entry.now) }
{
    has_option("data", rest)
        || has_option("text", rest)
        || has_option("words", rest)
        || has_option("rts-words", rest)
}

/// Whether an option is among the words that gives labels, names, marks or addresses.
fn asks_for_names(rest: &[&str]) -> bool
    ensures { result ≡ asks_for_names (texts rest.entry.now) }
{
    has_option("labels", rest)
        || has_option("symbols", rest)
        || has_option("marks", rest)
        || has_option("addresses", rest)
}

/// Whether an option is among the words that only a source has.
fn asks_for_source(rest: &[&str]) -> bool
    ensures { result ≡ asks_for_source (texts rest.entry.now) }
{
    has_option("source", rest)
        || has_option("fill", rest)
        || asks_for_following(rest)
        || asks_for_ranges(rest)
        || asks_for_names(rest)
}

/// Returns the call for the words after `dis`.
fn dis_route(rest: &[&str]) -> Route
    ensures { result ≡ dis_route (texts rest.entry.now) }
{
    if asks_for_help(rest) {
        Route::Whole
    } else if asks_for_source(rest) {
        Route::DisSource
    } else if asks_for_image(rest) {
        Route::DisImage
    } else {
        Route::Program
    }
}

/// Returns the call for a session, by whether it is strict and whether it is on an image.
fn session_route(is_strict: bool, is_image: bool) -> Route
    ensures { result ≡ session_route is_strict is_image }
{
    match (is_strict, is_image) {
        (true, true) => Route::StrictImage,
        (true, false) => Route::StrictDebug,
        (false, true) => Route::DebugImage,
        (false, false) => Route::Program,
    }
}

/// Returns the call for the words after `debug`.
fn debug_route(rest: &[&str]) -> Route
    ensures { result ≡ debug_route (texts rest.entry.now) }
{
    if asks_for_help(rest) {
        Route::Whole
    } else {
        session_route(is_strict(rest), asks_for_image(rest))
    }
}

/// Returns the call that serves these words, the program's own name left out.
pub fn route_of(words: &[&str]) -> Route
    ensures { result ≡ route_of (texts words.entry.now) }
{
    let [name, rest @ ..] = words else {
        return Route::Whole;
    };
    match *name {
        "asm" => asm_route(rest),
        "dis" => dis_route(rest),
        "debug" => debug_route(rest),
        name => added(name),
    }
}
