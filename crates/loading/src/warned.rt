//! What is told of the warnings of a source that is loaded, of names that were left out, and of
//! fill at the port.

ghost use Rattle.std.specs.Prelude.{◌≡◌, ◌++◌, length, option_map};
ghost use Rattle.arguments.specs.Asked.{file_view, map_of};
ghost use Rattle.loading.specs.Warned.{IsCount, TellsWarnings, fill_text, left_text, lost_text};
ghost use Rattle.loading.specs.Warned.{many_text, warned_text};
ghost use Rattle.model.specs.Writers.{AppendsFront};

use crate::loaded::map_of_words;
use arguments::{FileWords, put_three, put_two};
use assembler::Assembly;
use formatting::{Text, address_text, push_bytes, push_decimal};
use memory_map::MapSpec;
use std::alloc::Global;
use std::io::Write;
use warnings::{Warning, source_warnings};

/// How the line begins that tells of several warnings.
const PROGRAM: &str = "mos65: ";

/// The line that tells of one warning.
const ONE_WARNING: &str = "mos65: 1 warning; check shows it\n";

/// How the line begins that tells of names that were left out.
const LEFT_OUT: &str = "mos65: names left out: ";

/// How the line begins that tells of fill at the port.
const FILL: &str = "mos65: 4 bytes of fill at the port ";

/// How it ends.
const ARE_LEFT_OUT: &str = " are left out\n";

/// How the line ends that tells of several warnings.
const MANY_WARNINGS: &str = " warnings; check shows them\n";

/// Returns how many warnings there are.
fn length_of(warnings: &[Warning]) -> usize
    ensures { result ≡ length warnings.now }
{
    warnings.len()
}

/// Returns how many warnings a source has on a map, or 0 where memory runs out.
fn count_on(alloc: Global, map: &MapSpec, source: &[u8]) -> usize
    ensures { IsCount map.now source.now result }
{
    match source_warnings(alloc, source, map) {
        Ok(warnings) => length_of(warnings.as_slice()),
        Err(_) => 0,
    }
}

/// Returns how many warnings a source has on the map of the words, or 0 where memory runs out.
fn warning_count(alloc: Global, words: &FileWords<'_>, assembly: &Assembly) -> usize
    ensures { IsCount (map_of (file_view words.now)) assembly.now.source result }
{
    match map_of_words(words) {
        Ok(map) => count_on(alloc, &map, assembly.source()),
        Err(_) => 0,
    }
}

/// Returns the line that tells of several warnings.
fn many_text(count: u64) -> Text
    ensures { result.items ≡ many_text count }
{
    let mut text = Text::new();
    push_bytes(&mut text, PROGRAM.as_bytes());
    push_decimal(&mut text, count);
    push_bytes(&mut text, MANY_WARNINGS.as_bytes());
    text
}

/// Returns the line that tells how many warnings there are, if there are some.
#[tactic(auto, unfolding(crate::specs::Warned::warned_text))]
fn warned_text(count: usize) -> Text
    ensures { result.items ≡ warned_text count }
{
    let mut text = Text::new();
    if count == 0 {
        return text;
    }
    if count != 1 {
        return many_text(count as u64);
    }
    push_bytes(&mut text, ONE_WARNING.as_bytes());
    text
}

/// Returns the line that tells how many lines of a file of names gave no name, if some did.
#[tactic(auto, unfolding(crate::specs::Warned::lost_text))]
fn lost_text(lost: usize) -> Text
    ensures { result.items ≡ lost_text lost }
{
    let mut text = Text::new();
    if lost == 0 {
        return text;
    }
    push_bytes(&mut text, LEFT_OUT.as_bytes());
    push_decimal(&mut text, lost as u64);
    push_bytes(&mut text, b"\n");
    text
}

/// Returns the line that tells that an image was loaded without the fill at the port of a base, if
/// some was left out.
fn fill_text(fill: Option<u32>) -> Text
    ensures { result.items ≡ fill_text fill }
{
    let mut text = Text::new();
    if let Some(base) = fill {
        push_bytes(&mut text, FILL.as_bytes());
        push_bytes(&mut text, &address_text(base));
        push_bytes(&mut text, ARE_LEFT_OUT.as_bytes());
    }
    text
}

/// Writes how many lines of a file of names gave no name, if some did, and that an image was loaded
/// without the fill at the port of a base, if some was left out; or a beginning of these lines if a
/// write fails.
pub fn tell_left_out<E: Write>(lost: usize, fill: Option<u32>, errors: &mut E)
    ensures { AppendsFront (E.contents errors.old) (E.contents errors.new) (left_text lost fill) }
{
    put_two(
        lost_text(lost).as_slice(),
        fill_text(fill).as_slice(),
        errors,
    );
}

/// Writes how many warnings there are, if there are some, how many lines gave no name, and that
/// fill was left out, or a beginning of these lines if a write fails.
fn tell_count<E: Write>(count: usize, lost: usize, fill: Option<u32>, errors: &mut E)
    ensures { AppendsFront (E.contents errors.old) (E.contents errors.new)
        (warned_text count ++ left_text lost fill) }
{
    put_three(
        warned_text(count).as_slice(),
        lost_text(lost).as_slice(),
        fill_text(fill).as_slice(),
        errors,
    );
}

/// Writes how many warnings a source has, if there is one and it has some; how many lines of a file
/// of names gave no name, if some did; and that an image was loaded without the fill at the port of
/// a base, if some was left out. If a write fails, it writes a beginning of these lines. Where
/// memory runs out, nothing is said of warnings.
#[tactic(auto, using(crate::proofs::WarningsTold::none_told))]
pub fn tell_warnings<E: Write>(
    alloc: Global,
    words: &FileWords<'_>,
    assembly: Option<&Assembly>,
    lost: usize,
    fill: Option<u32>,
    errors: &mut E,
)
    ensures { TellsWarnings (map_of (file_view words.now))
        (option_map (λ a. a.now) assembly.entry) lost fill (record {
          held = E.contents errors.old;
          now = E.contents errors.new;
        }) }
{
    match assembly {
        None => tell_left_out(lost, fill, errors),
        Some(assembly) => {
            let count = warning_count(alloc, words, assembly);
            tell_count(count, lost, fill, errors);
        }
    }
}
