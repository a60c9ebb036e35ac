//! The blocks of all faults.

ghost use Rattle.std.specs.Prelude.{◌≡◌, ◌≤◌, ◌++◌, [], IfOk, IfSome, None, OnOk, length, map};
ghost use Rattle.std.specs.Prelude.{take};
ghost use Rattle.std.specs.List.Sorted.{IsNonDecreasingBy, IsPermutation};
ghost use Rattle.std.specs.Option.{option_map};
ghost use Rattle.fault_notes.specs.Blocks.{IsToldText, fault_blocks, known_in, means_first, means_in};
ghost use Rattle.fault_notes.specs.Blocks.{shown_lines, title_of};
ghost use Rattle.fault_notes.specs.Given.{told_faults_of};
ghost use Rattle.fault_notes.specs.Marks.{IsMeant, known_of};
ghost use Rattle.line_parts.specs.LineFaults.{out_of_memory};
ghost use Rattle.model.specs.AllFaults.{fixed_by, found_lines, smallest};
ghost use Rattle.model.specs.Source.{first_context, read_lines};
ghost use Rattle.model.specs.TextLines.{lines_of};
ghost use Rattle.source_faults.specs.Views.{found_all};
ghost use Rattle.source_notes.specs.Blocks.{AreBlocks, block_of};
ghost use Rattle.source_notes.specs.Lines.{name_view, names_of, texts_of};

use crate::given::told_source_faults;
use crate::note::{Context, note_of};
use crate::wording::{FAULTS, ONE_FAULT};
use bus::MapSpec;
use formatting::{push_count, push_text};
use model::{AsmFault, AsmFaultKind, Profile};
use source_faults::{Found, Mending, lay_out};
use source_notes::{
    Name, Note, every_line, first_told, line_of, line_or_none, names_of, phrase, push_block,
    push_total,
};
use std::alloc::{AllocError, Global};
use symbols::Symbols;

/// The most bytes that a source has (mos65).
const SOURCE_SIZE: usize = 1_048_576;

/// Returns the title of a block: the name and the number of a kind of fault.
fn title_of(alloc: Global, kind: AsmFaultKind) -> Result<Vec<u8>, AllocError>
    ensures { IfOk result (λ title. title.items ≡ title_of kind) }
{
    let mut title = Vec::from_slice(alloc, kind.name().as_bytes())?;
    push_text(&mut title, " ")?;
    push_count(&mut title, kind.number() as u64)?;
    push_text(&mut title, ": ")?;
    Ok(title)
}

/// Appends the block of a fault: where it is and what is wrong, and the line with a mark.
fn push_fault(
    alloc: Global,
    text: &mut Vec<u8>,
    file: &[u8],
    fault: AsmFault,
    line: Option<&[u8]>,
    note: &Note,
) -> Result<(), AllocError>
    ensures { OnOk result (text.new.items ≡ text.old.items
        ++ block_of file.now fault.line (title_of fault.kind)
        (option_map (λ line. line.now) line.entry) note.now) }
{
    let title = title_of(alloc, fault.kind)?;
    push_block(alloc, text, file, fault.line, &title, line, note)
}

/// Returns faults in the order of their lines.
fn by_line(alloc: Global, faults: &[AsmFault]) -> Result<Vec<AsmFault>, AllocError>
    ensures all { IfOk result (λ ordered. IsPermutation faults.now ordered.items) }
    ensures ordered { IfOk result (λ ordered. IsNonDecreasingBy (λ f. f.line) ordered.items) }
{
    let mut ordered = Vec::from_slice(alloc, faults)?;
    ordered.sort_by_key(|fault| fault.line)?;
    Ok(ordered)
}

/// Returns the blocks of faults of a source that is too long to be read.
fn large_blocks(alloc: Global, file: &[u8], faults: &[AsmFault]) -> Result<Vec<u8>, AllocError>
    ensures { IfOk result
        (λ text. AreBlocks (fault_blocks means_first) file.now [] faults.now text.items) }
{
    let mut text = Vec::new(alloc);
    for fault in faults {
        let words = phrase(alloc, "a source has at most 1048576 bytes")?;
        let note = Note::new(0, 1, words);
        push_fault(alloc, &mut text, file, *fault, None, &note)?;
    }
    Ok(text)
}

/// Returns the blocks of faults of a source whose lines are these.
fn line_blocks(
    alloc: Global,
    file: &[u8],
    lines: &[&[u8]],
    context: &Context<'_, '_>,
    faults: &[AsmFault],
) -> Result<Vec<u8>, AllocError>
    ensures { IfOk result (λ text. AreBlocks (fault_blocks (IsMeant (known_of context.now)))
        file.now (texts_of lines.now) faults.now text.items) }
{
    let mut text = Vec::new(alloc);
    for fault in faults {
        let line = line_of(lines, fault.line);
        let note = note_of(alloc, context, *fault, line_or_none(line))?;
        push_fault(alloc, &mut text, file, *fault, line, &note)?;
    }
    Ok(text)
}

/// Returns the names that the lines of a source begin with, as many lines as were read.
#[tactic(auto, using(std::proofs::lemmas::List::take_min))]
fn names_read<'a>(
    alloc: Global,
    lines: &[&'a [u8]],
    count: usize,
) -> Result<Vec<Name<'a>>, AllocError>
    ensures { IfOk result
        (λ names. map name_view names.items ≡ names_of (texts_of (take count lines.now))) }
{
    names_of(alloc, &lines[..count.min(lines.len())])
}

/// Returns the blocks of faults of a source of which the layout found this, and these names.
fn found_blocks<'a>(
    alloc: Global,
    file: &[u8],
    source: &'a [u8],
    profile: Profile,
    port: u32,
    symbols: &Symbols,
    found: &[Found<'a>],
    faults: &[AsmFault],
) -> Result<Vec<u8>, AllocError>
    requires found { found_all found.now ≡ found_lines smallest (first_context profile)
        (read_lines profile source.now) }
    requires names { symbols.now ≡ (fixed_by smallest (first_context profile)
        (read_lines profile source.now)).names }
    ensures { IfOk result (λ text. AreBlocks
        (fault_blocks (IsMeant (known_in profile source.now)))
        file.now (lines_of source.now) faults.now text.items) }
{
    let lines = every_line(alloc, source)?;
    let names = names_read(alloc, &lines, found.len())?;
    let context = Context {
        profile,
        port,
        names: &names,
        symbols,
        found,
    };
    line_blocks(alloc, file, &lines, &context, faults)
}

/// Returns the blocks of faults of a source, whose names are put into an empty list.
fn laid_blocks(
    alloc: Global,
    file: &[u8],
    source: &[u8],
    profile: Profile,
    port: u32,
    symbols: &mut Symbols,
    faults: &[AsmFault],
) -> Result<Vec<u8>, AllocError>
    requires short { length source.now ≤ 1048576 }
    requires empty { symbols.old ≡ [] }
    ensures { IfOk result (λ text. AreBlocks
        (fault_blocks (IsMeant (known_in profile source.now)))
        file.now (lines_of source.now) faults.now text.items) }
{
    let found = lay_out(alloc, profile, Mending::Smallest, symbols, source)?;
    found_blocks(alloc, file, source, profile, port, symbols, &found, faults)
}

/// Returns the blocks of faults of a source that is not too long.
fn source_blocks(
    alloc: Global,
    file: &[u8],
    source: &[u8],
    map: &MapSpec,
    faults: &[AsmFault],
) -> Result<Vec<u8>, AllocError>
    requires { length source.now ≤ 1048576 }
    ensures { IfOk result (λ text. AreBlocks
        (fault_blocks (IsMeant (known_in map.now.profile source.now)))
        file.now (lines_of source.now) faults.now text.items) }
{
    let mut symbols = Symbols::new(alloc);
    let profile = map.profile();
    laid_blocks(
        alloc,
        file,
        source,
        profile,
        map.port(),
        &mut symbols,
        faults,
    )
}

/// Returns the blocks of faults of a source.
fn blocks_of(
    alloc: Global,
    file: &[u8],
    source: &[u8],
    map: &MapSpec,
    faults: &[AsmFault],
) -> Result<Vec<u8>, AllocError>
    ensures { IfOk result (λ text. AreBlocks
        (fault_blocks (means_in map.now.profile source.now))
        file.now (shown_lines source.now) faults.now text.items) }
{
    if source.len() > SOURCE_SIZE {
        large_blocks(alloc, file, faults)
    } else {
        source_blocks(alloc, file, source, map, faults)
    }
}

/// Returns the text of faults of a source: for each of the first 50, by line,
/// `FILE:LINE:COLUMN: NAME NUMBER: ` and what a person needs, the line and a mark under what is
/// meant; then how many faults there are. Without a fault the text is empty.
///
/// Columns are counted in bytes from 1; a tab is one.
///
/// Errors: `AllocError` if an allocation fails. Source: mos65.
pub fn faults_text(
    alloc: Global,
    file: &[u8],
    source: &[u8],
    map: &MapSpec,
    faults: &[AsmFault],
) -> Result<Vec<u8>, AllocError>
    // A block for each of the first 50 faults, with its line's number, its name, its number and the
    // source's own line with a mark under the bytes that are meant. Only its words are open.
    ensures told { IfOk result
        (λ text. IsToldText file.now source.now map.now.profile faults.now text.items) }
{
    if faults.is_empty() {
        return Ok(Vec::new(alloc));
    }
    let first = by_line(alloc, first_told(faults))?;
    let mut text = blocks_of(alloc, file, source, map, &first)?;
    push_total(&mut text, faults.len(), ONE_FAULT, FAULTS)?;
    Ok(text)
}

/// Returns the text of the faults of a source on a map that are told, as `faults_text` writes it
/// under the name of the source's file. It is empty if the source has no fault.
pub fn all_faults_text(
    alloc: Global,
    file: &[u8],
    source: &[u8],
    map: &MapSpec,
) -> Result<Vec<u8>, AllocError>
    // Blocks of the faults of the source on the map that are told.
    ensures { IfOk result (λ text. IsToldText file.now source.now map.now.profile
        (told_faults_of map.now source.now) text.items) }
{
    let faults = told_source_faults(alloc, source, map)?;
    faults_text(alloc, file, source, map, &faults)
}

/// Returns the text of the faults that are told of a source which is refused with a fault, as
/// `faults_text` writes it under the name of the source's file. Returns nothing if memory ran out,
/// or if that is the fault. Source: mos65.
pub fn told_faults(
    alloc: Global,
    file: &[u8],
    source: &[u8],
    map: &MapSpec,
    fault: AsmFault,
) -> Option<Vec<u8>>
    ensures told { IfSome result (λ text. IsToldText file.now source.now map.now.profile
        (told_faults_of map.now source.now) text.items) }
    ensures memory { fault ≡ out_of_memory → result ≡ None }
{
    match fault.kind {
        AsmFaultKind::OutOfMemory => None,
        _ => all_faults_text(alloc, file, source, map).ok(),
    }
}
