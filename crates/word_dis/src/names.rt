//! The names for addresses.

ghost use Rattle.std.specs.Prelude.{◌≡◌, ◌-◌, ◌++◌, [], IfErr, IfOk, Some, option_map};
ghost use Rattle.assembler.specs.Assembly.{AssemblyView};
ghost use Rattle.names_files.specs.NamesFile.{names_file};
ghost use Rattle.names_files.specs.Views.{names_view};
ghost use Rattle.word_dis.specs.Views.{source_view};
ghost use Rattle.word_dis.specs.Word.{AreFileNames, AreGiven, AreLabels, AreNames, EndsDefined};
ghost use Rattle.word_dis.specs.Word.{EndsNamed, names_path};

use crate::asked::SourceWords;
use crate::written::defined;
use arguments::{FileRefusal, ReadFault, Refusal, read_source};
use assembler::{AsmFault, Assembly};
use model::Profile;
use names_files::{NamesFile, names_of_file};
use std::alloc::{AllocError, Global};
use std::rt::Files;

/// The names for addresses, if there are some, and what is said of lines of their file that were
/// left out.
#[derive(Drop)]
pub struct Names {
    pub assembly: Option<Assembly>,
    pub left_out: Vec<u8>,
}

/// The lines of a source that define labels, and how many they are.
#[derive(Clone, Copy)]
struct Labels<'a> {
    text: &'a [u8],
    count: usize,
}

/// Returns what a file of names says.
///
/// Errors: `OutOfMemory` if an allocation fails.
fn file_of_names(alloc: Global, profile: Profile, file: &[u8]) -> Result<NamesFile, Refusal>
    ensures names { IfOk result (λ names. names_view names ≡ names_file profile file.now) }
    ensures refused { IfErr result (λ fault. fault ≡ Refusal.OutOfMemory) }
{
    names_of_file(alloc, profile, file).map_err(|_| Refusal::OutOfMemory)
}

/// Returns a fault of a source that begins with lines of labels, by the line behind them.
fn behind_labels(fault: AsmFault, count: usize) -> AsmFault
    ensures { result ≡ record fault { line = fault.line - count } }
{
    AsmFault {
        line: (fault.line as usize).saturating_sub(count) as u32,
        kind: fault.kind,
    }
}

/// Returns what a source defines that begins with so many lines of labels.
#[tactic(auto, using(crate::proofs::Labelled::behind, crate::proofs::Labelled::defined_ends))]
fn assembled(
    alloc: Global,
    profile: Profile,
    source: &[u8],
    count: usize,
) -> Result<Assembly, Refusal>
    ensures given { IfOk result (λ a. AreNames profile source.now a.names) }
    ensures refused { IfErr result (EndsDefined profile) }
{
    match defined(alloc, profile, source) {
        Ok(assembly) => Ok(assembly),
        Err(Refusal::Source(fault)) => Err(Refusal::Source(behind_labels(fault, count))),
        Err(refusal) => Err(refusal),
    }
}

/// Returns a text behind another.
fn joined(alloc: Global, text: &[u8], behind: &[u8]) -> Result<Vec<u8>, AllocError>
    ensures { IfOk result (λ all. all.items ≡ text.now ++ behind.now) }
{
    let mut all = Vec::from_slice(alloc, text)?;
    all.extend_from_slice(behind)?;
    Ok(all)
}

/// Returns the lines of labels with a source behind them.
fn with_labels(alloc: Global, labels: Labels<'_>, source: &[u8]) -> Result<Vec<u8>, Refusal>
    ensures all { IfOk result (λ all. all.items ≡ labels.entry.text.now ++ source.now) }
    ensures refused { IfErr result (λ fault. fault ≡ Refusal.OutOfMemory) }
{
    joined(alloc, labels.text, source).map_err(|_| Refusal::OutOfMemory)
}

/// Returns the names of labels and of a file of names, whose source is made.
///
/// Errors: `Read` with `NoName` if no line of the file is a name in a form that is known.
fn names_in(
    alloc: Global,
    profile: Profile,
    labels: Labels<'_>,
    file: NamesFile,
) -> Result<Names, Refusal>
    ensures given { IfOk result (λ names. (a : AssemblyView) × (names.assembly ≡ Some a)
        × AreNames profile (labels.entry.text.now ++ file.source.items) a.names) }
    ensures left_out { IfOk result (λ names. names.left_out.items ≡ file.left_out.items) }
    ensures refused { IfErr result (EndsDefined profile) }
{
    let NamesFile {
        source,
        others: _,
        left_out,
        lost: _,
        is_unknown,
    } = file;
    if is_unknown {
        return Err(Refusal::Read(ReadFault::NoName));
    }
    let all = with_labels(alloc, labels, source.as_slice())?;
    let assembly = assembled(alloc, profile, all.as_slice(), labels.count)?;
    Ok(Names {
        assembly: Some(assembly),
        left_out,
    })
}

/// Returns the names of labels and of a file.
fn names_of_path<H: Files + AllocGlobal>(
    rt: &H,
    profile: Profile,
    labels: Labels<'_>,
    path: &str,
) -> Result<Names, Refusal>
    ensures given { IfOk result (λ names. (a : AssemblyView) × (names.assembly ≡ Some a)
        × AreFileNames profile labels.entry.text.now a.names names.left_out.items) }
    ensures refused { IfErr result (EndsDefined profile) }
{
    let file = read_source(rt, path)?;
    let names = file_of_names(rt.alloc(), profile, file.as_slice())?;
    names_in(rt.alloc(), profile, labels, names)
}

/// Returns the names of labels alone, if there are some.
#[tactic(auto, using(crate::proofs::Labelled::none, crate::proofs::Labelled::some))]
fn names_of_labels(
    alloc: Global,
    profile: Profile,
    labels: Labels<'_>,
) -> Result<Option<Assembly>, Refusal>
    ensures given { IfOk result (λ names. AreLabels profile labels.entry.text.now
        (option_map (λ a. a.names) names)) }
    ensures refused { IfErr result (EndsDefined profile) }
{
    if labels.text.is_empty() {
        return Ok(None);
    }
    let assembly = assembled(alloc, profile, labels.text, 0)?;
    Ok(Some(assembly))
}

/// The lines that define the labels of the words.
fn labels_of<'a>(words: &'a SourceWords<'_>) -> Labels<'a>
    ensures { result.text.now ≡ (source_view words.now).said.definitions }
{
    Labels {
        text: words.said.definitions.as_slice(),
        count: words.said.names.count(),
    }
}

/// The file that names are of: that of names, or else that of marks.
fn names_path<'a>(words: &SourceWords<'a>) -> &'a str
    ensures { result.now ≡ names_path (source_view words.now) }
{
    match words.symbols {
        Some(file) => file,
        None => words.marks.unwrap_or(words.tape),
    }
}

/// Returns the names of labels alone.
fn names_alone(alloc: Global, profile: Profile, labels: Labels<'_>) -> Result<Names, Refusal>
    ensures given { IfOk result (λ names. AreLabels profile labels.entry.text.now
        (option_map (λ a. a.names) names.assembly)) }
    ensures left_out { IfOk result (λ names. names.left_out.items ≡ []) }
    ensures refused { IfErr result (EndsDefined profile) }
{
    let assembly = names_of_labels(alloc, profile, labels)?;
    Ok(Names {
        assembly,
        left_out: Vec::new(alloc),
    })
}

/// Returns the names of labels, and of a file if one is asked for.
#[tactic(auto, using(crate::proofs::Parts::given_path, crate::proofs::Parts::given_labels))]
fn given_names<H: Files + AllocGlobal>(rt: &H, words: &SourceWords<'_>) -> Result<Names, Refusal>
    ensures given { IfOk result (λ names. AreGiven (source_view words.now).symbols
        words.now.profile (source_view words.now).said.definitions
        (option_map (λ a. a.names) names.assembly) names.left_out.items) }
    ensures refused { IfErr result (EndsDefined words.now.profile) }
{
    let labels = labels_of(words);
    match words.symbols {
        Some(file) => names_of_path(rt, words.profile, labels, file),
        None => names_alone(rt.alloc(), words.profile, labels),
    }
}

/// Returns the names for addresses, if a file of them is asked for or labels are said.
pub fn names_of<'a, H: Files + AllocGlobal>(
    rt: &H,
    words: &SourceWords<'a>,
) -> Result<Names, FileRefusal<'a>>
    ensures given { IfOk result (λ names. AreGiven (source_view words.now).symbols
        words.now.profile (source_view words.now).said.definitions
        (option_map (λ a. a.names) names.assembly) names.left_out.items) }
    ensures refused { IfErr result (EndsNamed (source_view words.now)) }
{
    match given_names(rt, words) {
        Ok(names) => Ok(names),
        Err(refusal) => Err(FileRefusal {
            file: names_path(words),
            refusal,
        }),
    }
}
