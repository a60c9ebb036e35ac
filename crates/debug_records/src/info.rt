//! Tables of records by their numbers.

ghost use Rattle.std.specs.Prelude.{◌≡◌, OnOk};
ghost use Rattle.debug_records.specs.Faults.{Gives};
ghost use Rattle.debug_records.specs.Info.{grown, is_ambiguous, is_main_of, no_info, record_at};
ghost use Rattle.debug_records.specs.Info.{with_new};
ghost use Rattle.debug_records.specs.Views.{info_view};

use crate::fault::{DebugFaultKind, LineError, LineFault};
use crate::numbers::Placed;
use crate::record::{CSymbol, File, Line, Scope, Segment, Span, Symbol};
use std::alloc::{AllocError, Global};

/// A line, and a span of it.
#[derive(Clone, Copy)]
pub struct Use {
    pub line: u32,
    pub span: u32,
}

/// What a debug file says: a record stands in its table at its number. `uses` has the spans of
/// each line, in the order of the file; a module is the number of its main file.
#[derive(Drop)]
pub struct DebugInfo<'a> {
    pub files: Vec<Option<File<'a>>>,
    pub segments: Vec<Option<Segment<'a>>>,
    pub symbols: Vec<Option<Symbol<'a>>>,
    pub spans: Vec<Option<Span>>,
    pub lines: Vec<Option<Line>>,
    pub modules: Vec<Option<u32>>,
    pub scopes: Vec<Option<Scope<'a>>>,
    pub c_symbols: Vec<Option<CSymbol<'a>>>,
    pub uses: Vec<Use>,
}

/// Returns the information of no line.
pub fn no_info<'a>(alloc: Global) -> DebugInfo<'a>
    ensures { info_view result ≡ no_info }
{
    DebugInfo {
        files: Vec::new(alloc),
        segments: Vec::new(alloc),
        symbols: Vec::new(alloc),
        spans: Vec::new(alloc),
        lines: Vec::new(alloc),
        modules: Vec::new(alloc),
        scopes: Vec::new(alloc),
        c_symbols: Vec::new(alloc),
        uses: Vec::new(alloc),
    }
}

/// Returns the record of a number.
pub fn record_at<T: Copy>(table: &[Option<T>], number: u32) -> Option<T>
    ensures { result ≡ record_at table.now number }
{
    let at = number as usize;
    if at < table.len() { table[at] } else { None }
}

/// Gives a table places for so many records at least.
pub fn grow<T: Copy>(table: &mut Vec<Option<T>>, count: usize) -> Result<(), AllocError>
    ensures { OnOk result (table.new.items ≡ grown table.old.items count) }
{
    if table.len() < count {
        table.resize(count, None)?;
    }
    Ok(())
}

/// Puts a record at its number, which is below the limit, and no other record's.
#[tactic(auto, unfolding(crate::specs::Info::with_new))]
pub fn put_new<T: Copy>(
    table: &mut Vec<Option<T>>,
    most: u32,
    id: Placed,
    item: T,
) -> Result<(), LineError>
    ensures { Gives (λ _. table.new.items) result (with_new most table.old.items id item) }
{
    if most <= id.number {
        return Err(LineError::Fault(LineFault {
            kind: DebugFaultKind::TooMany,
            left: id.left,
        }));
    }
    if record_at(table, id.number).is_some() {
        return Err(LineError::Fault(LineFault {
            kind: DebugFaultKind::IdTwice,
            left: id.left,
        }));
    }
    let at = id.number as usize;
    grow(table, at + 1)?;
    table[at] = Some(item);
    Ok(())
}

/// Returns whether a file is this main file.
fn is_main_of(file: u32, main: Option<u32>) -> bool
    ensures { result ≡ is_main_of file main }
{
    match main {
        None => false,
        Some(main) => main == file,
    }
}

/// Returns whether a file is the main one of two modules, so that its lines are not told apart.
pub fn is_ambiguous(info: &DebugInfo<'_>, file: u32) -> bool
    ensures { result ≡ is_ambiguous (info_view info.now) file }
{
    let modules = info.modules.as_slice();
    1 < modules
        .iter()
        .filter(|main| is_main_of(file, **main))
        .count()
}
