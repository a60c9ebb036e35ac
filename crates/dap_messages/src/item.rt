//! What a list of an answer has.

ghost use Rattle.std.specs.Prelude.{◌≡◌, ℕ, IfOk, List, string_bytes};
ghost use Rattle.std.specs.Str.Lossy.{utf8_lossy};
ghost use Rattle.dap_messages.specs.SeenAnswers.{breakpoint_set, breakpoint_unset};
ghost use Rattle.dap_messages.specs.SeenAnswers.{completion_item, data_unwatched, data_watched};
ghost use Rattle.dap_messages.specs.SeenAnswers.{frame_at_line, frame_without_line, goto_target};
ghost use Rattle.dap_messages.specs.SeenAnswers.{instruction_at_line, instruction_row, item_view};
ghost use Rattle.dap_messages.specs.SeenAnswers.{local_at};
ghost use Rattle.dap_messages.specs.SeenAnswers.{no_instruction, place_on, plain_variable};
ghost use Rattle.dap_messages.specs.SeenAnswers.{source_file, variable, variable_at};

use std::alloc::{AllocError, Global};

/// What a list of an answer has.
#[derive(Drop)]
pub enum Item {
    /// A variable.
    Variable {
        name: String,
        value: String,
    },
    /// A variable that no expression stands for.
    PlainVariable {
        name: String,
        value: String,
    },
    /// The byte at an address, as a variable.
    Byte {
        name: String,
        address: u16,
        value: String,
    },
    /// A local of C that begins at an address, as a variable.
    Local {
        name: String,
        address: u16,
        value: String,
    },
    /// A frame at a line of a source, as the client counts lines and columns. `words` say where it
    /// is, `name` is the short name of the source.
    FrameAtLine {
        id: u64,
        address: u16,
        words: String,
        line: u64,
        column: u64,
        name: String,
        path: String,
    },
    /// A frame that is at no line of a source.
    Frame {
        id: u64,
        address: u16,
        words: String,
    },
    /// A row of a disassembly: an instruction, or data.
    Instruction {
        address: u16,
        bytes: String,
        text: String,
    },
    /// A row of a disassembly that begins a line of the source with a path.
    InstructionAtLine {
        address: u16,
        bytes: String,
        text: String,
        line: u64,
        path: String,
    },
    /// A row where no memory is, by its address in decimal.
    NoInstruction(String),
    /// A breakpoint that is set, by its number.
    BreakpointSet {
        id: u64,
        address: u16,
        line: Option<u64>,
    },
    /// A breakpoint that is not set, with words of why.
    BreakpointUnset {
        id: u64,
        line: Option<u64>,
        words: String,
    },
    /// A byte that is watched.
    Watched,
    /// A byte that is not watched, or a breakpoint that has no number, with words of why.
    Unwatched(String),
    /// A line at which a breakpoint can stand.
    Place(u64),
    /// An address that can be gone to, with its line.
    GotoTarget {
        address: u16,
        line: u64,
    },
    /// A file of the source, by its short name and its path.
    Source {
        name: String,
        path: String,
    },
    /// A text that can stand for `count` bytes from a column on.
    Completion {
        text: String,
        start: u64,
        count: u64,
    },
}

/// A line of a source, as the client counts lines and columns. The source has a short name.
#[derive(Clone, Copy)]
pub struct SourcePlace<'a> {
    pub name: &'a str,
    pub path: &'a str,
    pub line: u64,
    pub column: u64,
}

/// Returns a variable of a name, with its value, if memory did not run out for that.
pub fn variable(
    alloc: Global,
    name: &str,
    value: Result<String, AllocError>,
) -> Result<Item, AllocError>
    ensures { (bytes : List ℕ) → IfOk value (λ s. string_bytes s ≡ bytes)
        → IfOk result (λ v. item_view v ≡ variable name.now bytes) }
{
    let value = value?;
    let name = String::from_str(alloc, name)?;
    Ok(Item::Variable { name, value })
}

/// Returns a variable that no expression stands for, with its value, if memory did not run out for
/// that.
pub fn plain_variable(
    alloc: Global,
    name: &str,
    value: Result<String, AllocError>,
) -> Result<Item, AllocError>
    ensures { (bytes : List ℕ) → IfOk value (λ s. string_bytes s ≡ bytes)
        → IfOk result (λ v. item_view v ≡ plain_variable name.now bytes) }
{
    let value = value?;
    let name = String::from_str(alloc, name)?;
    Ok(Item::PlainVariable { name, value })
}

/// Returns the byte at an address as a variable, if memory did not run out for its value.
pub fn variable_at(
    alloc: Global,
    name: &str,
    address: u16,
    value: Result<String, AllocError>,
) -> Result<Item, AllocError>
    ensures { (bytes : List ℕ) → IfOk value (λ s. string_bytes s ≡ bytes)
        → IfOk result (λ v. item_view v ≡ variable_at name.now address bytes) }
{
    let value = value?;
    let name = String::from_str(alloc, name)?;
    Ok(Item::Byte {
        name,
        address,
        value,
    })
}

/// Returns a local of C that begins at an address as a variable, if memory did not run out for its
/// name and its value.
pub fn local_at(
    name: Result<String, AllocError>,
    address: u16,
    value: Result<String, AllocError>,
) -> Result<Item, AllocError>
    ensures { (n bytes : List ℕ) → IfOk name (λ s. string_bytes s ≡ n)
        → IfOk value (λ s. string_bytes s ≡ bytes)
        → IfOk result (λ v. item_view v ≡ local_at n address bytes) }
{
    let name = name?;
    let value = value?;
    Ok(Item::Local {
        name,
        address,
        value,
    })
}

/// Returns a frame at a line of a source, if memory did not run out for the words of where it is.
pub fn frame_at_line(
    alloc: Global,
    id: u64,
    address: u16,
    words: Result<String, AllocError>,
    place: SourcePlace<'_>,
) -> Result<Item, AllocError>
    ensures { (w : List ℕ) → IfOk words (λ s. string_bytes s ≡ w)
        → IfOk result (λ v. item_view v ≡ frame_at_line id address w place.entry.line
        place.entry.column place.entry.name.now place.entry.path.now) }
{
    let words = words?;
    let name = String::from_str(alloc, place.name)?;
    let path = String::from_str(alloc, place.path)?;
    Ok(Item::FrameAtLine {
        id,
        address,
        words,
        line: place.line,
        column: place.column,
        name,
        path,
    })
}

/// Returns a frame that is at no line of a source, if memory did not run out for the words of where
/// it is.
pub fn frame_without_line(
    id: u64,
    address: u16,
    words: Result<String, AllocError>,
) -> Result<Item, AllocError>
    ensures { (w : List ℕ) → IfOk words (λ s. string_bytes s ≡ w)
        → IfOk result (λ v. item_view v ≡ frame_without_line id address w) }
{
    let words = words?;
    Ok(Item::Frame { id, address, words })
}

/// Returns a row of a disassembly: an address, bytes and a text, if memory did not run out for the
/// bytes and the text.
pub fn instruction_row(
    address: u16,
    bytes: Result<String, AllocError>,
    text: Result<String, AllocError>,
) -> Result<Item, AllocError>
    ensures { (b t : List ℕ) → IfOk bytes (λ s. string_bytes s ≡ b)
        → IfOk text (λ s. string_bytes s ≡ t)
        → IfOk result (λ v. item_view v ≡ instruction_row address b t) }
{
    let bytes = bytes?;
    let text = text?;
    Ok(Item::Instruction {
        address,
        bytes,
        text,
    })
}

/// Returns a row of a disassembly that begins a line of the source with a path, if memory did not
/// run out for its bytes and its text.
pub fn instruction_at_line(
    alloc: Global,
    address: u16,
    bytes: Result<String, AllocError>,
    text: Result<String, AllocError>,
    line: u64,
    path: &str,
) -> Result<Item, AllocError>
    ensures { (b t : List ℕ) → IfOk bytes (λ s. string_bytes s ≡ b)
        → IfOk text (λ s. string_bytes s ≡ t)
        → IfOk result (λ v. item_view v ≡ instruction_at_line address b t line path.now) }
{
    let bytes = bytes?;
    let text = text?;
    let path = String::from_str(alloc, path)?;
    Ok(Item::InstructionAtLine {
        address,
        bytes,
        text,
        line,
        path,
    })
}

/// Returns a row where no memory is, if memory did not run out for its address.
pub fn no_instruction(address: Result<String, AllocError>) -> Result<Item, AllocError>
    ensures { (a : List ℕ) → IfOk address (λ s. string_bytes s ≡ a)
        → IfOk result (λ v. item_view v ≡ no_instruction a) }
{
    let address = address?;
    Ok(Item::NoInstruction(address))
}

/// Returns a breakpoint that is not set, with words of why.
pub fn breakpoint_unset(
    alloc: Global,
    id: u64,
    line: Option<u64>,
    words: &str,
) -> Result<Item, AllocError>
    ensures { IfOk result (λ v. item_view v ≡ breakpoint_unset id line words.now) }
{
    let words = String::from_str(alloc, words)?;
    Ok(Item::BreakpointUnset { id, line, words })
}

/// Returns that a byte is not watched, with words of why.
pub fn data_unwatched(alloc: Global, words: &str) -> Result<Item, AllocError>
    ensures { IfOk result (λ v. item_view v ≡ data_unwatched words.now) }
{
    let words = String::from_str(alloc, words)?;
    Ok(Item::Unwatched(words))
}

/// Returns a file of the source, by its short name and its path.
pub fn source_file(alloc: Global, name: &str, path: &str) -> Result<Item, AllocError>
    ensures { IfOk result (λ v. item_view v ≡ source_file name.now path.now) }
{
    let name = String::from_str(alloc, name)?;
    let path = String::from_str(alloc, path)?;
    Ok(Item::Source { name, path })
}

/// Returns a name that can stand for `count` bytes from a column on.
pub fn completion_item(
    alloc: Global,
    name: &[u8],
    start: u64,
    count: u64,
) -> Result<Item, AllocError>
    ensures { IfOk result (λ v. item_view v ≡ completion_item (utf8_lossy name.now) start count) }
{
    let text = String::from_utf8_lossy(alloc, name)?;
    Ok(Item::Completion { text, start, count })
}
