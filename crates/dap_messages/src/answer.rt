//! The answers to requests that are done.

ghost use Rattle.std.specs.Prelude.{◌≡◌, ℕ, IfOk, List, map, string_bytes};
ghost use Rattle.dap_messages.specs.ItemLists.{HasItems};
ghost use Rattle.dap_messages.specs.SeenAnswers.{SeenItem, answer_view, breakpoints_body};
ghost use Rattle.dap_messages.specs.SeenAnswers.{exception_body, frames_body, instructions_body};
ghost use Rattle.dap_messages.specs.SeenAnswers.{item_view, look_body, memory_body, no_data};
ghost use Rattle.dap_messages.specs.SeenAnswers.{sources_body, targets_body, variables_body};

use crate::item::Item;
use crate::item_list::ItemList;
use crate::request::ByteRange;
use std::alloc::{AllocError, Global};

/// The answer to a request that is done.
#[derive(Drop)]
pub enum Answer {
    Nothing,
    /// What the adapter can do.
    Capabilities,
    /// The machine runs.
    Continued,
    Threads,
    /// The scopes of the first frame, or of another. The locals are those of the frame of a
    /// number, if there are some.
    Scopes {
        is_first: bool,
        locals: Option<u16>,
    },
    Breakpoints(Vec<Item>),
    /// Addresses that can be gone to, or what can stand for what is typed.
    Targets(Vec<Item>),
    Instructions(Vec<Item>),
    /// The files of the program's source.
    Sources(Vec<Item>),
    Variables(Vec<Item>),
    /// Some frames, and how many there are.
    Frames {
        frames: Vec<Item>,
        total: u64,
    },
    /// Bytes from an address on, in Base64, and how many more were asked for.
    Memory {
        address: u16,
        text: String,
        unread: u64,
    },
    /// What a line of the console has said, or what is looked at, with its address if it is a byte.
    Look {
        address: Option<u16>,
        words: String,
    },
    /// The value that a variable has.
    ValueSet(String),
    /// How many bytes were written.
    Written(u64),
    /// Why a step was refused.
    Exception(String),
    /// Bytes can be watched.
    DataAt(ByteRange),
    /// Nothing can be watched, with words of why.
    NoData(String),
}

/// Returns the answer that tells of some breakpoints.
pub fn breakpoints_body(list: ItemList) -> Result<Answer, AllocError>
    ensures { (ds : List SeenItem) → HasItems ds list
        → IfOk result (λ v. answer_view v ≡ breakpoints_body ds) }
{
    let items = list.build()?;
    Ok(Answer::Breakpoints(items))
}

/// Returns the answer that has targets: lines to go to, or what can stand for what is typed.
pub fn targets_body(list: ItemList) -> Result<Answer, AllocError>
    ensures { (ds : List SeenItem) → HasItems ds list
        → IfOk result (λ v. answer_view v ≡ targets_body ds) }
{
    let items = list.build()?;
    Ok(Answer::Targets(items))
}

/// Returns the answer that has the rows of a disassembly.
pub fn instructions_body(list: ItemList) -> Result<Answer, AllocError>
    ensures { (ds : List SeenItem) → HasItems ds list
        → IfOk result (λ v. answer_view v ≡ instructions_body ds) }
{
    let items = list.build()?;
    Ok(Answer::Instructions(items))
}

/// Returns the answer that has the files of the program's source.
pub fn sources_body(list: ItemList) -> Result<Answer, AllocError>
    ensures { (ds : List SeenItem) → HasItems ds list
        → IfOk result (λ v. answer_view v ≡ sources_body ds) }
{
    let items = list.build()?;
    Ok(Answer::Sources(items))
}

/// Returns the answer that has variables, if memory did not run out for them.
pub fn variables_body(variables: Result<Vec<Item>, AllocError>) -> Result<Answer, AllocError>
    ensures { (ds : List SeenItem) → IfOk variables (λ items. map item_view items.items ≡ ds)
        → IfOk result (λ v. answer_view v ≡ variables_body ds) }
{
    let items = variables?;
    Ok(Answer::Variables(items))
}

/// Returns the answer that has some frames, and how many there are, if memory did not run out for
/// the frames.
pub fn frames_body(frames: Result<Vec<Item>, AllocError>, total: u64) -> Result<Answer, AllocError>
    ensures { (ds : List SeenItem) → IfOk frames (λ items. map item_view items.items ≡ ds)
        → IfOk result (λ v. answer_view v ≡ frames_body ds total) }
{
    let frames = frames?;
    Ok(Answer::Frames { frames, total })
}

/// Returns what a look is answered by, if memory did not run out for its words. A byte of memory
/// has its address.
pub fn look_body(
    address: Option<u16>,
    words: Result<String, AllocError>,
) -> Result<Answer, AllocError>
    ensures { (bytes : List ℕ) → IfOk words (λ s. string_bytes s ≡ bytes)
        → IfOk result (λ v. answer_view v ≡ look_body address bytes) }
{
    let words = words?;
    Ok(Answer::Look { address, words })
}

/// Returns the answer that has bytes of memory from an address on, written in Base64, and how many
/// more were asked for, if memory did not run out for the text.
pub fn memory_body(
    address: u16,
    text: Result<String, AllocError>,
    unread: u64,
) -> Result<Answer, AllocError>
    ensures { (bytes : List ℕ) → IfOk text (λ s. string_bytes s ≡ bytes)
        → IfOk result (λ v. answer_view v ≡ memory_body address bytes unread) }
{
    let text = text?;
    Ok(Answer::Memory {
        address,
        text,
        unread,
    })
}

/// Returns why the machine stands, as what the protocol calls an exception.
pub fn exception(alloc: Global, words: &str) -> Result<Answer, AllocError>
    ensures { IfOk result (λ v. answer_view v ≡ exception_body words.now) }
{
    let words = String::from_str(alloc, words)?;
    Ok(Answer::Exception(words))
}

/// Returns that nothing can be watched, with words of why.
pub fn no_data(alloc: Global, words: &str) -> Result<Answer, AllocError>
    ensures { IfOk result (λ v. answer_view v ≡ no_data words.now) }
{
    let words = String::from_str(alloc, words)?;
    Ok(Answer::NoData(words))
}
