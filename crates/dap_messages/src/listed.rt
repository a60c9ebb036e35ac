//! What a client has listed, and what it was told.

ghost use Rattle.std.specs.Prelude.{◌≡◌, [], length};
ghost use Rattle.dap_messages.specs.Listed.{addresses_of, functions_of, lines_of, reserved};
ghost use Rattle.dap_messages.specs.Listed.{reserving};

use crate::halt::Reason;
use crate::message::next_number;
use crate::request::{DataBreakpoint, FunctionBreakpoint, InstructionBreakpoint, SourceBreakpoint};
use std::alloc::Global;

/// A breakpoint that stands at an address, with its number, and the file of the source of which it
/// stands at a line, if it was listed so.
#[derive(Clone, Copy)]
pub struct Placed {
    pub id: u64,
    pub address: u16,
    pub file: Option<usize>,
}

/// Breakpoints at lines, as a client has listed them. The first has this number, and each other the
/// number behind that of the one before.
#[derive(Drop)]
pub struct LineList {
    pub first: u64,
    pub list: Vec<SourceBreakpoint>,
}

/// Breakpoints at lines of a file of the source.
#[derive(Drop)]
pub struct FileLines {
    pub file: usize,
    pub lines: LineList,
}

/// Breakpoints at addresses, as a client has listed them, numbered so too.
#[derive(Drop)]
pub struct AddressList {
    pub first: u64,
    pub list: Vec<InstructionBreakpoint>,
}

/// Breakpoints at names, as a client has listed them, numbered so too.
#[derive(Drop)]
pub struct FunctionList {
    pub first: u64,
    pub list: Vec<FunctionBreakpoint>,
}

/// The breakpoints that a client has listed.
#[derive(Drop)]
pub struct Listed {
    /// Where those at lines stand that are set.
    pub lines: Vec<Placed>,
    /// Where those at addresses stand that are set.
    pub addresses: Vec<Placed>,
    /// Where those at names stand that are set.
    pub functions: Vec<Placed>,
    /// What the last request for each file of the source has listed.
    pub last_lines: Vec<FileLines>,
    /// What the last request for each other kind has listed, if there was one.
    pub last_addresses: Option<AddressList>,
    pub last_functions: Option<FunctionList>,
    pub last_bytes: Option<Vec<DataBreakpoint>>,
    /// The number of the next breakpoint that is listed.
    pub next: u64,
}

impl Listed {
    /// Makes that of a client that has listed none.
    pub fn new(alloc: Global) -> Listed
        ensures lines { result.lines.items ≡ [] }
        ensures addresses { result.addresses.items ≡ [] }
        ensures functions { result.functions.items ≡ [] }
        ensures last { result.last_lines.items ≡ [] }
    {
        Listed {
            lines: Vec::new(alloc),
            addresses: Vec::new(alloc),
            functions: Vec::new(alloc),
            last_lines: Vec::new(alloc),
            last_addresses: None,
            last_functions: None,
            last_bytes: None,
            next: 1,
        }
    }
}

/// Returns the number behind so many numbers, of which the first is given.
fn behind(first: u64, count: usize) -> u64
    ensures { result ≡ reserved first count }
{
    let mut next = first;
    for _ in 0..count {
        next = next_number(next);
    }
    next
}

/// Returns the number of the first of so many breakpoints that are listed. The next one that is
/// listed has the number behind the last of them.
fn reserve(listed: &mut Listed, count: usize) -> u64
    ensures first { result ≡ listed.old.next }
    ensures next { listed.new ≡ reserving count listed.old }
{
    let first = listed.next;
    listed.next = behind(first, count);
    first
}

/// Returns breakpoints at lines that a client lists, with their numbers.
pub fn number_lines(listed: &mut Listed, list: Vec<SourceBreakpoint>) -> LineList
    ensures list { result ≡ lines_of listed.old list }
    ensures next { listed.new ≡ reserving (length list.items) listed.old }
{
    let first = reserve(listed, list.len());
    LineList { first, list }
}

/// Returns breakpoints at addresses that a client lists, with their numbers.
pub fn number_addresses(listed: &mut Listed, list: Vec<InstructionBreakpoint>) -> AddressList
    ensures list { result ≡ addresses_of listed.old list }
    ensures next { listed.new ≡ reserving (length list.items) listed.old }
{
    let first = reserve(listed, list.len());
    AddressList { first, list }
}

/// Returns breakpoints at names that a client lists, with their numbers.
pub fn number_functions(listed: &mut Listed, list: Vec<FunctionBreakpoint>) -> FunctionList
    ensures list { result ≡ functions_of listed.old list }
    ensures next { listed.new ≡ reserving (length list.items) listed.old }
{
    let first = reserve(listed, list.len());
    FunctionList { first, list }
}

/// What a client was told: how many of the bytes that the program put out, why the machine stands,
/// and whether the program has ended.
#[derive(Drop)]
pub struct Told {
    pub count: u32,
    pub reason: Reason,
    pub words: String,
    pub is_over: bool,
}
