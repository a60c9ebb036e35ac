//! The address and the size of a line.

ghost use Rattle.std.specs.Prelude.{None, ◌≡◌, ◌+◌, ◌-◌, ◌<◌, ◌≤◌, ◌^◌, ◌*◌, map, max, pos, length};
ghost use Rattle.std.specs.Prelude.{IfOk};
ghost use Rattle.line_parts.specs.TermViews.{term_view};
ghost use Rattle.line_parts.specs.LineViews.{statement_view, item_view, operand_view};
ghost use Rattle.line_parts.specs.FewBytes.{IsSmall};
ghost use Rattle.layout.specs.Placements.{Shows, code_view, form_view, placement_of};
ghost use Rattle.line_parts.specs.Contents.{content_by, map_option};
ghost use Rattle.model.specs.Layout.{in_memory, code_for, length_in, placing_value, code_by_size, after_room};
ghost use Rattle.model.specs.Layout.{item_size, items_size, statement_at, size_of};
ghost use Rattle.model.specs.Value.{eval_of};
ghost use Rattle.model.specs.SourceLine.{instruction};

use crate::forms::{Form, form_of};
use line_parts::{Code, Expr, Item, Operand, Statement, term_of};
use model::{AsmFaultKind, ExprFault, Mnemonic, Mode, Profile};
use symbols::{Names, eval};

/// How a line's instruction is encoded, if it has one, its byte count, and the next line's address.
#[derive(Clone, Copy)]
pub struct Placement {
    pub code: Option<Code>,
    pub count: u32,
    pub next: u32,
}

impl Placement {
    /// Returns a line without bytes, and the next line's address.
    pub fn without_bytes(next: u32) -> Placement
        ensures { result ≡ record { code = None; count = 0; next = next } }
    {
        Placement {
            code: None,
            count: 0,
            next,
        }
    }

    /// Returns a line at an address with so many bytes.
    fn with_bytes(address: u32, code: Option<Code>, count: u32) -> Placement
        requires near { address < 2 ^ 31 - 510 }
        requires small { count ≤ 510 }
        ensures { result ≡ record { code = code; count = count; next = address + count } }
    {
        Placement {
            code,
            count,
            next: address + count,
        }
    }
}

/// Returns the value of an expression on a line at an address, or its first fault.
pub fn value_at<N: Names>(expr: &Expr<'_>, names: &N, address: u32) -> Result<i32, ExprFault>
    requires { address < 2 ^ 31 }
    ensures { result ≡ eval_of (N.number_of names.now) (pos address) (term_view expr.now) }
{
    eval(expr, names, address as i32)
}

/// Chooses between two modes by a value: zero page for 0..255, absolute if a name is not known.
fn code_by_size(
    short: Code,
    long: Code,
    value: Result<i32, ExprFault>,
) -> Result<Code, AsmFaultKind>
    ensures { Shows code_view result (code_by_size (code_view short) (code_view long) value) }
{
    match value {
        Ok(number) => {
            if (number >= 0) & (number <= 255) {
                Ok(short)
            } else {
                Ok(long)
            }
        }
        Err(ExprFault::UnknownName) => Ok(long),
        Err(ExprFault::Range) => Err(AsmFaultKind::ExprRange),
        Err(ExprFault::DivideByZero) => Err(AsmFaultKind::DivideByZero),
    }
}

/// Returns how an instruction is encoded, by the value of its operand if that decides.
fn code_of<N: Names>(
    address: u32,
    names: &N,
    value: Option<&Expr<'_>>,
    form: Option<Form>,
) -> Result<Code, AsmFaultKind>
    requires { address < 2 ^ 31 }
    ensures { Shows code_view result (code_for (N.number_of names.now) address
        (map_option (λ e. term_view e.now) value.entry) (map_option form_view form)) }
{
    match form {
        None => Err(AsmFaultKind::NoSuchForm),
        Some(Form::One(code)) => Ok(code),
        Some(Form::BySize(short, long)) => match value {
            None => Ok(long),
            Some(value) => code_by_size(short, long, value_at(value, names, address)),
        },
    }
}

/// Returns the value of an expression that places.
pub fn placing_value(value: Result<i32, ExprFault>) -> Result<i32, AsmFaultKind>
    ensures { result ≡ placing_value value }
{
    match value {
        Ok(number) => Ok(number),
        Err(ExprFault::UnknownName) => Err(AsmFaultKind::UnknownHere),
        Err(ExprFault::Range) => Err(AsmFaultKind::ExprRange),
        Err(ExprFault::DivideByZero) => Err(AsmFaultKind::DivideByZero),
    }
}

/// Returns an address to go on from, if it is one.
fn in_memory(number: i32) -> Result<u32, AsmFaultKind>
    ensures exact { result ≡ in_memory number }
    ensures near { IfOk result (λ n. n ≤ 65535) }
{
    if number < 0 || number > 65535 {
        return Err(AsmFaultKind::OriginRange);
    }
    Ok(number as u32)
}

/// Returns how many bytes an instruction has in a mode.
fn length_in(mode: Mode) -> u32
    ensures exact { result ≡ length_in mode }
    ensures near { result ≤ 3 }
{
    match mode {
        Mode::Imp | Mode::Acc => 1,
        Mode::Imm | Mode::Zp | Mode::ZpX | Mode::ZpY => 2,
        Mode::IndX | Mode::IndY | Mode::IndZ | Mode::Rel => 2,
        Mode::Abs | Mode::AbsX | Mode::AbsY | Mode::Ind => 3,
    }
}

/// Returns the address after so many bytes, none of them past 65535.
fn after_room(address: u32, number: i32) -> Result<u32, AsmFaultKind>
    requires { address < 2 ^ 31 }
    ensures exact { result ≡ after_room address number }
    ensures near { IfOk result (λ n. n ≤ 65536) }
{
    if number < 0 {
        return Err(AsmFaultKind::OriginRange);
    }
    let end = address + number as u32;
    if end > 65536 {
        return Err(AsmFaultKind::OriginRange);
    }
    Ok(end)
}

/// Returns how many bytes an item has.
fn item_size(item: &Item<'_>) -> usize
    ensures { result ≡ item_size (item_view item.now) }
{
    match item {
        Item::Value(_) => 1,
        Item::Text(text) => text.len(),
    }
}

/// Returns how many bytes items have.
#[tactic(auto, using(crate::proofs::Sizes::size_next, crate::proofs::Sizes::size_end))]
fn items_size(items: &[Item<'_>]) -> u32
    requires { items_size (map item_view items.now) ≤ 510 }
    ensures { result ≡ items_size (map item_view items.now) }
{
    let mut size = 0u32;
    for item in items {
        size += item_size(item) as u32;
    }
    size
}

/// Lays out an instruction at an address.
#[tactic(auto, unfolding(model::specs::Layout::statement_at, model::specs::Layout::size_of))]
fn instruct<N: Names>(
    profile: Profile,
    address: u32,
    names: &N,
    mnemonic: Mnemonic,
    operand: &Operand<'_>,
) -> Result<Placement, AsmFaultKind>
    requires { address < 2 ^ 31 - 510 }
    ensures exact { Shows (placement_of address (instruction mnemonic (operand_view operand.now)))
        result
        (statement_at profile (N.number_of names.now) address
        (instruction mnemonic (operand_view operand.now))) }
    ensures near { IfOk result (λ s. s.next ≤ address + 510) }
    ensures small { IfOk result (λ s. s.count ≤ 510) }
    ensures sized { IfOk result (λ s. s.count
        ≡ size_of (content_by s.code (instruction mnemonic (operand_view operand.now)))) }
{
    let code = code_of(
        address,
        names,
        term_of(operand),
        form_of(profile, mnemonic, operand),
    )?;
    Ok(Placement::with_bytes(address, Some(code), length_in(code.mode)))
}

/// Lays out a statement at an address, or returns its layout fault.
#[tactic(auto, unfolding(model::specs::Layout::statement_at, model::specs::Layout::size_of))]
pub fn place_statement<N: Names>(
    profile: Profile,
    address: u32,
    names: &N,
    statement: &Statement<'_>,
) -> Result<Placement, AsmFaultKind>
    requires room { address < 2 ^ 31 - 510 }
    requires small { IsSmall (statement_view statement.now) }
    ensures exact { Shows (placement_of address (statement_view statement.now)) result
        (statement_at profile (N.number_of names.now) address (statement_view statement.now)) }
    ensures near { IfOk result (λ s. s.next ≤ max (address + 510) 65536) }
    ensures small { IfOk result (λ s. s.count ≤ 510) }
    ensures sized { IfOk result (λ s. s.count
        ≡ size_of (content_by s.code (statement_view statement.now))) }
{
    match statement {
        Statement::Nothing | Statement::Finish => Ok(Placement::without_bytes(address)),
        Statement::Origin(value) => {
            let next = in_memory(placing_value(value_at(value, names, address))?)?;
            Ok(Placement::without_bytes(next))
        }
        Statement::Bytes(items) => Ok(Placement::with_bytes(address, None, items_size(items))),
        Statement::Words(values) | Statement::WordsHighFirst(values) => {
            Ok(Placement::with_bytes(address, None, 2 * values.len() as u32))
        }
        Statement::Reserve(value) => {
            let next = after_room(address, placing_value(value_at(value, names, address))?)?;
            Ok(Placement::without_bytes(next))
        }
        Statement::Instruction(mnemonic, operand) => instruct(
            profile, address, names, *mnemonic, operand,
        ),
    }
}
