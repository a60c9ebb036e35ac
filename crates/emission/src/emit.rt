//! The bytes of a line in its place, or its value fault.

ghost use Rattle.std.specs.Prelude.{◌≡◌, ◌+◌, ◌<◌, ◌≤◌, ◌^◌, ◌-◌, ◌∷◌, [], nat_lt, pos, length};
ghost use Rattle.std.specs.Prelude.{map, IfErr, IfOk, OnErr, OnOk, Ok, Some, Err};
ghost use Rattle.line_parts.specs.TermViews.{term_view};
ghost use Rattle.emission.specs.Gathering.{Stores, with_piece, with_pieces, item_pieces, line_gathering};
ghost use Rattle.emission.specs.Gathering.{with_fault_if, with_faults, nothing_gathered, with_fault};
ghost use Rattle.emission.specs.Gathering.{expr_bytes, piece_view, value_pieces, word_bytes_in};
ghost use Rattle.emission.specs.Gathering.{word_piece_in};
ghost use Rattle.line_parts.specs.KeptLines.{placed_line_of};
ghost use Rattle.line_parts.specs.LineViews.{Gives, statement_view, item_view};
ghost use Rattle.line_parts.specs.Contents.{content_by, map_option};
ghost use Rattle.model.specs.Bytes.{item_piece, pieces_of, address_piece, after_opcode};
ghost use Rattle.model.specs.Bytes.{branch_piece, byte_piece, distance_piece, has_bytes, has_port};
ghost use Rattle.model.specs.Bytes.{kind_if, lower, lowest, modulo, operand_piece, place_kinds};
ghost use Rattle.model.specs.Bytes.{value_fault, within, zero_page_piece};
ghost use Rattle.law_sources.specs.Judging.{image_with_line};
ghost use Rattle.model.specs.Names.{number_in};
ghost use Rattle.model.specs.Layout.{size_of};
ghost use Rattle.model.specs.OneLineAssembly.{bytes_alone, no_numbers};
ghost use Rattle.model.specs.declared.source_fault.AsmFaultKind.TheVariants.{PastEnd};
ghost use Rattle.model.specs.Image.{has_byte, with_bytes};
ghost use Rattle.model.specs.Value.{eval_of};

use line_parts::{Code, Expr, Item, KeptLine, LineError, Statement, term_of};
use memory_map::{Image, MapSpec};
use model::{AsmFaultKind, ExprFault, Mode};
use std::alloc::{AllocError, Global};
use std::marker::Model;
use symbols::{Symbols, eval};

/// The bytes of one expression.
#[derive(Clone, Copy, Debug, PartialEq, Eq)]
pub enum ExprBytes {
    Nothing,
    Byte(u8),
    /// The first byte and the second.
    Word(u8, u8),
}

/// Which byte of a word comes first.
#[derive(Clone, Copy)]
pub enum ByteOrder {
    /// As in `.WORD` and in addresses.
    LowFirst,
    /// As in `.DBYTE`.
    HighFirst,
}

/// Returns the value of an expression on a line at an address, under all names, or its first fault.
fn number_at(value: &Expr<'_>, names: &Symbols, here: u32) -> Result<i32, ExprFault>
    requires { here < 2 ^ 31 }
    ensures { result ≡ eval_of (number_in names.now) (pos here) (term_view value.now) }
{
    eval(value, names, here as i32)
}

/// Returns a value if it is within bounds.
fn within(
    value: Result<i32, ExprFault>,
    least: i32,
    most: i32,
    kind: AsmFaultKind,
) -> Result<i32, AsmFaultKind>
    ensures { result ≡ within least most kind value }
{
    match value {
        Ok(number) => {
            if (number < least) | (number > most) {
                Err(kind)
            } else {
                Ok(number)
            }
        }
        Err(ExprFault::UnknownName) => Err(AsmFaultKind::UndefinedName),
        Err(ExprFault::Range) => Err(AsmFaultKind::ValueExprRange),
        Err(ExprFault::DivideByZero) => Err(AsmFaultKind::ValueDivideByZero),
    }
}

/// Encodes a number modulo 256 as one byte.
fn byte_of(number: i32) -> ExprBytes
    ensures { expr_bytes result ≡ modulo number 256 ∷ [] }
{
    ExprBytes::Byte(number.rem_euclid(256) as u8)
}

/// Encodes a number modulo 65536, its bytes in this order.
fn word_of(number: i32, order: ByteOrder) -> ExprBytes
    ensures { expr_bytes result ≡ word_bytes_in order (modulo number 65536) }
{
    let word = number.rem_euclid(65536) as u16;
    let (low, high) = ((word % 256) as u8, (word / 256) as u8);
    match order {
        ByteOrder::LowFirst => ExprBytes::Word(low, high),
        ByteOrder::HighFirst => ExprBytes::Word(high, low),
    }
}

/// Encodes one byte: -128..255.
#[tactic(auto, unfolding(model::specs::Bytes::byte_piece))]
fn byte(value: Result<i32, ExprFault>) -> Result<ExprBytes, AsmFaultKind>
    ensures { piece_view result ≡ byte_piece value }
{
    let number = within(value, -128, 255, AsmFaultKind::ByteRange)?;
    Ok(byte_of(number))
}

/// Encodes an address in the zero page: 0..255.
#[tactic(auto, unfolding(model::specs::Bytes::zero_page_piece))]
fn zero_page(value: Result<i32, ExprFault>) -> Result<ExprBytes, AsmFaultKind>
    ensures { piece_view result ≡ zero_page_piece value }
{
    let number = within(value, 0, 255, AsmFaultKind::ByteRange)?;
    Ok(byte_of(number))
}

/// Encodes two bytes in this order: -32768..65535.
fn word(value: Result<i32, ExprFault>, order: ByteOrder) -> Result<ExprBytes, AsmFaultKind>
    ensures { piece_view result ≡ word_piece_in order value }
{
    let number = within(value, -32768, 65535, AsmFaultKind::WordRange)?;
    Ok(word_of(number, order))
}

/// Encodes an address: 0..65535.
#[tactic(auto, unfolding(model::specs::Bytes::address_piece))]
fn address(value: Result<i32, ExprFault>) -> Result<ExprBytes, AsmFaultKind>
    ensures { piece_view result ≡ address_piece value }
{
    let number = within(value, 0, 65535, AsmFaultKind::WordRange)?;
    Ok(word_of(number, ByteOrder::LowFirst))
}

/// Encodes a branch's distance modulo 65536, if it is -128..127.
fn distance(distance: u32) -> Result<ExprBytes, AsmFaultKind>
    ensures { piece_view result ≡ distance_piece distance }
{
    if (distance <= 127) | (65408 <= distance) {
        Ok(ExprBytes::Byte((distance % 256) as u8))
    } else {
        Err(AsmFaultKind::BranchRange)
    }
}

/// Encodes the distance of a branch at an address to its target.
#[tactic(auto, unfolding(model::specs::Bytes::branch_piece))]
fn branch(here: u32, value: Result<i32, ExprFault>) -> Result<ExprBytes, AsmFaultKind>
    requires { here < 2 ^ 31 - 510 }
    ensures { piece_view result ≡ branch_piece here value }
{
    let target = within(value, 0, 65535, AsmFaultKind::WordRange)?;
    let from_next = target - (here as i32 + 2);
    distance(from_next.rem_euclid(65536) as u32)
}

/// Encodes what comes after an opcode at an address.
#[tactic(auto, unfolding(model::specs::Bytes::operand_piece))]
fn operand(here: u32, mode: Mode, value: Result<i32, ExprFault>) -> Result<ExprBytes, AsmFaultKind>
    requires { here < 2 ^ 31 - 510 }
    ensures { piece_view result ≡ operand_piece here mode value }
{
    match mode {
        Mode::Imp => Ok(ExprBytes::Nothing),
        Mode::Acc => Ok(ExprBytes::Nothing),
        Mode::Imm => byte(value),
        Mode::Zp => zero_page(value),
        Mode::ZpX => zero_page(value),
        Mode::ZpY => zero_page(value),
        Mode::Abs => address(value),
        Mode::AbsX => address(value),
        Mode::AbsY => address(value),
        Mode::IndX => zero_page(value),
        Mode::IndY => zero_page(value),
        Mode::Ind => address(value),
        Mode::Rel => branch(here, value),
        Mode::IndZ => zero_page(value),
    }
}

/// Returns the kind with the lower number, if there is one.
#[tactic(auto, unfolding(model::specs::Bytes::lower))]
fn lower(first: Option<AsmFaultKind>, second: Option<AsmFaultKind>) -> Option<AsmFaultKind>
    ensures { result ≡ lower first second }
{
    match first {
        None => second,
        Some(one) => match second {
            None => first,
            Some(other) => {
                if one.number() <= other.number() {
                    first
                } else {
                    second
                }
            }
        },
    }
}

/// A line's bytes so far, and the lowest kind of its faults so far.
#[derive(Drop)]
pub struct LineBytes {
    bytes: Vec<u8>,
    kind: Option<AsmFaultKind>,
}

impl Model for LineBytes {
    ghost use Rattle.emission.specs.Gathering.{Gathering};

    ghost Value = { Gathering };

    ghost view = { λ g. record { bytes = g.bytes.items; kind = g.kind } };
}

impl LineBytes {
    /// Makes an empty one.
    pub fn new(alloc: Global) -> LineBytes
        ensures { result ≡ nothing_gathered }
    {
        LineBytes {
            bytes: Vec::new(alloc),
            kind: None,
        }
    }

    /// Makes it empty again. The room stays, so the next line takes none.
    fn clear(&mut self)
        ensures { self.new ≡ nothing_gathered }
    {
        self.bytes.clear();
        self.kind = None;
    }

    /// Returns the lowest kind of its faults.
    pub fn kind(&self) -> Option<AsmFaultKind>
        ensures { result ≡ self.now.kind }
    {
        self.kind
    }

    /// Returns its bytes.
    pub fn bytes(&self) -> &[u8]
        ensures { result.now ≡ self.now.bytes }
    {
        &self.bytes
    }

    /// Returns its bytes, owned.
    fn into_bytes(self) -> Vec<u8>
        ensures { result.items ≡ self.bytes }
    {
        self.bytes
    }

    /// Notes a fault.
    fn refuse(&mut self, kind: AsmFaultKind)
        ensures { self.new ≡ with_fault self.old kind }
    {
        self.kind = lower(self.kind, Some(kind));
    }

    /// Notes a fault if a condition holds.
    #[tactic(auto, using(crate::proofs::Gathers::lower_nothing))]
    fn refuse_if(&mut self, holds: bool, kind: AsmFaultKind)
        ensures { self.new ≡ with_fault_if self.old (kind_if holds kind) }
    {
        if holds {
            self.refuse(kind);
        }
    }

    /// Appends bytes.
    fn push(&mut self, encoded: ExprBytes) -> Result<(), AllocError>
        ensures { OnOk result (self.new ≡ with_piece self.old (Ok (expr_bytes encoded))) }
    {
        match encoded {
            ExprBytes::Nothing => {}
            ExprBytes::Byte(byte) => self.bytes.push(byte)?,
            ExprBytes::Word(first, second) => {
                self.bytes.push(first)?;
                self.bytes.push(second)?;
            }
        }
        Ok(())
    }

    /// Appends bytes, or notes a fault.
    fn add(&mut self, piece: Result<ExprBytes, AsmFaultKind>) -> Result<(), AllocError>
        ensures { OnOk result (self.new ≡ with_piece self.old (piece_view piece)) }
    {
        match piece {
            Ok(encoded) => self.push(encoded),
            Err(kind) => {
                self.refuse(kind);
                Ok(())
            }
        }
    }

    /// Appends the bytes between the quotes of a string.
    fn push_text(&mut self, text: &[u8]) -> Result<(), AllocError>
        ensures { OnOk result (self.new ≡ with_piece self.old (Ok text.now)) }
    {
        self.bytes.extend_from_slice(text)
    }

    /// Appends an item of `.BYTE`.
    fn add_item(&mut self, names: &Symbols, here: u32, item: &Item<'_>) -> Result<(), AllocError>
        requires { here < 2 ^ 31 - 510 }
        ensures { OnOk result (self.new
            ≡ with_piece self.old (item_piece (number_in names.now) here (item_view item.now))) }
    {
        match item {
            Item::Value(value) => self.add(byte(number_at(value, names, here))),
            Item::Text(text) => self.push_text(text),
        }
    }

    /// Appends the bytes of `.BYTE`.
    fn add_items(
        &mut self,
        names: &Symbols,
        here: u32,
        items: &[Item<'_>],
    ) -> Result<(), AllocError>
        requires { here < 2 ^ 31 - 510 }
        ensures { OnOk result (self.new ≡ with_pieces self.old
            (item_pieces (number_in names.now) here (map item_view items.now))) }
    {
        for item in items {
            self.add_item(names, here, item)?;
        }
        Ok(())
    }

    /// Appends the bytes of `.WORD` or `.DBYTE`, by the order of the bytes in a word.
    fn add_words(
        &mut self,
        names: &Symbols,
        here: u32,
        values: &[Expr<'_>],
        order: ByteOrder,
    ) -> Result<(), AllocError>
        requires { here < 2 ^ 31 - 510 }
        ensures { OnOk result (self.new ≡ with_pieces self.old
            (value_pieces (word_piece_in order) (number_in names.now) here
            (map term_view values.now))) }
    {
        for value in values {
            self.add(word(number_at(value, names, here), order))?;
        }
        Ok(())
    }

    /// Appends what comes after an opcode.
    #[tactic(auto, unfolding(crate::specs::Gathering::with_pieces))]
    fn add_operand(
        &mut self,
        names: &Symbols,
        here: u32,
        mode: Mode,
        value: Option<&Expr<'_>>,
    ) -> Result<(), AllocError>
        requires { here < 2 ^ 31 - 510 }
        ensures { OnOk result (self.new ≡ with_pieces self.old
            (after_opcode (number_in names.now) here mode
            (map_option (λ e. term_view e.now) value.entry))) }
    {
        match value {
            None => Ok(()),
            Some(value) => self.add(operand(here, mode, number_at(value, names, here))),
        }
    }

    /// Appends all parts of a statement, an instruction by its opcode.
    #[tactic(auto, unfolding(model::specs::Bytes::pieces_of, model::specs::Bytes::word_piece, model::specs::Bytes::word_piece_high_first, crate::specs::Gathering::with_pieces))]
    fn add_statement(
        &mut self,
        names: &Symbols,
        here: u32,
        code: Option<Code>,
        statement: &Statement<'_>,
    ) -> Result<(), AllocError>
        requires { here < 2 ^ 31 - 510 }
        ensures { OnOk result (self.new ≡ with_pieces self.old
            (pieces_of (number_in names.now) here
            (content_by code (statement_view statement.now)))) }
    {
        match statement {
            Statement::Bytes(items) => self.add_items(names, here, items),
            Statement::Words(values) => self.add_words(names, here, values, ByteOrder::LowFirst),
            Statement::WordsHighFirst(values) => {
                self.add_words(names, here, values, ByteOrder::HighFirst)
            }
            Statement::Instruction(_, operand) => match code {
                Some(code) => {
                    self.push(ExprBytes::Byte(code.opcode))?;
                    self.add_operand(names, here, code.mode, term_of(operand))
                }
                None => Ok(()),
            },
            Statement::Nothing | Statement::Origin(_) | Statement::Reserve(_) | Statement::Finish =>
                Ok(()),
        }
    }
}

/// Returns whether an image has a byte at an address.
#[tactic(auto, unfolding(model::specs::Image::has_byte))]
fn has_byte(image: &Image, address: u32) -> bool
    ensures { result ≡ has_byte image.now address }
{
    let cells = image.cells();
    let at = address as usize;
    if at < cells.len() {
        cells[at].is_some()
    } else {
        false
    }
}

/// Returns whether an image has a byte at one of so many addresses from an address on.
fn has_bytes(image: &Image, address: u32, count: u32) -> bool
    requires { address + count < 2 ^ 32 }
    ensures { result ≡ has_bytes image.now address count }
{
    for i in 0..count {
        if has_byte(image, address + i) {
            return true;
        }
    }
    false
}

/// Returns whether one of so many addresses from an address on is a port address.
#[tactic(auto, using(crate::proofs::Ports::has_port_is))]
fn has_port(map: &MapSpec, address: u32, count: u32) -> bool
    requires { address + count < 2 ^ 32 }
    ensures { result ≡ has_port map.now address count }
{
    let port = map.port();
    (0 < count) & (address < port + 4) & (port < address + count)
}

/// Notes what is wrong with where bytes go, after what is wrong with the bytes.
#[tactic(auto, unfolding(model::specs::Bytes::place_kinds))]
fn judge_place(gathered: &mut LineBytes, map: &MapSpec, image: &Image, address: u32, count: u32)
    requires { address + count < 2 ^ 32 }
    ensures { gathered.new ≡ with_faults gathered.old
        (place_kinds map.now image.now address count) }
{
    let past_end = (0 < count) & (65536 < address + count);
    gathered.refuse_if(past_end, AsmFaultKind::PastEnd);
    gathered.refuse_if(has_bytes(image, address, count), AsmFaultKind::Overlap);
    gathered.refuse_if(has_port(map, address, count), AsmFaultKind::PortAddress);
}

/// Puts bytes into an image, none of them past address 65535.
fn store(image: &mut Image, address: u32, bytes: &[u8])
    requires { 0 < length bytes.now → address + length bytes.now ≤ 65536 }
    ensures { image.new ≡ with_bytes image.old address bytes.now }
{
    if !bytes.is_empty() {
        image.store(address as u16, bytes);
    }
}

/// Gathers the bytes of a line, and the lowest kind of all its value faults.
fn gather(
    gathered: &mut LineBytes,
    map: &MapSpec,
    image: &Image,
    names: &Symbols,
    line: &KeptLine<'_>,
) -> Result<(), AllocError>
    ensures { OnOk result (gathered.new
        ≡ line_gathering map.now (number_in names.now) image.now (placed_line_of line.now)) }
{
    gathered.clear();
    gathered.add_statement(names, line.address, line.code, &line.statement)?;
    judge_place(gathered, map, image, line.address, line.count);
    Ok(())
}

/// Gathers the bytes of a statement that is alone at an address, and the lowest kind of its faults.
///
/// Neither a port nor another line can be in its way.
fn gather_alone(
    alloc: Global,
    address: u32,
    code: Option<Code>,
    count: u32,
    statement: &Statement<'_>,
) -> Result<LineBytes, AllocError>
    requires near { address < 2 ^ 31 - 510 }
    requires small { count ≤ 510 }
    ensures { IfOk result (λ g. g ≡ with_fault_if (with_pieces nothing_gathered
        (pieces_of no_numbers address (content_by code (statement_view statement.now))))
        (kind_if (nat_lt 65536 (address + count)) PastEnd)) }
{
    let mut gathered = LineBytes::new(alloc);
    gathered.add_statement(&Symbols::new(alloc), address, code, statement)?;
    gathered.refuse_if(65536 < address + count, AsmFaultKind::PastEnd);
    Ok(gathered)
}

/// Returns the bytes of a statement that is alone at an address.
///
/// `count` is its number of bytes by the layout.
///
/// Errors: `Kind` with the lowest kind of its value faults; `Memory` if an allocation fails.
pub fn bytes_alone(
    alloc: Global,
    address: u32,
    code: Option<Code>,
    count: u32,
    statement: &Statement<'_>,
) -> Result<Vec<u8>, LineError>
    requires near { address < 2 ^ 31 - 510 }
    requires small { count ≤ 510 }
    requires sized { count ≡ size_of (content_by code (statement_view statement.now)) }
    ensures exact { Gives (λ bytes. bytes.items) result (bytes_alone
        (record { address = address; content = content_by code (statement_view statement.now) })) }
    ensures few { IfOk result (λ bytes. length bytes.items ≤ count) }
{
    let gathered = gather_alone(alloc, address, code, count, statement)?;
    match gathered.kind() {
        Some(kind) => Err(LineError::Kind(kind)),
        None => Ok(gathered.into_bytes()),
    }
}

/// Returns the value fault of a line after the lines that make an image, if it has one: the lowest
/// kind of all. The image stays as it is.
///
/// Errors: `AllocError` if an allocation fails.
pub fn value_fault(
    gathered: &mut LineBytes,
    map: &MapSpec,
    image: &Image,
    names: &Symbols,
    line: &KeptLine<'_>,
) -> Result<Option<AsmFaultKind>, AllocError>
    ensures { IfOk result
        (λ kind. kind ≡ value_fault map.now (number_in names.now) image.now
        (placed_line_of line.now)) }
{
    gather(gathered, map, image, names, line)?;
    Ok(gathered.kind())
}

/// Puts the bytes of a line into an image. If the line has a value fault, returns that fault and
/// leaves the image as it was.
pub fn put_line(
    gathered: &mut LineBytes,
    map: &MapSpec,
    image: &mut Image,
    names: &Symbols,
    line: &KeptLine<'_>,
) -> Result<(), LineError>
    ensures exact { Stores result image.new
        (image_with_line map.now (number_in names.now) image.old (placed_line_of line.now)) }
    ensures same { OnErr result (image.new ≡ image.old) }
{
    gather(gathered, map, image, names, line)?;
    match gathered.kind() {
        Some(kind) => Err(LineError::Kind(kind)),
        None => {
            store(image, line.address, gathered.bytes());
            Ok(())
        }
    }
}
