//! The memory that a screen shows at first.

ghost use Rattle.std.specs.Prelude.{◌≡◌, ◌+◌, ◌*◌, find};
ghost use Rattle.mon_screen.specs.Stored.{address_in, first_stretch, is_apart, is_store};
ghost use Rattle.mon_screen.specs.Stored.{names_address, page_of, stores_apart, stores_by};

use debugger::Session;
use model::{Mode, Operation, Row as OpcodeRow};
use mon_lines::Stretch;
use optable::{decode_in, operation};
use source_map::{Places, Row};

/// Returns whether an operation stores at the address of its operand.
fn is_store(operation: Operation) -> bool
    ensures { result ≡ is_store operation }
{
    matches!(operation, Operation::Store(_) | Operation::Modify(_))
}

/// Returns whether an address stands behind the opcode, to which an index may be added.
fn names_address(mode: Mode) -> bool
    ensures { result ≡ names_address mode }
{
    matches!(mode, Mode::Abs | Mode::AbsX | Mode::AbsY)
}

/// Returns whether an instruction stores at such an address, or behind it.
fn stores_by(row: Option<OpcodeRow>) -> bool
    ensures { result ≡ stores_by row }
{
    match row {
        Some(row) => is_store(operation(row.mnemonic)) && names_address(row.mode),
        None => false,
    }
}

/// Returns whether memory at an address is no port, and neither page zero nor the stack, which are
/// shown anyway.
fn is_apart(session: &Session, address: u16) -> bool
    ensures { result ≡ is_apart session.now.current.bus.map address }
{
    0x0200 <= address && !session.is_port(address)
}

/// Returns the address behind the opcode of a line.
fn address_in(line: Row) -> u16
    ensures { result ≡ address_in line }
{
    u16::from_le_bytes([line.bytes[1], line.bytes[2]])
}

/// Returns whether a line is an instruction that stores at an address apart, or behind it.
fn stores_apart(session: &Session, line: Row) -> bool
    ensures { result ≡ stores_apart session.now.current.bus.map line }
{
    line.is_instruction
        && stores_by(decode_in(session.profile(), line.bytes[0]))
        && is_apart(session, address_in(line))
}

/// Returns the first of some lines that stores so.
fn first_store(session: &Session, lines: &[Row]) -> Option<Row>
    ensures { result ≡ find (stores_apart session.now.current.bus.map) lines.now }
{
    for line in lines {
        if stores_apart(session, *line) {
            return Some(*line);
        }
    }
    None
}

/// Returns the page of the address behind the opcode of a line, that of $0200 without a line.
fn page_of(line: Option<Row>) -> Stretch
    ensures { result ≡ page_of line }
{
    match line {
        Some(line) => {
            let first = 256 * line.bytes[2] as u16;
            Stretch {
                first,
                last: first + 255,
            }
        }
        None => Stretch {
            first: 0x0200,
            last: 0x02ff,
        },
    }
}

/// Returns the memory that a screen shows until a line asks for another: the page of the address at
/// which the first line of the source stores that names one from $0200 on, but for the port; that
/// of $0200 if no line does.
pub fn first_stretch(session: &Session, places: &Places) -> Stretch
    ensures { result ≡ first_stretch session.now.current.bus.map places.now.lines }
{
    page_of(first_store(session, places.rows()))
}
