//! Motorola S-records.

ghost use Rattle.std.specs.Prelude.{◌≡◌, ◌+◌, ◌≤◌, ◌<◌, ◌^◌, IfSome, length, slice_index};
ghost use Rattle.image_reader.specs.Progress.{Gives};
ghost use Rattle.image_reader.specs.SRecords.{address_of, after_s, by_role, kind_of, s_line, s_rest};

use crate::fault::{LineFault, RecordFaultKind};
use crate::reading::{Place, Reading};
use crate::record::{part, record_bytes, word};

/// What the records of a type are for.
#[derive(Clone, Copy)]
pub enum Role {
    /// They say something of the text.
    Header,
    /// They have data.
    Data,
    /// They say how many data records came before.
    Count,
    /// They end the text.
    End,
}

/// The fault of a record that has another number of bytes than its type.
const BAD_LENGTH: LineFault = LineFault {
    kind: RecordFaultKind::BadLength,
    column: 3,
};

/// Returns what the records of a type are for, and how many bytes their address has.
fn kind_of(digit: u8) -> Option<(Role, u8)>
    ensures value { result ≡ kind_of digit }
    ensures width { IfSome result (λ kind. kind.1 ≤ 4) }
    ensures least { IfSome result (λ kind. 2 ≤ kind.1) }
{
    match digit {
        b'0' => Some((Role::Header, 2)),
        b'1' => Some((Role::Data, 2)),
        b'2' => Some((Role::Data, 3)),
        b'3' => Some((Role::Data, 4)),
        b'5' => Some((Role::Count, 2)),
        b'6' => Some((Role::Count, 3)),
        b'7' => Some((Role::End, 4)),
        b'8' => Some((Role::End, 3)),
        b'9' => Some((Role::End, 2)),
        _ => None,
    }
}

/// Returns the address of a record, of two, three or four bytes.
fn address_of(width: u8, bytes: &[u8]) -> u64
    requires size { width < length bytes.now }
    requires least { 2 ≤ width }
    requires most { width ≤ 4 }
    ensures value { result ≡ address_of width bytes.now }
    ensures within { result < 2 ^ 32 }
{
    let word = word(bytes, 1) as u64;
    if width == 2 {
        return word;
    }
    let three = word * 256 + bytes[3] as u64;
    if width == 3 {
        return three;
    }
    three * 256 + bytes[4] as u64
}

/// Does what a record says, by what its type is for.
fn by_role(reading: &mut Reading, role: Role, address: u64, bytes: &[u8]) -> Result<(), LineFault>
    requires place { address < 2 ^ 32 }
    requires short { length bytes.now ≤ 523 }
    ensures { Gives result reading.new (by_role role address bytes.now reading.old) }
{
    match role {
        Role::Header => reading.set_place(Place::Open),
        Role::Data => {
            reading.store(5, address, bytes)?;
            reading.count_one();
        }
        Role::Count => {
            if !bytes.is_empty() {
                return Err(BAD_LENGTH);
            }
            if address != reading.count() as u64 {
                return Err(LineFault {
                    kind: RecordFaultKind::BadCount,
                    column: 5,
                });
            }
            reading.set_place(Place::Counted);
        }
        Role::End => {
            if !bytes.is_empty() {
                return Err(BAD_LENGTH);
            }
            reading.set_place(Place::Ended);
        }
    }
    Ok(())
}

/// Does what the bytes of a record say.
#[tactic(auto, unfolding(crate::specs::SRecords::after_s))]
fn after_s(reading: &mut Reading, role: Role, width: u8, bytes: &[u8]) -> Result<(), LineFault>
    requires size { length bytes.now ≡ 1 + slice_index bytes.now 0 }
    requires short { length bytes.now ≤ 260 }
    requires least { 2 ≤ width }
    requires most { width ≤ 4 }
    ensures { Gives result reading.new (after_s role width reading.old bytes.now) }
{
    let front = width as usize + 1;
    let count = bytes[0] as usize;
    if count < front {
        return Err(BAD_LENGTH);
    }
    let data = part(bytes, 1 + width as usize, count - front);
    by_role(reading, role, address_of(width, bytes), data)
}

/// Reads a line behind its `S`.
fn s_rest(reading: &mut Reading, rest: &[u8]) -> Result<(), LineFault>
    requires { length rest.now ≤ 523 }
    ensures { Gives result reading.new (s_rest reading.old rest.now) }
{
    match rest {
        [] => Err(LineFault {
            kind: RecordFaultKind::ShortRecord,
            column: 2,
        }),
        [digit, digits @ ..] => match kind_of(*digit) {
            None => Err(LineFault {
                kind: RecordFaultKind::UnknownType,
                column: 2,
            }),
            Some((role, width)) => {
                let bytes = record_bytes(2, 1, 255, digits)?;
                after_s(reading, role, width, bytes.as_slice())
            }
        },
    }
}

/// Reads a line of S-records.
///
/// Errors: `NoMark` if it does not begin with `S`; `UnknownType` at the type; those of the record's
/// digits and checksum; `BadLength`, `PastEnd` and `BadCount` in the columns of the length, the
/// address and the count.
#[tactic(auto, unfolding(crate::specs::SRecords::s_line))]
pub fn s_line(reading: &mut Reading, line: &[u8]) -> Result<(), LineFault>
    requires { length line.now ≤ 523 }
    ensures { Gives result reading.new (s_line reading.old line.now) }
{
    match line {
        [] => Ok(()),
        [b'S', rest @ ..] => s_rest(reading, rest),
        _ => Err(LineFault {
            kind: RecordFaultKind::NoMark,
            column: 1,
        }),
    }
}
