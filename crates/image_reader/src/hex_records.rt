//! The records of Intel HEX.

ghost use Rattle.std.specs.Prelude.{◌≡◌, ◌+◌, ◌≤◌, length, slice_index};
ghost use Rattle.image_reader.specs.HexRecords.{after_hex, hex_base, hex_data, hex_end, hex_line, hex_start};
ghost use Rattle.image_reader.specs.Progress.{Gives};

use crate::fault::{LineFault, RecordFaultKind};
use crate::reading::{Place, Reading};
use crate::record::{part, record_bytes, word};

/// The fault of a record that has another number of data bytes than its type.
const BAD_LENGTH: LineFault = LineFault {
    kind: RecordFaultKind::BadLength,
    column: 2,
};

/// Puts the data of a record.
fn hex_data(reading: &mut Reading, bytes: &[u8]) -> Result<(), LineFault>
    requires { length bytes.now ≡ 5 + slice_index bytes.now 0 }
    ensures { Gives result reading.new (hex_data bytes.now reading.old) }
{
    let data = part(bytes, 4, bytes[0] as usize);
    let address = reading.based(word(bytes, 1));
    reading.store(4, address, data)
}

/// Ends the text.
fn hex_end(reading: &mut Reading, bytes: &[u8]) -> Result<(), LineFault>
    requires { length bytes.now ≡ 5 + slice_index bytes.now 0 }
    ensures { Gives result reading.new (hex_end bytes.now reading.old) }
{
    if bytes[0] == 0 {
        reading.set_place(Place::Ended);
        return Ok(());
    }
    Err(BAD_LENGTH)
}

/// Sets the base, in units of so many bytes.
fn hex_base(reading: &mut Reading, unit: u32, bytes: &[u8]) -> Result<(), LineFault>
    requires size { length bytes.now ≡ 5 + slice_index bytes.now 0 }
    requires unit { unit ≤ 65536 }
    ensures { Gives result reading.new (hex_base unit bytes.now reading.old) }
{
    if bytes[0] == 2 {
        reading.set_base(unit * word(bytes, 4) as u32);
        return Ok(());
    }
    Err(BAD_LENGTH)
}

/// Reads where the program starts, which changes no image.
fn hex_start(reading: &mut Reading, bytes: &[u8]) -> Result<(), LineFault>
    requires { length bytes.now ≡ 5 + slice_index bytes.now 0 }
    ensures { Gives result reading.new (hex_start bytes.now reading.old) }
{
    if bytes[0] == 4 {
        return Ok(());
    }
    Err(BAD_LENGTH)
}

/// Does what the bytes of a record say.
#[tactic(auto, unfolding(crate::specs::HexRecords::after_hex))]
fn after_hex(reading: &mut Reading, bytes: &[u8]) -> Result<(), LineFault>
    requires { length bytes.now ≡ 5 + slice_index bytes.now 0 }
    ensures { Gives result reading.new (after_hex reading.old bytes.now) }
{
    match bytes[3] {
        0 => hex_data(reading, bytes),
        1 => hex_end(reading, bytes),
        2 => hex_base(reading, 16, bytes),
        3 => hex_start(reading, bytes),
        4 => hex_base(reading, 65536, bytes),
        5 => hex_start(reading, bytes),
        _ => Err(LineFault {
            kind: RecordFaultKind::UnknownType,
            column: 8,
        }),
    }
}

/// Reads a line of Intel HEX.
///
/// Errors: `NoMark` if it does not begin with `:`; those of the record's digits and checksum;
/// `UnknownType`, `BadLength` and `PastEnd` in the columns of the type, the length and the offset.
#[tactic(auto, unfolding(crate::specs::HexRecords::hex_line))]
pub fn hex_line(reading: &mut Reading, line: &[u8]) -> Result<(), LineFault>
    requires { length line.now ≤ 523 }
    ensures { Gives result reading.new (hex_line reading.old line.now) }
{
    match line {
        [] => Ok(()),
        [b':', digits @ ..] => {
            let bytes = record_bytes(1, 5, 0, digits)?;
            after_hex(reading, bytes.as_slice())
        }
        _ => Err(LineFault {
            kind: RecordFaultKind::NoMark,
            column: 1,
        }),
    }
}
