//! What a listing of 64tass adds to what was read.

ghost use Rattle.std.specs.Prelude.{◌≡◌, ◌≤◌, ◌<◌, ◌+◌, Ok, true};
ghost use Rattle.debug_listings.specs.Lines.{said_view};
ghost use Rattle.debug_listings.specs.Listing.{can_repeat, first_by, first_in, goes_on, in_file};
ghost use Rattle.debug_listings.specs.Listing.{is_full, with_begun, with_bytes, with_bytes_if};
ghost use Rattle.debug_listings.specs.Listing.{with_columns, with_form, with_head, with_more};
ghost use Rattle.debug_listings.specs.Listing.{with_numbered, with_repeated, with_said};
ghost use Rattle.debug_listings.specs.Reading.{reading_view};
ghost use Rattle.debug_records.specs.Faults.{Gives};

use crate::line::{Bytes, Said, begins, fault_at};
use crate::reading::{Columns, Form, Reading, Span, flush, take_file};
use debug_records::{DebugFaultKind, LineError, record_at};

/// Takes a head.
fn take_head<'a>(
    reading: &mut Reading<'a>,
    line: &[u8],
    number: u32,
    name: &'a [u8],
) -> Result<(), LineError>
    ensures { Gives (λ _. reading_view reading.new) result
        (with_head line.now number name.now (reading_view reading.old)) }
{
    flush(reading, line)?;
    take_file(reading, line, number, name)
}

/// Takes the number of a file, if there is one, whose head came before.
fn turn_to(reading: &mut Reading<'_>, line: &[u8], file: Option<u32>) -> Result<(), LineError>
    ensures { Gives (λ _. reading_view reading.new) result
        (in_file line.now file (reading_view reading.old)) }
{
    let Some(file) = file else {
        return Ok(());
    };
    if record_at(&reading.info.files, file).is_none() {
        return Err(LineError::Fault(fault_at(DebugFaultKind::NoRecord, line)));
    }
    reading.file = Some(file);
    Ok(())
}

/// Takes bytes of a line of the file that is read.
fn begin(reading: &mut Reading<'_>, line: &[u8], number: u32, bytes: Bytes) -> Result<(), LineError>
    ensures { Gives (λ _. reading_view reading.new) result
        (with_begun line.now number reading.old.file bytes (reading_view reading.old)) }
{
    let Some(file) = reading.file else {
        return Err(LineError::Fault(fault_at(DebugFaultKind::NoRecord, line)));
    };
    reading.last = Some(Span {
        file,
        line: number,
        start: bytes.start,
        size: bytes.count as u32,
        is_data: bytes.is_data,
        is_close: true,
    });
    Ok(())
}

/// Takes bytes of a line that has a number.
fn take_numbered(
    reading: &mut Reading<'_>,
    line: &[u8],
    number: u32,
    bytes: Bytes,
) -> Result<(), LineError>
    ensures { Gives (λ _. reading_view reading.new) result
        (with_numbered line.now number bytes (reading_view reading.old)) }
{
    flush(reading, line)?;
    begin(reading, line, number, bytes)
}

/// Returns how many bytes of a line the first row has where others follow, which have 16.
fn first_in(form: Form) -> u8
    ensures { result ≡ first_in form }
{
    match form {
        Form::Listing(Some(columns)) => columns.first,
        Form::Listing(None) | Form::Report(_) => 8,
    }
}

/// Returns whether bytes are data whose rows are full so far.
fn is_full(form: Form, last: Span) -> bool
    ensures { result ≡ is_full form last }
{
    last.is_data && last.size % 16 == first_in(form) as u32 % 16
}

/// Returns whether bytes go on with the data that were read last.
fn goes_on(form: Form, last: Span, bytes: Bytes) -> bool
    ensures more { result ≡ goes_on form last bytes }
    ensures small { result ≡ true → last.size < 65536 }
{
    is_full(form, last)
        && bytes.is_data
        && last.start as u64 + last.size as u64 == bytes.start as u64
}

/// Takes bytes without the number of a line.
fn take_more(reading: &mut Reading<'_>, line: &[u8], bytes: Bytes) -> Result<(), LineError>
    ensures { Gives (λ _. reading_view reading.new) result
        (with_more line.now reading.old.last bytes (reading_view reading.old)) }
{
    let Some(last) = reading.last else {
        return Err(LineError::Fault(fault_at(DebugFaultKind::NoLineNumber, line)));
    };
    if !goes_on(reading.form, last, bytes) {
        return Err(LineError::Fault(fault_at(DebugFaultKind::NoLineNumber, line)));
    }
    reading.last = Some(Span {
        size: last.size + bytes.count as u32,
        ..last
    });
    Ok(())
}

/// Returns whether so many bytes can go on with the data that were read last.
fn can_repeat(form: Form, last: Span, count: u32) -> bool
    ensures can { result ≡ can_repeat form last count }
    ensures small { result ≡ true → last.size + count ≤ 65536 }
{
    is_full(form, last) && count <= 65536 && last.size as u64 + count as u64 <= 65536
}

/// Takes so many bytes that repeat those before them.
fn take_repeated(reading: &mut Reading<'_>, line: &[u8], count: u32) -> Result<(), LineError>
    ensures { Gives (λ _. reading_view reading.new) result
        (with_repeated line.now reading.old.last count (reading_view reading.old)) }
{
    let Some(last) = reading.last else {
        return Err(LineError::Fault(fault_at(DebugFaultKind::NoLineNumber, line)));
    };
    if !can_repeat(reading.form, last, count) {
        return Err(LineError::Fault(fault_at(DebugFaultKind::NoLineNumber, line)));
    }
    reading.last = Some(Span {
        size: last.size + count,
        ..last
    });
    Ok(())
}

/// Takes bytes, with or without the number of a line.
fn take_bytes(
    reading: &mut Reading<'_>,
    line: &[u8],
    number: Option<u32>,
    bytes: Bytes,
) -> Result<(), LineError>
    ensures { Gives (λ _. reading_view reading.new) result
        (with_bytes line.now number bytes (reading_view reading.old)) }
{
    match number {
        None => take_more(reading, line, bytes),
        Some(number) => take_numbered(reading, line, number, bytes),
    }
}

/// Takes the bytes of a row, if it has some.
fn take_bytes_if(
    reading: &mut Reading<'_>,
    line: &[u8],
    number: Option<u32>,
    bytes: Option<Bytes>,
) -> Result<(), LineError>
    ensures { Gives (λ _. reading_view reading.new) result
        (with_bytes_if line.now number bytes (reading_view reading.old)) }
{
    match bytes {
        None => Ok(()),
        Some(bytes) => {
            if bytes.count == 0 {
                Ok(())
            } else {
                take_bytes(reading, line, number, bytes)
            }
        }
    }
}

/// Takes what a line says.
pub fn take_said<'a>(
    reading: &mut Reading<'a>,
    line: &[u8],
    said: Said<'a>,
) -> Result<(), LineError>
    ensures { Gives (λ _. reading_view reading.new) result
        (with_said line.now (said_view said.entry) (reading_view reading.old)) }
{
    match said {
        Said::Nothing => Ok(()),
        Said::Head { file, name } => take_head(reading, line, file, name),
        Said::Row { numbers, bytes } => {
            turn_to(reading, line, numbers.file)?;
            take_bytes_if(reading, line, numbers.line, bytes)
        }
        Said::Repeated(count) => take_repeated(reading, line, count),
    }
}

/// Returns how many bytes the first rows of lines have, by the line that names the columns.
fn first_by(line: &[u8]) -> u8
    ensures { result ≡ first_by line.now }
{
    if begins(line, b";Line\t;Offset\t;Hex\t\t;Monitor\t;Source")
        || begins(line, b";Line\t;Offset\t;PC\t;Hex\t\t;Monitor\t;Source")
    {
        8
    } else if begins(line, b";Line\t;Offset\t;Hex\t\t;Source")
        || begins(line, b";Line\t;Offset\t;PC\t;Hex\t\t;Source")
    {
        4
    } else {
        16
    }
}

/// Takes the columns of a listing.
fn take_form(reading: &mut Reading<'_>, has_run: bool, line: &[u8])
    ensures { Ok (reading_view reading.new)
        ≡ with_form has_run line.now (reading_view reading.old) }
{
    reading.form = Form::Listing(Some(Columns {
        has_run,
        first: first_by(line),
    }));
}

/// Takes a line before the columns were named.
pub fn take_columns(reading: &mut Reading<'_>, line: &[u8]) -> Result<(), LineError>
    ensures { Gives (λ _. reading_view reading.new) result
        (with_columns line.now (reading_view reading.old)) }
{
    if begins(line, b";Line\t;Offset\t;PC\t;Hex") {
        take_form(reading, true, line);
        Ok(())
    } else if begins(line, b";Line\t;Offset\t;Hex") {
        take_form(reading, false, line);
        Ok(())
    } else if begins(line, b";Offset") {
        Err(LineError::Fault(fault_at(DebugFaultKind::NoNumbers, line)))
    } else if begins(line, b";Line") {
        Err(LineError::Fault(fault_at(DebugFaultKind::NoColumns, line)))
    } else {
        Ok(())
    }
}
