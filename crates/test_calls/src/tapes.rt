//! Tapes that are cut, changed and read in pieces, and what no file shows. Tapes whose texts and
//! faults are known from outside stand in `crates/test_vectors/data`.

use bus::Image;
use papertape::{
    TapeFault, TapeFaultKind, TapeReader, read_pieces, read_tape, through_tape, write_tape,
};
use std::alloc::Global;
use std::process::Abort;
use std::test::Fail;

const TAPE: &[u8; 38] = b";060200A9418D00F000026F\r\n;0000010001\r\n";

fn fault(kind: TapeFaultKind, offset: u64) -> Option<TapeFault> {
    Some(TapeFault { offset, kind })
}

/// Reads a tape by a reader that is fed one byte at a time.
fn read_by_bytes(alloc: Global, text: &[u8]) -> Result<Image, TapeFault> {
    let mut reader = TapeReader::new(alloc)?;
    for at in 0..text.len() {
        reader.feed(&text[at..at + 1])?;
    }
    reader.finish()
}

/// A tape has this fault, read at once and byte by byte.
fn assert_fault(rt: &impl Abort, alloc: Global, text: &[u8], wanted: Option<TapeFault>) {
    assert_eq!(rt; read_tape(alloc, text).err(), wanted);
    assert_eq!(rt; read_by_bytes(alloc, text).err(), wanted);
}

/// A tape ends with its end record, and not before; CR LF after that may be missing. A record with
/// another digit in place of one has a wrong checksum.
#[test]
fn tapes_cut_and_changed(rt: HostRuntime) {
    let (whole, cut) = (TAPE.as_slice(), TapeFaultKind::Truncated);
    assert_fault(&rt, rt.alloc(), b"", fault(TapeFaultKind::NoRecord, 0));
    for length in 1..36usize {
        assert_fault(&rt, rt.alloc(), &whole[..length], fault(cut, length as u64));
    }
    for length in 36..39usize {
        assert_fault(&rt, rt.alloc(), &whole[..length], None);
    }
    for (first, last, record) in [(3usize, 23usize, 0u64), (28, 36, 25)] {
        for place in first..last {
            let mut text = *TAPE;
            text[place] = if text[place] == b'7' { b'8' } else { b'7' };
            let wanted = fault(TapeFaultKind::BadChecksum, record);
            assert_fault(&rt, rt.alloc(), &text, wanted);
        }
    }
}

/// The first fault is answered by the call that meets it and by each later one, also where nothing
/// is fed.
#[test]
fn a_failed_reader(rt: HostRuntime) -> Result<(), Fail> {
    let mut reader = TapeReader::new(rt.alloc())?;
    let wanted = fault(TapeFaultKind::BadHex, 3);
    for (piece, told) in [
        (b";01".as_slice(), None),
        (b"G", wanted),
        (b";", wanted),
        (b"", wanted),
    ] {
        assert_eq!(rt; reader.feed(piece).err(), told);
    }
    assert_eq!(rt; reader.finish().err(), wanted);
    Ok(())
}

const PIECES: &[&[u8]] = &[b";0100", b"10ff01", b"", b"10\r", b"\n;00000100", b"01"];

/// A tape in pieces, and the same cut within its record, which is refused at its end alone.
#[test]
fn pieces_of_a_tape(rt: HostRuntime) -> Result<(), Fail> {
    let image = read_pieces(rt.alloc(), PIECES)?;
    assert_eq!(rt; image.get(0x10), Some(0xFF));
    let cut = read_pieces(rt.alloc(), &[b";0100", b"10ff01", b"", b"10"]);
    assert_eq!(rt; cut.err(), fault(TapeFaultKind::Truncated, 13));
    Ok(())
}

/// An image without a byte, and one with two parts.
#[test]
fn written_texts(rt: HostRuntime) -> Result<(), Fail> {
    let mut image = Image::new(rt.alloc())?;
    let empty = write_tape(rt.alloc(), &image)?;
    assert_eq!(rt; empty.as_slice(), b";0000000000\r\n".as_slice());
    image.store(0x0200, b"\xA9\x41\x8D\x00\xF0\x00");
    image.put(0xFFFD, 0x02);
    let written = write_tape(rt.alloc(), &image)?;
    let text = b";060200A9418D00F000026F\r\n;01FFFD0201FF\r\n;0000020002\r\n";
    assert_eq!(rt; written.as_slice(), text.as_slice());
    let back = through_tape(rt.alloc(), &image)?;
    assert_eq!(rt; (back.get(0xFFFD), back.get(0xFFFE)), (Some(0x02), None));
    Ok(())
}

/// More records than an end record can count, and an end record that counts none.
#[test]
fn too_many_records_to_count(rt: HostRuntime) -> Result<(), Fail> {
    let mut text = Vec::new(rt.alloc());
    for _ in 0..65536u32 {
        text.extend_from_slice(b";010010010012")?;
    }
    text.extend_from_slice(b";0000000000")?;
    let wanted = fault(TapeFaultKind::BadCount, 65536 * 13);
    assert_eq!(rt; read_tape(rt.alloc(), &text).err(), wanted);
    Ok(())
}

const NAMES: &[(TapeFaultKind, &str)] = &[
    (TapeFaultKind::NoRecord, "NoRecord 1"),
    (TapeFaultKind::BadHex, "BadHex 2"),
    (TapeFaultKind::BadChecksum, "BadChecksum 3"),
    (TapeFaultKind::PastEnd, "PastEnd 4"),
    (TapeFaultKind::Truncated, "Truncated 5"),
    (TapeFaultKind::BadCount, "BadCount 6"),
    (TapeFaultKind::JunkAfterEnd, "JunkAfterEnd 7"),
    (TapeFaultKind::JunkBetween, "JunkBetween 8"),
    (TapeFaultKind::OutOfMemory, "OutOfMemory 9"),
    (TapeFaultKind::TooLong, "TooLong 10"),
];

#[test]
fn numbers_and_names(rt: HostRuntime) -> Result<(), Fail> {
    for (kind, text) in NAMES {
        let named = format!(in rt.alloc(); "{} {}", kind.name(), kind.number())?;
        assert_eq!(rt; named.as_str(), *text);
        assert_eq!(rt; format!(in rt.alloc(); "{kind}")?.as_str(), *text);
    }
    Ok(())
}
