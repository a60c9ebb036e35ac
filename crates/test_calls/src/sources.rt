//! Sources that no page of text can hold: ends of lines, bytes that are no text, long lines, and as
//! many lines and names as there may be; and each public call once. What a source denotes, and why
//! one is refused, stands in `tests/sources.md`.

use assembler::{Assembly, Line, Profile, assemble, assemble_line, assemble_line_in};
use bus::MapSpec;
use model::AsmFaultKind::{LineTooLong, NoSuchForm, NotAscii, Syntax, TooLarge, TooManyNames};
use model::{AsmFault, AsmFaultKind, BusFault};
use std::alloc::{AllocError, Global};
use std::process::Abort;
use std::test::Fail;

/// The map of all sources here.
fn map() -> Result<MapSpec, BusFault> {
    MapSpec::new(None, 0xf000)
}

/// The fault of a source, or none where it is assembled.
fn fault_of(alloc: Global, source: &[u8]) -> Result<Option<AsmFault>, BusFault> {
    Ok(assemble(alloc, source, &map()?).err())
}

fn at(line: u32, kind: AsmFaultKind) -> Option<AsmFault> {
    Some(AsmFault { line, kind })
}

/// A byte some times, and then an end.
fn line_of(alloc: Global, count: usize, byte: u8, end: &[u8]) -> Result<Vec<u8>, AllocError> {
    let mut line = vec![in alloc; byte; count]?;
    line.extend_from_slice(end)?;
    Ok(line)
}

/// What a source denotes. No contract: what a test does not compare it need not prove over.
fn assembled(alloc: Global, source: &[u8]) -> Result<Assembly, Fail> {
    Ok(assemble(alloc, source, &map()?).map_err(|_| BusFault::OutOfMemory)?)
}

/// Lines that end with CR LF, and a last one that does not end.
const CRLF: &[u8] = b"*=$FFFE\r\nNOP\t \r\nlast: NOP\r\nend:\r\n\tn = end-65537 ; x";

/// Their listing.
const LISTING: &[u8] =
    b"0000            *=$FFFE\nFFFE  EA        NOP\t \nFFFF  EA        last: NOP\n----            end:\n----            \tn = end-65537 ; x\n\nlast = $FFFF\nend = 65536\nn = -1\n";

/// The byte at an address, by the call.
fn byte_at(assembly: &Assembly, address: u16) -> Option<u8> {
    assembly.image().get(address)
}

#[test]
fn assembles_lines(rt: HostRuntime) -> Result<(), Fail> {
    let assembly = assembled(rt.alloc(), CRLF)?;
    for (address, byte) in [(0xfffd, None), (0xfffe, Some(0xea)), (0xffff, Some(0xea))] {
        assert_eq!(rt; byte_at(&assembly, address), byte);
    }
    Ok(())
}

/// The listing, by the call.
fn listing_of(alloc: Global, assembly: &Assembly) -> Result<Vec<u8>, Fail> {
    Ok(assembly.listing(alloc).map_err(|_| BusFault::OutOfMemory)?)
}

#[test]
fn lists_lines(rt: HostRuntime) -> Result<(), Fail> {
    let assembly = assembled(rt.alloc(), CRLF)?;
    let listing = listing_of(rt.alloc(), &assembly)?;
    assert_eq!(rt; listing.as_slice(), LISTING);
    Ok(())
}

/// The names of these lines with their numbers.
const NAMES: &[(&[u8], i32)] = &[(b"last", 65535), (b"end", 65536), (b"n", -1)];

/// An assembly has a name at an index, and its number.
fn assert_named(rt: &impl Abort, assembly: &Assembly, index: usize, name: &[u8], number: i32) {
    assert_eq!(rt; assembly.symbol(index), Some((name, number)));
    assert_eq!(rt; assembly.value_of(name), Some(number));
}

/// And no others.
fn assert_no_other(rt: &impl Abort, assembly: &Assembly) {
    assert_eq!(rt; assembly.symbol_count(), 3);
    assert_eq!(rt; assembly.symbol(3), None);
    assert_eq!(rt; assembly.value_of(b"LAST"), None);
}

#[test]
fn tells_the_names(rt: HostRuntime) -> Result<(), Fail> {
    let assembly = assembled(rt.alloc(), CRLF)?;
    for (index, (name, number)) in NAMES.iter().enumerate() {
        assert_named(&rt, &assembly, index, name, *number);
    }
    assert_no_other(&rt, &assembly);
    Ok(())
}

/// Lines `nK = 0` with K from 1 on.
fn names(alloc: Global, count: u32) -> Result<Vec<u8>, AllocError> {
    let mut source = Vec::new(alloc);
    for k in 0..count {
        source.extend_from_slice(b"n")?;
        source.extend_from_slice(format!(in alloc; "{}", k + 1)?.as_bytes())?;
        source.extend_from_slice(b" = 0\n")?;
    }
    Ok(source)
}

/// 8,192 names and no more, and names of 31 bytes and no longer.
#[test]
fn takes_as_many_names_as_there_may_be(rt: HostRuntime) -> Result<(), Fail> {
    let alloc = rt.alloc();
    for (source, fault) in [
        (names(alloc, 8192)?, None),
        (names(alloc, 8193)?, at(8193, TooManyNames)),
        (line_of(alloc, 31, b'n', b" = 1")?, None),
        (line_of(alloc, 32, b'n', b" = 1")?, at(1, Syntax)),
    ] {
        assert_eq!(rt; fault_of(alloc, &source)?, fault);
    }
    Ok(())
}

/// So many times a byte, the bytes after them, and the fault of the source that they are.
type Long = (usize, u8, &'static [u8], Option<AsmFault>);

/// Lines of 255 bytes and of one more, with each end; bytes that are no text; and sources of
/// 1,048,576 bytes and of one more.
const LONG: &[Long] = &[
    (255, b' ', b"", None),
    (255, b' ', b"\n", None),
    (255, b' ', b"\r\n", None),
    (
        256,
        b' ',
        b"",
        Some(AsmFault {
            line: 1,
            kind: LineTooLong,
        }),
    ),
    (
        256,
        b' ',
        b"\n",
        Some(AsmFault {
            line: 1,
            kind: LineTooLong,
        }),
    ),
    (
        256,
        b' ',
        b"\r\n",
        Some(AsmFault {
            line: 1,
            kind: LineTooLong,
        }),
    ),
    (
        255,
        0x80,
        b"",
        Some(AsmFault {
            line: 1,
            kind: NotAscii,
        }),
    ),
    (
        255,
        0x80,
        b"\n",
        Some(AsmFault {
            line: 1,
            kind: NotAscii,
        }),
    ),
    (
        255,
        0x80,
        b"\r\n",
        Some(AsmFault {
            line: 1,
            kind: NotAscii,
        }),
    ),
    (
        256,
        0x80,
        b"",
        Some(AsmFault {
            line: 1,
            kind: LineTooLong,
        }),
    ),
    (
        256,
        0x80,
        b"\n",
        Some(AsmFault {
            line: 1,
            kind: LineTooLong,
        }),
    ),
    (
        256,
        0x80,
        b"\r\n",
        Some(AsmFault {
            line: 1,
            kind: LineTooLong,
        }),
    ),
    (
        1,
        b'\n',
        b"; a\rb\n",
        Some(AsmFault {
            line: 2,
            kind: NotAscii,
        }),
    ),
    (
        1,
        b'\n',
        b"\x00\nFOO\n",
        Some(AsmFault {
            line: 2,
            kind: NotAscii,
        }),
    ),
    (1_048_576, b'\n', b"", None),
    (
        1_048_576,
        b'\n',
        b"\n",
        Some(AsmFault {
            line: 0,
            kind: TooLarge,
        }),
    ),
    (
        1_048_575,
        b'\n',
        b"?",
        Some(AsmFault {
            line: 1_048_576,
            kind: Syntax,
        }),
    ),
];

#[test]
fn answers_long_lines_and_sources(rt: HostRuntime) -> Result<(), Fail> {
    for (count, byte, end, fault) in LONG {
        let source = line_of(rt.alloc(), *count, *byte, end)?;
        assert_eq!(rt;
            fault_of(rt.alloc(), &source)?,
            *fault,
            "{count} times {byte}"
        );
    }
    Ok(())
}

/// A line of `count` bytes.
fn line(bytes: [u8; 3], count: u8) -> Result<Line, AsmFault> {
    Ok(Line { bytes, count })
}

/// One line alone, in each profile; the call without a profile is of profile N.
#[test]
fn assembles_one_line_in_each_profile(rt: HostRuntime) -> Result<(), Fail> {
    let lda = b"LDA ($10)";
    let refused = Err(AsmFault {
        line: 1,
        kind: NoSuchForm,
    });
    assert_eq!(rt;
        assemble_line_in(rt.alloc(), Profile::C, 0x200, lda),
        line([0xb2, 0x10, 0], 2)
    );
    assert_eq!(rt;
        assemble_line_in(rt.alloc(), Profile::N, 0x200, lda),
        refused
    );
    assert_eq!(rt; assemble_line(rt.alloc(), 0x200, lda), refused);
    assert_eq!(rt;
        assemble_line(rt.alloc(), 0x200, b"NOP"),
        line([0xea, 0, 0], 1)
    );
    Ok(())
}
