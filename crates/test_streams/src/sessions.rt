//! Sessions of the engine.

use crate::streams::{LimitedReader, LimitedWriter};
use anyhow::Result;
use bus::MapSpec;
use engine::{EngineFault, debug_source, debug_tape, debug_tape_from};
use std::alloc::Global;
use std::cell::Cell;

/// The call that is made.
#[derive(Clone, Copy)]
enum Call {
    Source,
    Tape,
    /// The tape is read a byte at a time, and these bytes of it come.
    TapeFrom { tape: &'static [u8], has_end: bool },
}

/// A session, and what its streams give and take.
#[derive(Clone, Copy)]
struct Session {
    name: &'static str,
    call: Call,
    lines: &'static [u8],
    /// The most bytes that a read gives and a write takes.
    most: usize,
    /// How many bytes the writer takes.
    room: usize,
    /// How many flushes succeed.
    flushes: u32,
}

const PROGRAM: &[u8] = b"*=$0200\n LDA #$41\n";

const TAPE: &[u8] = b";020200A94100EE\r\n;0000010001\r\n";

/// The session whose streams do not fail.
const WHOLE: Session = Session {
    name: "a source",
    call: Call::Source,
    lines: b"set PC 0200\nstep\n\nstepp\nquit\nregs\n",
    most: 512,
    room: 512,
    flushes: 9,
};

/// The tape, a byte at a time.
const FROM: Call = Call::TapeFrom {
    tape: TAPE,
    has_end: true,
};

const SESSIONS: &[Session] = &[
    WHOLE,
    Session {
        name: "a source, byte by byte",
        most: 1,
        ..WHOLE
    },
    Session {
        name: "a tape, byte by byte",
        call: Call::Tape,
        most: 1,
        ..WHOLE
    },
    Session {
        name: "a tape that is read too",
        call: FROM,
        most: 1,
        ..WHOLE
    },
    Session {
        name: "a tape whose first read fails",
        call: Call::TapeFrom {
            tape: b"",
            has_end: false,
        },
        ..WHOLE
    },
    Session {
        name: "a tape whose read fails within a record",
        call: Call::TapeFrom {
            tape: b";0202",
            has_end: false,
        },
        ..WHOLE
    },
    Session {
        name: "a read that fails within a line",
        lines: b"set PC 0200\nste",
        most: 1,
        ..WHOLE
    },
    Session {
        name: "a read that fails behind a line",
        lines: b"set PC 0200\n",
        ..WHOLE
    },
    Session {
        name: "a write that takes no byte",
        room: 4,
        ..WHOLE
    },
    Session {
        name: "a flush that fails",
        flushes: 0,
        ..WHOLE
    },
    Session {
        name: "a flush that fails later",
        call: Call::Tape,
        most: 1,
        flushes: 1,
        ..WHOLE
    },
];

/// Makes the call.
fn served(
    alloc: Global,
    call: Call,
    lines: &mut LimitedReader<'_>,
    replies: &mut LimitedWriter<'_>,
) -> Result<Result<(), EngineFault>> {
    let map = MapSpec::new(None, 0xf000)?;
    Ok(match call {
        Call::Source => debug_source(alloc, map, 8, PROGRAM, lines, replies),
        Call::Tape => debug_tape(alloc, map, 8, TAPE, lines, replies),
        Call::TapeFrom { tape, has_end } => {
            let waiting = Cell::new(0);
            let mut tape = LimitedReader {
                rest: tape,
                most: 1,
                has_end,
                waiting: &waiting,
                is_early: false,
            };
            debug_tape_from(alloc, map, 8, &mut tape, lines, replies)
        }
    })
}

/// Serves a session, and says what the call answers, how many bytes were not read, whether each
/// reply was flushed before the reader was asked again, and what was written.
fn report<R: AllocGlobal + Print>(rt: &R, session: &Session) -> Result<()> {
    let waiting = Cell::new(0);
    let mut lines = LimitedReader {
        rest: session.lines,
        most: session.most,
        has_end: false,
        waiting: &waiting,
        is_early: false,
    };
    let (most, room) = (session.most, session.room);
    let mut replies = LimitedWriter::new(rt.alloc(), most, room, session.flushes, &waiting);
    let answer = served(rt.alloc(), session.call, &mut lines, &mut replies)?;
    let (name, left, text) = (session.name, lines.rest.len(), replies.text());
    let how = if lines.is_early {
        "a reply waits at a read"
    } else {
        "flushed before each read"
    };
    println!(rt; "{name}: {answer:?}, {left} bytes unread, {how}")?;
    println!(rt; "    {text:?}")?;
    Ok(())
}

/// Serves each session.
pub fn report_sessions<R: AllocGlobal + Print>(rt: &R) -> Result<()> {
    for session in SESSIONS {
        report(rt, session)?;
    }
    Ok(())
}
