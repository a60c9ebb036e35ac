//! A routine under test, and what a rig does with it.

use assembler::assemble;
use bus::MapSpec;
use debugger::{Event, RunEnd, Session, Why};
use std::alloc::Global;
use std::test::Fail;

/// Multiplies the bytes at $10 and $11; the product comes to $12, low byte first.
const MULTIPLY: &[u8] = b"*=$0200
LDA #0
LDX #8
next: LSR $10
BCC shift
CLC
ADC $11
shift: ROR A
ROR $12
DEX
BNE next
STA $13
done: BRK
*=$FFFC
.WORD $0200
";

/// A machine that is about to run the routine, with a history of 1,024 events.
fn loaded(alloc: Global) -> Result<Session, Fail> {
    let map = MapSpec::new(None, 0xF000)?;
    let assembly = assemble(alloc, MULTIPLY, &map)?;
    Ok(Session::new(alloc, map, assembly.image(), 1024)?)
}

/// Gives the routine two factors, and runs it up to `done`.
fn multiply(session: &mut Session, left: u8, right: u8) -> Result<RunEnd, Fail> {
    let bytes = [left, right, 0];
    session.event(Event::Patch {
        address: 0x0010,
        bytes,
        count: 2,
    })?;
    session.set_break(0x0213)?;
    Ok(session.run(1000))
}

/// The bytes at $10 to $13.
fn shown(session: &Session) -> [u8; 4] {
    [
        session.peek(0x0010),
        session.peek(0x0011),
        session.peek(0x0012),
        session.peek(0x0013),
    ]
}

/// 200 times 123 is 24,600; and before the first step the factors stand as they were given.
#[test]
fn multiplies(rt: HostRuntime) -> Result<(), Fail> {
    let mut session = loaded(rt.alloc())?;
    let end = RunEnd {
        did: 57,
        why: Why::Break(0x0213),
    };
    assert_eq!(rt; multiply(&mut session, 200, 123)?, end);
    assert_eq!(rt; shown(&session), [0, 123, 0x18, 0x60]);
    assert_eq!(rt; session.back(57), Ok(()));
    assert_eq!(rt; shown(&session), [200, 123, 0, 0]);
    drop(session);
    Ok(())
}
