//! Runs, breakpoints, watches, going back and what it replays, and the record of a step. A session
//! here has nothing in memory, so that each step is a BRK.

use crate::common::{empty_machine, empty_session};
use cpu::Machine;
use debugger::{RunEnd, Session, SessionFault, Why};
use std::alloc::Global;
use std::test::Fail;

/// The end of a run that nothing stopped.
fn limit(did: u32) -> RunEnd {
    RunEnd {
        did,
        why: Why::Limit,
    }
}

/// Goes back, and returns S, the cycles and the number of events replayed.
fn went_back(session: &mut Session, count: u32) -> Result<(u8, u64, u32), SessionFault> {
    session.back(count)?;
    Ok((session.regs().s, session.cycles(), session.replayed()))
}

/// A history, a count of steps run, a count of events undone, and how many were replayed.
/// `tests/sessions.md` shows which states these are.
const REPLAYED: &[(u32, u32, u32, u32)] = &[
    (0, 5000, 0, 0),
    (1, 2049, 1, 0),
    (1023, 4000, 1023, 929),
    (1024, 3071, 1024, 1023),
    (1024, 3072, 1024, 0),
    (1024, 3072, 1, 1023),
    (1025, 3072, 1025, 1023),
    (4096, 10000, 4096, 784),
    (65536, 70000, 65536, 368),
];

/// How many events were replayed at one of these.
fn replayed(alloc: Global, history: u32, steps: u32, back: u32) -> Result<u32, Fail> {
    let mut session = empty_session(alloc, history.min(65536))?;
    session.run(steps);
    session.back(back)?;
    Ok(session.replayed())
}

#[test]
fn replays_from_a_checkpoint(rt: HostRuntime) -> Result<(), Fail> {
    for (history, steps, back, count) in REPLAYED {
        assert_eq!(rt; replayed(rt.alloc(), *history, *steps, *back)?, *count);
    }
    Ok(())
}

/// Going back replays the events since the last checkpoint, and none if it ends at one.
#[test]
fn back_replays(rt: HostRuntime) -> Result<(), Fail> {
    let mut session = empty_session(rt.alloc(), 4096)?;
    let end = session.run(2000);
    assert_eq!(rt; (end, session.held()), (limit(2000), 2000));
    let places = [
        went_back(&mut session, 1),
        went_back(&mut session, 975),
        went_back(&mut session, 1025),
        went_back(&mut session, 0),
    ];
    assert_eq!(rt;
        places,
        [
            Ok((0x90, 14000, 975)),
            Ok((0xfd, 7175, 0)),
            Err(SessionFault::NoHistory { held: 1024 }),
            Ok((0xfd, 7175, 0)),
        ]
    );
    drop(session);
    Ok(())
}

/// Sets a breakpoint and a watchpoint, and returns the table of breakpoints.
fn marked(
    session: &mut Session,
    address: u16,
    watch: u16,
) -> Result<(u32, Option<u16>), SessionFault> {
    session.set_break(address)?;
    session.set_watch(watch)?;
    Ok((session.break_count(), session.break_at(0)))
}

/// A breakpoint and a watch, set and cleared.
#[test]
fn tables(rt: HostRuntime) -> Result<(), Fail> {
    let mut session = empty_session(rt.alloc(), 4)?;
    assert_eq!(rt; marked(&mut session, 0x0000, 0x01fb), Ok((1, Some(0x0000))));
    let at_watch = session.run(9).why;
    let no_watch = session.clear_watch(0x01fb);
    let at_break = session.run(9).why;
    let no_break = session.clear_break(0x0000);
    let at_end = session.run(9);
    assert_eq!(rt; (no_watch, no_break), (Ok(()), Ok(())));
    assert_eq!(rt;
        (at_watch, at_break, at_end),
        (Why::Watch(0x01fb), Why::Break(0x0000), limit(9))
    );
    drop(session);
    Ok(())
}

/// S, the cycles and the byte that a BRK at the start pushes last.
fn pushed(machine: &Machine) -> (u8, u64, u8) {
    (machine.regs().s, machine.cycles(), machine.peek(0x01fb))
}

/// The record of a BRK holds its three pushes, the newest first, and leads back.
#[test]
fn record_of_a_break(rt: HostRuntime) -> Result<(), Fail> {
    let mut machine = empty_machine(rt.alloc())?;
    let Ok(undo) = machine.step() else {
        panic!(rt; "a BRK is refused");
    };
    assert_eq!(rt; pushed(&machine), (0xfa, 14, 0x34));
    assert_eq!(rt; (undo.cell(0), undo.cell(3)), (Some((0x01fb, 0)), None));
    assert!(rt; machine.fits(&undo));
    machine.undo(undo);
    assert_eq!(rt; pushed(&machine), (0xfd, 7, 0));
    drop(machine);
    Ok(())
}
