//! Tables that are full, and what a machine and a bus save.

use crate::common::{empty_machine, empty_session, port_alone};
use bus::{Bus, BusFault, SavedBus};
use cpu::{Checkpoint, Machine, Setting};
use debugger::{Session, SessionFault};
use std::test::Fail;

/// Sets `count` breakpoints and as many watchpoints from an address on.
fn fill(session: &mut Session, from: u16, count: u16) -> Result<(), SessionFault> {
    for number in 0..count {
        session.set_break(from.wrapping_add(number))?;
        session.set_watch(from.wrapping_add(number))?;
    }
    Ok(())
}

/// A table has room for 256 addresses; one that is set already is AlreadySet, full or not.
#[test]
fn full_tables(rt: HostRuntime) -> Result<(), Fail> {
    let mut session = empty_session(rt.alloc(), 4)?;
    let answers = [
        fill(&mut session, 0x0200, 256),
        session.set_break(0x0300),
        session.set_watch(0x0300),
        session.set_break(0x0200),
        session.set_watch(0x02ff),
        session.set_watch(0xf003),
        session.clear_break(0x0280),
        session.set_break(0x0300),
    ];
    assert_eq!(rt;
        answers,
        [
            Ok(()),
            Err(SessionFault::TableFull),
            Err(SessionFault::TableFull),
            Err(SessionFault::AlreadySet),
            Err(SessionFault::AlreadySet),
            Err(SessionFault::PortAddress),
            Ok(()),
            Ok(()),
        ]
    );
    assert_eq!(rt;
        (session.break_count(), session.break_at(255)),
        (256, Some(0x0300))
    );
    drop(session);
    Ok(())
}

/// What a machine shows where 55 was put into A, and where what it had saved before is put back.
#[tactic(auto, unfolding(model::specs::Checkpoint::checkpoint_of, model::specs::Checkpoint::saved_of))]
fn saved_machine(machine: &mut Machine, into: &mut Checkpoint) -> (u8, u8) {
    machine.save(into);
    let Ok(_) = machine.set_register(Setting::A(0x55)) else {
        return (0, 0);
    };
    let set = machine.regs().a;
    machine.restore(into);
    (set, machine.regs().a)
}

#[test]
fn restores_a_machine(rt: HostRuntime) -> Result<(), Fail> {
    let mut machine = empty_machine(rt.alloc())?;
    let mut checkpoint = Checkpoint::new(rt.alloc())?;
    assert_eq!(rt; saved_machine(&mut machine, &mut checkpoint), (0x55, 0x00));
    Ok(())
}

/// What stands at an address where a byte was put, and where what was saved before is put back.
#[tactic(auto, unfolding(model::specs::Checkpoint::saved_of, model::specs::State::bus_with_byte))]
fn saved_bus(bus: &mut Bus, into: &mut SavedBus, address: u16) -> Result<(u8, u8), BusFault> {
    bus.save(into);
    bus.poke(address, 0x55)?;
    let put = bus.peek(address);
    bus.restore_saved(into);
    Ok((put, bus.peek(address)))
}

#[test]
fn restores_a_bus(rt: HostRuntime) -> Result<(), Fail> {
    let mut bus = Bus::new(rt.alloc(), port_alone()?)?;
    let mut saved = SavedBus::new(rt.alloc())?;
    assert_eq!(rt; saved_bus(&mut bus, &mut saved, 0x0200), Ok((0x55, 0x00)));
    assert_eq!(rt;
        saved_bus(&mut bus, &mut saved, 0xf000),
        Err(BusFault::PortAddress)
    );
    Ok(())
}
