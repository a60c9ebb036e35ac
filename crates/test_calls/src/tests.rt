//! Maps, the bus, patches, a step of a machine, decimal sums and the texts of faults.

use crate::common::{empty_machine, empty_session, happened, port_alone};
use bus::{Bus, Image, MapSpec};
use cpu::Machine;
use debugger::{Event, EventFault, Session, Setting};
use model::{AsmFaultKind, BusFault, SessionFault, Sum};
use std::test::Fail;

/// Patches bytes of which so many count, and returns memory at the second and the third.
fn patched(session: &mut Session, count: u8) -> (Result<(), EventFault>, [u8; 2]) {
    let patch = Event::Patch {
        address: 0x0200,
        bytes: [0xe8, 0xca, 0xff],
        count,
    };
    let answer = happened(session, patch);
    (answer, [session.peek(0x0201), session.peek(0x0202)])
}

/// A patch: bytes that are not counted are not stored; none or more than three are rejected.
#[test]
fn patches_count_their_bytes(rt: HostRuntime) -> Result<(), Fail> {
    let mut session = empty_session(rt.alloc(), 8)?;
    for (count, answer) in [
        (2, Ok(())),
        (0, Err(EventFault::BadLength)),
        (4, Err(EventFault::BadLength)),
    ] {
        assert_eq!(rt; patched(&mut session, count), (answer, [0xca, 0x00]));
    }
    drop(session);
    Ok(())
}

/// A step after a setting and a PC: the cycles that it took, A and PC.
fn step_of(machine: &mut Machine, setting: Setting) -> Result<(u64, u8, u16), EventFault> {
    machine.patch(0x0200, &[0xb5, 0xff])?;
    machine.patch(0x0001, &[0x77])?;
    machine.set_register(setting)?;
    machine.set_register(Setting::Pc(0x0200))?;
    let before = machine.cycles();
    machine.step()?;
    let passed = machine.cycles().saturating_sub(before);
    Ok((passed, machine.regs().a, machine.pc()))
}

/// LDA $FF,X with 2 in X, which wraps in the zero page.
#[test]
fn a_step_of_a_machine(rt: HostRuntime) -> Result<(), Fail> {
    let mut machine = empty_machine(rt.alloc())?;
    assert_eq!(rt; step_of(&mut machine, Setting::X(2)), Ok((4, 0x77, 0x0202)));
    drop(machine);
    Ok(())
}

/// A sum as a byte and its flags N, V, Z and C.
fn flagged(sum: Sum) -> (u8, [bool; 4]) {
    (sum.value, [sum.n, sum.v, sum.z, sum.c])
}

/// Decimal sums and differences, one of them of a digit above 9: the byte, N, V, Z and C.
#[test]
fn decimal_sums(rt: HostRuntime) {
    assert_eq!(rt;
        flagged(alu::adc(0x99, 0x01, false, true)),
        (0x00, [true, false, false, true])
    );
    assert_eq!(rt;
        flagged(alu::adc(0x79, 0x00, true, true)),
        (0x80, [true, true, false, false])
    );
    assert_eq!(rt;
        flagged(alu::sbc(0x00, 0x01, true, true)),
        (0x99, [true, false, false, false])
    );
    assert_eq!(rt;
        flagged(alu::adc(0x0f, 0x01, false, true)),
        (0x16, [false, false, false, false])
    );
    assert_eq!(rt;
        flagged(alu::adc(0x58, 0x46, true, true)),
        (0x05, [true, true, false, true])
    );
    assert_eq!(rt;
        flagged(alu::sbc(0x12, 0x21, true, true)),
        (0x91, [true, false, false, false])
    );
}

/// Stores a byte as the processor does, and returns memory there.
fn stored(bus: &mut Bus, address: u16, byte: u8) -> Result<u8, BusFault> {
    bus.write(address, byte)?;
    Ok(bus.peek(address))
}

/// Pokes a byte, and returns memory there.
fn poked(bus: &mut Bus, address: u16, byte: u8) -> Result<u8, BusFault> {
    bus.poke(address, byte)?;
    Ok(bus.peek(address))
}

/// A store into ROM does nothing, a poke writes it, and a store at the port puts the byte out.
#[test]
fn rom_keeps_its_bytes(rt: HostRuntime) -> Result<(), Fail> {
    let map = MapSpec::new(Some((0x8000, 0x8fff)), 0xf000)?;
    let mut bus = Bus::new(rt.alloc(), map)?;
    assert_eq!(rt; stored(&mut bus, 0x8000, 0x55), Ok(0x00));
    assert_eq!(rt; poked(&mut bus, 0x8000, 0xaa), Ok(0xaa));
    assert_eq!(rt; poked(&mut bus, 0xf000, 1), Err(BusFault::PortAddress));
    assert_eq!(rt; stored(&mut bus, 0xf000, 0x0a), Ok(0x00));
    assert_eq!(rt; (bus.output_len(), bus.output_at(0)), (1, Some(0x0a)));
    drop(bus);
    Ok(())
}

/// Reads whether input waits, the next byte of it, and how many were taken then.
fn received(bus: &mut Bus) -> (u8, u8, u32) {
    let waits = bus.read(0xf002);
    let byte = bus.read(0xf001);
    (waits, byte, bus.taken())
}

/// Input at the port: whether it waits, its bytes in their order, and 0 where none waits.
#[test]
fn input_at_the_port(rt: HostRuntime) -> Result<(), Fail> {
    let map = port_alone()?;
    let mut bus = Bus::new(rt.alloc(), map)?;
    assert_eq!(rt; [bus.give(0x41), bus.give(0x42)], [Ok(()), Ok(())]);
    let bytes = [received(&mut bus), received(&mut bus), received(&mut bus)];
    assert_eq!(rt; bytes, [(1, 0x41, 1), (1, 0x42, 2), (0, 0x00, 2)]);
    assert_eq!(rt; (bus.read(0xf000), bus.input_room()), (0, 65534));
    drop(bus);
    Ok(())
}

/// What a map says of addresses at the ends of its ROM and its port.
#[test]
fn map_tells_its_parts(rt: HostRuntime) -> Result<(), Fail> {
    let map = MapSpec::new(Some((0x8000, 0x8fff)), 0xf000)?;
    assert_eq!(rt; (map.is_rom(0x8fff), map.is_rom(0x9000)), (true, false));
    assert_eq!(rt; (map.is_port(0xf003), map.is_port(0xf004)), (true, false));
    Ok(())
}

/// Without a port no address is the port's, and the ROM may reach to the end.
#[test]
fn map_without_port(rt: HostRuntime) -> Result<(), Fail> {
    let map = MapSpec::without_port(Some((0x0200, 0xffff)))?;
    assert_eq!(rt; (map.is_port(0xf000), map.is_rom(0xffff)), (false, true));
    Ok(())
}

/// Maps that are rejected.
#[test]
fn refused_maps(rt: HostRuntime) {
    for (rom, port) in [
        (None, 0xf001),
        (None, 0x01fc),
        (None, 0xfff8),
        (Some((0x01ff, 0x0300)), 0xf000),
        (Some((0x9000, 0x8000)), 0xf000),
        (Some((0xe000, 0xf000)), 0xf000),
    ] {
        assert_eq!(rt; MapSpec::new(rom, port).err(), Some(BusFault::BadMap));
    }
}

/// An image returns a byte that was put, also at a port address, and none elsewhere.
#[test]
fn image_tells_its_bytes(rt: HostRuntime) -> Result<(), Fail> {
    let mut image = Image::new(rt.alloc())?;
    image.put(0xf003, 0);
    assert_eq!(rt; (image.get(0xf003), image.get(0xf004)), (Some(0), None));
    drop(image);
    Ok(())
}

/// The printed form of a fault of each kind: name and number.
#[test]
fn faults_as_text(rt: HostRuntime) {
    for (name, number, want, count) in [
        (
            BusFault::BadMap.name(),
            BusFault::BadMap.number(),
            "BadMap",
            1,
        ),
        (
            EventFault::ConsoleFull.name(),
            EventFault::ConsoleFull.number(),
            "ConsoleFull",
            3,
        ),
        (
            SessionFault::PortAddress.name(),
            SessionFault::PortAddress.number(),
            "PortAddress",
            5,
        ),
        (
            AsmFaultKind::OutOfMemory.name(),
            AsmFaultKind::OutOfMemory.number(),
            "OutOfMemory",
            99,
        ),
    ] {
        assert_eq!(rt; name, want);
        assert_eq!(rt; number, count);
    }
}
