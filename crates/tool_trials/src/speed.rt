//! Runs the program of tools/bench.s, as ca65 makes it in bench.bin, in a session, for a clock
//! beside it.

use anyhow::Result;
use bus::{Image, MapSpec};
use debugger::{Event, Session};
use std::alloc::Global;
use std::{env, fs, io};

/// The program's address.
const ORIGIN: u16 = 0x0200;

/// Where it jumps at its end.
const END: u16 = 0xfff9;

/// Where a reset finds the address that it leads to.
const RESET: u16 = 0xfffc;

/// A session that stands at the program's start, with a breakpoint at its end if one is wanted, and
/// the others and the watches where none is met.
fn at_the_start(
    alloc: Global,
    program: &[u8],
    history: u32,
    breaks: u32,
    watches: u32,
    map: MapSpec,
) -> Result<Session> {
    let mut image = Image::new(alloc)?;
    let mut address = ORIGIN;
    for byte in program {
        image.put(address, *byte);
        address = address.wrapping_add(1);
    }
    image.put(RESET, (ORIGIN & 0xff) as u8);
    image.put(RESET + 1, (ORIGIN >> 8) as u8);
    let mut session = Session::new(alloc, map, &image, history.min(65536))?;
    for i in 0..breaks.min(256) {
        session.set_break(END - i as u16)?;
    }
    for i in 0..watches.min(256) {
        session.set_watch(0xfe00 + i as u16)?;
    }
    Ok(session)
}

/// A step as a single event, unless the program has ended: whether one was made. What an event does
/// stands where it is called, so it is called here alone.
fn stepped(session: &mut Session) -> bool {
    session.regs().pc != END && session.event(Event::Step).is_ok()
}

/// Steps by single events until the program ends or `steps` are made.
fn step_by_step(session: &mut Session, steps: u32) -> u32 {
    for did in 0..steps {
        if !stepped(session) {
            return did;
        }
    }
    steps
}

/// The words behind `speed` as numbers. A word that is not a number is rejected.
fn numbers(rt: &HostRuntime) -> Result<Vec<u32>> {
    let mut numbers = Vec::new(rt.alloc());
    for word in env::args(rt)?.skip(2) {
        let Ok(number) = word.parse::<u32>() else {
            return Err(io::Error::from(io::ErrorKind::InvalidInput))?;
        };
        numbers.push(number)?;
    }
    Ok(numbers)
}

/// One of the words, or 0 where it is not there.
fn number(numbers: &[u32], place: usize) -> u32 {
    numbers.get(place).copied().unwrap_or(0)
}

/// Steps by a run, or by single events: how many were made. No contract: nothing is proved over
/// what a run does.
fn made(session: &mut Session, single: u32, steps: u32) -> u32 {
    if single == 0 {
        session.run(steps).did
    } else {
        step_by_step(session, steps)
    }
}

/// The map of a profile.
fn map_of(profile: u32) -> Result<MapSpec> {
    let n = MapSpec::new(None, 0xf000)?;
    Ok(if profile == 0 { n } else { n.profile_c() })
}

/// The cycles and A, which show that all was done.
fn left(session: &Session) -> (u64, u8) {
    (session.cycles(), session.regs().a)
}

/// Runs the program as the numbers behind `speed` say: 0 for a run and 1 for single events, how
/// many states are held, how many breakpoints and how many watches are set, 1 for profile C, and
/// the most steps. Prints how many steps were made, with the cycles and A.
pub fn run(rt: &HostRuntime) -> Result<()> {
    let words = numbers(rt)?;
    let program = fs::read(rt, "bench.bin")?;
    let (history, breaks, watches) = (number(&words, 1), number(&words, 2), number(&words, 3));
    let map = map_of(number(&words, 4))?;
    let mut session = at_the_start(rt.alloc(), &program, history, breaks, watches, map)?;
    let did = made(&mut session, number(&words, 0), number(&words, 5));
    let (cycles, a) = left(&session);
    println!(rt; "{did} steps, {cycles} cycles, A={a}")?;
    Ok(())
}
