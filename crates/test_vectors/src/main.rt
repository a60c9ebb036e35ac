//! Compares the opcode table and single steps of the machine with what the tools of others gave;
//! lists and assembles again; and says what reading each tape gives that is named on the command
//! line.
#![tactic(auto)]

mod listing_counts;
mod tapes;

use anyhow::Result;
use bus::{Image, MapSpec};
use cpu::{Flags, Machine, Regs};
use listing_counts::write_counts;
use model::Setting;
use optable::{decode, encode, mnemonic_of};
use std::alloc::Global;
use std::rt::Files;
use std::{env, fs};
use tapes::report_tape;

/// The cycles of the reset with which a machine starts.
const RESET_CYCLES: u64 = 7;

/// Two bytes as an address, the high byte first.
fn word(high: u8, low: u8) -> u16 {
    high as u16 * 256 + low as u16
}

/// The registers in seven bytes: PC, S, A, X, Y and P.
fn registers(bytes: &[u8]) -> Option<Regs> {
    let [high, low, s, a, x, y, p] = *bytes else {
        return None;
    };
    Some(Regs {
        a,
        x,
        y,
        s,
        pc: word(high, low),
        flags: Flags::from_byte(p),
    })
}

/// An image with these cells, each an address and a byte.
fn image_of(alloc: Global, cells: &[u8]) -> Result<Image> {
    let mut image = Image::new(alloc)?;
    for cell in cells.chunks_exact(3) {
        if let [high, low, byte] = *cell {
            image.put(word(high, low), byte);
        }
    }
    Ok(image)
}

/// Whether memory has these cells, and 0 everywhere else.
fn has_cells(machine: &Machine, cells: &[u8]) -> bool {
    let mut set = 0u32;
    for cell in cells.chunks_exact(3) {
        if let [high, low, byte] = *cell {
            if machine.peek(word(high, low)) != byte {
                return false;
            }
            if byte != 0 {
                set = set.wrapping_add(1);
            }
        }
    }
    let mut found = 0u32;
    for address in 0..=65535u16 {
        if machine.peek(address) != 0 {
            found = found.wrapping_add(1);
        }
    }
    found == set
}

/// Sets all registers of a machine.
fn set_registers(machine: &mut Machine, regs: &Regs) -> Result<()> {
    for setting in [
        Setting::A(regs.a),
        Setting::X(regs.x),
        Setting::Y(regs.y),
        Setting::S(regs.s),
        Setting::P(regs.flags.to_byte(false)),
        Setting::Pc(regs.pc),
    ] {
        let _undo = machine.set_register(setting)?;
    }
    Ok(())
}

/// Whether one step leads from the registers and memory of a line to those that it names, in so
/// many cycles.
fn step_agrees(alloc: Global, line: &str) -> Result<bool> {
    let mut words = line.split(' ');
    let mut field = [None; 5];
    for place in 0..5usize {
        field[place] = words.next();
    }
    let [
        Some(before),
        Some(after),
        Some(cycles),
        Some(cells),
        Some(left),
    ] = field
    else {
        return Ok(false);
    };
    let (Some(before), Some(after)) = (
        registers(&hex::decode(alloc, before)?),
        registers(&hex::decode(alloc, after)?),
    ) else {
        return Ok(false);
    };
    let image = image_of(alloc, &hex::decode(alloc, cells)?)?;
    let mut machine = Machine::new(alloc, MapSpec::new(None, 0xf000)?, &image)?;
    set_registers(&mut machine, &before)?;
    let _undo = machine.step()?;
    let cycles = hex::decode(alloc, cycles)?;
    let [cycles] = *cycles.as_slice() else {
        return Ok(false);
    };
    Ok(
        machine.regs() == after
            && machine.cycles() == RESET_CYCLES + cycles as u64
            && has_cells(&machine, &hex::decode(alloc, left)?),
    )
}

/// Whether the table has the row of a line, both ways.
fn row_agrees(alloc: Global, line: &str) -> Result<bool> {
    let Some((digits, rest)) = line.split_once(' ') else {
        return Ok(false);
    };
    let Some((name, rest)) = rest.split_once(' ') else {
        return Ok(false);
    };
    let opcode = hex::decode(alloc, digits)?;
    let [opcode] = *opcode.as_slice() else {
        return Ok(false);
    };
    let Some(row) = decode(opcode) else {
        return Ok(false);
    };
    let written = format!(in alloc; "{:?} {} {} {}", row.mode, row.len, row.cycles, row.penalty)?;
    Ok(
        written.as_str() == rest
            && mnemonic_of(name.as_bytes()) == Some(row.mnemonic)
            && encode(row.mnemonic, row.mode) == Some(opcode),
    )
}

fn main(rt: HostRuntime) -> Result<()> {
    let rows = fs::read_to_string(&rt, "opcodes.txt")?;
    let mut count = 0u32;
    for line in rows.lines() {
        if !line.starts_with('#') {
            count = count.wrapping_add(1);
            if !row_agrees(rt.alloc(), line)? {
                println!(rt; "opcodes: another row than {line}")?;
            }
        }
    }
    let documented = (0..=255u8)
        .filter(|opcode| decode(*opcode).is_some())
        .count();
    println!(rt; "opcodes: {count} compared, {documented} in the table")?;
    let steps = fs::read_to_string(&rt, "steps.txt")?;
    let mut count = 0u32;
    for line in steps.lines() {
        if !line.starts_with('#') {
            count = count.wrapping_add(1);
            if !step_agrees(rt.alloc(), line)? {
                println!(rt; "steps: another step than {line}")?;
            }
        }
    }
    println!(rt; "steps: {count} compared")?;
    for name in env::args(&rt)?.skip(1) {
        report_tape(&rt, name.as_str())?;
    }
    write_counts(rt)
}
