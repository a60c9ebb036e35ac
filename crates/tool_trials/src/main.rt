//! Makes each library call that its words name, and prints whether it was served. So a script can
//! make each allocation of one call fail in turn. With `speed` as its first word it runs a program
//! for a clock beside it.
#![tactic(auto)]

ghost use Rattle.std.specs.Prelude.{◌≡◌};

use asm_expr::{LineFault, parse_expr, tokens};
use assembler::AsmFaultKind;
use bus::{Bus, BusFault, Image, MapSpec, Saved};
use cpu::{Checkpoint, Machine};
use debugger::{Session, SessionFault};
use papertape::{
    TapeFault, TapeFaultKind, TapeReadFault, TapeReader, read_pieces, read_tape, read_tape_from,
    through_tape, write_tape,
};
use std::alloc::Global;
use std::process::ExitCode;
use std::{env, io};
use thiserror::Error;

mod speed;

/// A source with tokens, expressions, names and data of each kind.
const SOURCE: &[u8] =
    b"; nothing\nname = [1+2]*4\n*=$0200\nlabel: LDA #name/$4|%101\n STA <$1234,X\n.BYTE 1,'c',*&255,\"text\"\n.WORD label,later\n.DBYTE -2\nlater: .RES 2\n\n";

/// A source whose last line is none.
const FAULTY_SOURCE: &[u8] = b"*=$0200\n LDA #[1+2]*3\n.WORD [4^5],>$1234\n?\n";

/// A source whose last line has a value that is no byte.
const FAULTY_VALUE: &[u8] = b"*=$0200\n LDA #[1+2]*3\n.WORD [4^5],>$1234\n.BYTE 256\n";

/// An expression with brackets and operators, which boxes hold.
const EXPRESSION: &[u8] = b"<[name+2]*$4/%101-'c'";

/// The fault that a call answered.
#[derive(Clone, Copy, Debug, PartialEq, Eq, Error)]
enum Fault {
    #[error("{0}")]
    Bus(#[from] BusFault),
    #[error("{0}")]
    Session(#[from] SessionFault),
    #[error("{0}")]
    Line(LineFault),
    #[error("{0}")]
    Source(AsmFaultKind),
    #[error("{0}")]
    Tape(TapeFaultKind),
    #[error("Read")]
    Read,
    #[error("NoSuchCall")]
    NoSuchCall,
}

impl Fault {
    fn is_out_of_memory(&self) -> bool {
        matches!(
            self,
            Fault::Bus(BusFault::OutOfMemory)
                | Fault::Session(SessionFault::OutOfMemory)
                | Fault::Line(LineFault::OutOfMemory)
                | Fault::Source(AsmFaultKind::OutOfMemory)
                | Fault::Tape(TapeFaultKind::OutOfMemory)
        )
    }
}

impl From<TapeFault> for Fault {
    ghost use Rattle.tool_trials.specs.declared.Fault.{Fault};

    ghost from_gives = { λ fault e. e ≡ Fault.Tape fault.kind };

    fn from(fault: TapeFault) -> Fault {
        Fault::Tape(fault.kind)
    }
}

/// Assembles a source, and lets what it denotes go.
fn assemble(alloc: Global, map: &MapSpec, source: &[u8]) -> Result<(), Fault> {
    match assembler::assemble(alloc, source, map) {
        Ok(_) => Ok(()),
        Err(fault) => Err(Fault::Source(fault.kind)),
    }
}

/// Assembles a source, and lets its listing go.
fn list(alloc: Global, map: &MapSpec, source: &[u8]) -> Result<(), Fault> {
    match assembler::assemble(alloc, source, map).and_then(|assembly| assembly.listing(alloc)) {
        Ok(_) => Ok(()),
        Err(fault) => Err(Fault::Source(fault.kind)),
    }
}

/// Assembles a text at $0200.
fn assemble_line(alloc: Global, text: &[u8]) -> Result<(), Fault> {
    match assembler::assemble_line(alloc, 0x0200, text) {
        Ok(_) => Ok(()),
        Err(fault) => Err(Fault::Source(fault.kind)),
    }
}

fn cut_expression(alloc: Global) -> Result<(), Fault> {
    match tokens(alloc, EXPRESSION) {
        Ok(_) => Ok(()),
        Err(fault) => Err(Fault::Line(fault)),
    }
}

fn parse_expression(alloc: Global) -> Result<(), Fault> {
    match tokens(alloc, EXPRESSION).and_then(|found| parse_expr(alloc, &found)) {
        Ok(_) => Ok(()),
        Err(fault) => Err(Fault::Line(fault)),
    }
}

fn new_saved(alloc: Global) -> Result<(), Fault> {
    Saved::new(alloc)?;
    Ok(())
}

fn new_checkpoint(alloc: Global) -> Result<(), Fault> {
    Checkpoint::new(alloc)?;
    Ok(())
}

fn new_image(alloc: Global) -> Result<(), Fault> {
    Image::new(alloc)?;
    Ok(())
}

fn new_bus(alloc: Global, map: MapSpec) -> Result<(), Fault> {
    Bus::new(alloc, map)?;
    Ok(())
}

fn new_machine(alloc: Global, map: MapSpec) -> Result<(), Fault> {
    let image = Image::new(alloc)?;
    Machine::new(alloc, map, &image)?;
    Ok(())
}

/// A session on nothing, with a history of 8 events.
fn new_session(alloc: Global, map: MapSpec) -> Result<Session, Fault> {
    let image = Image::new(alloc)?;
    Ok(Session::new(alloc, map, &image, 8)?)
}

fn let_go(session: Result<Session, Fault>) -> Result<(), Fault> {
    session?;
    Ok(())
}

fn set_break(alloc: Global, map: MapSpec) -> Result<(), Fault> {
    Ok(new_session(alloc, map)?.set_break(0x0200)?)
}

fn set_watch(alloc: Global, map: MapSpec) -> Result<(), Fault> {
    Ok(new_session(alloc, map)?.set_watch(0x0200)?)
}

fn read_at_once(alloc: Global) -> Result<(), Fault> {
    read_tape(alloc, b";0000000000")?;
    Ok(())
}

fn read_in_pieces(alloc: Global) -> Result<(), Fault> {
    read_pieces(alloc, &[b";00000".as_slice(), b"", b"00000"])?;
    Ok(())
}

/// Reads a tape from a reader that never fails.
fn read_from(alloc: Global) -> Result<(), Fault> {
    let mut tape = b";0000000000".as_slice();
    match read_tape_from(alloc, &mut tape) {
        Ok(_) => Ok(()),
        Err(TapeReadFault::Tape(fault)) => Err(Fault::Tape(fault.kind)),
        Err(TapeReadFault::Read) => Err(Fault::Read),
    }
}

fn new_reader(alloc: Global) -> Result<(), Fault> {
    TapeReader::new(alloc)?;
    Ok(())
}

fn write(alloc: Global) -> Result<(), Fault> {
    let image = Image::new(alloc)?;
    write_tape(alloc, &image)?;
    Ok(())
}

fn write_and_read(alloc: Global) -> Result<(), Fault> {
    let image = Image::new(alloc)?;
    through_tape(alloc, &image)?;
    Ok(())
}

/// Makes the call that a word names, on the map without ROM, and lets its value go.
fn make(alloc: Global, word: &str) -> Result<(), Fault> {
    let map = MapSpec::new(None, 0xf000)?;
    match word {
        "nothing" => Ok(()),
        "image_new" => new_image(alloc),
        "bus_new" => new_bus(alloc, map),
        "machine_new" => new_machine(alloc, map),
        "saved_new" => new_saved(alloc),
        "checkpoint_new" => new_checkpoint(alloc),
        "tokens" => cut_expression(alloc),
        "parse_expr" => parse_expression(alloc),
        "session_new" => let_go(new_session(alloc, map)),
        "assemble" => assemble(alloc, &map, SOURCE),
        "assemble_faulty" => assemble(alloc, &map, FAULTY_SOURCE),
        "assemble_value" => assemble(alloc, &map, FAULTY_VALUE),
        "listing" => list(alloc, &map, SOURCE),
        "assemble_line" => assemble_line(alloc, b"LDA #[1+2]*4/$4|%101"),
        "assemble_line_faulty" => assemble_line(alloc, b".BYTE 1,2,[3*4],name"),
        "set_break" => set_break(alloc, map),
        "set_watch" => set_watch(alloc, map),
        "read_tape" => read_at_once(alloc),
        "read_pieces" => read_in_pieces(alloc),
        "read_tape_from" => read_from(alloc),
        "tape_reader_new" => new_reader(alloc),
        "write_tape" => write(alloc),
        "through_tape" => write_and_read(alloc),
        _ => Err(Fault::NoSuchCall),
    }
}

/// Makes the calls in order until one fails, and returns the exit status: 3 if memory ran out, and
/// 1 for another fault.
fn run(rt: &HostRuntime) -> io::Result<u8> {
    for word in env::args(rt)?.skip(1) {
        match make(rt.alloc(), word.as_str()) {
            Ok(()) => println!(rt; "{word} Ok")?,
            Err(fault) => {
                println!(rt; "{word} {fault}")?;
                return Ok(if fault.is_out_of_memory() { 3 } else { 1 });
            }
        }
    }
    Ok(0)
}

/// Whether the first word is `speed`.
fn is_for_speed(rt: &HostRuntime) -> io::Result<bool> {
    match env::args(rt)?.nth(1) {
        Some(word) => Ok(word.as_str() == "speed"),
        None => Ok(false),
    }
}

/// Does what the words ask for, and returns the exit status.
fn serve(rt: &HostRuntime) -> io::Result<u8> {
    if is_for_speed(rt)? {
        return Ok(u8::from(speed::run(rt).is_err()));
    }
    run(rt)
}

fn main(rt: HostRuntime) -> ExitCode {
    match serve(&rt) {
        Ok(status) => ExitCode::from(status),
        Err(error) => {
            let is_memory = error.kind() == io::ErrorKind::OutOfMemory;
            let text = if is_memory { "OutOfMemory" } else { "WORDS" };
            let _ = eprintln!(rt; "tool_trials: {text}");
            ExitCode::from(if is_memory { 3 } else { 4 })
        }
    }
}
