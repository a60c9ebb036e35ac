//! A turn: a line of input if one is asked for, and a step.

ghost use Rattle.std.specs.Prelude.{◌≡◌, ◌==◌, ◌+◌, ◌≤◌, ◌<◌, ◌++◌, ℕ, List, IfOk, OnOk};
ghost use Rattle.std.specs.Prelude.{None, OnErr, false};
ghost use Rattle.std.specs.Io.KnownBytes.{Consumes, Keeps};
ghost use Rattle.model.specs.Step.{step};
ghost use Rattle.model.specs.State.{input_waits, State};
ghost use Rattle.model.specs.Transcript.{after_input};
ghost use Rattle.model.specs.Writers.{Writes};
ghost use Rattle.accesses.specs.Access.{access_here};
ghost use Rattle.accesses.specs.Looking.{is_input_address};
ghost use Rattle.console.specs.Given.{given_to};
ghost use Rattle.console.specs.Line.{room_of};
ghost use Rattle.console.specs.Playing.{asks, came as is_some_line, ending_after, ending_before};
ghost use Rattle.console.specs.Playing.{ending_here, fall_of, is_idle, memo_after};
ghost use Rattle.console.specs.Playing.{same_flags, same_regs, stands, stepped, stray_of};
ghost use Rattle.console.specs.Taking.{counted, take_count, Waits};
ghost use Rattle.console.specs.Turns.{CutTurn, EndsOnce, EndsWith, IsLine, MayCome, TurnsTo};
ghost use Rattle.console.specs.Turns.{first_known, known, play_at, turn_to};

use crate::ending::{Ending, PlayFault};
use crate::input::hand_in_line;
use crate::memo::Memo;
use crate::output::{flush, put_output};
use accesses::{Access, Written, access_here, is_break, moment_of, row_here, stays, stores_by};
use debugger::Session;
use model::{Event, Flags, Regs};
use std::io::{Read, Write};

/// What a run knows besides its session.
#[derive(Drop)]
pub struct Player {
    /// What it remembers.
    pub memo: Memo,
    /// Where a byte was ever written, by the file or by the program.
    pub written: Written,
    /// How many bytes of input wait.
    pub waiting: u32,
    /// Whether the reader has ended.
    pub is_over: bool,
}

/// Returns whether an address is base+1, where a read takes a byte of input.
fn is_data(session: &Session, address: u16) -> bool
    ensures { result ≡ (address == session.now.current.bus.map.port + 1) }
{
    // For the proof: that the port's base is a multiple of four.
    session.is_state();
    session.is_port(address) & (address % 4 == 1)
}

/// Returns whether input waits.
#[tactic(auto, using(crate::proofs::Port::waits_some))]
fn input_waits(session: &Session, waiting: u32) -> bool
    requires { Waits session.now.current waiting }
    ensures { result ≡ input_waits session.now.current.bus }
{
    waiting > 0
}

/// Returns whether an address is base+2, where a read says whether input waits.
fn is_signal(session: &Session, address: u16) -> bool
    ensures { result ≡ (address == session.now.current.bus.map.port + 2) }
{
    // For the proof: that the port's base is a multiple of four.
    session.is_state();
    session.is_port(address) & (address % 4 == 2)
}

/// Returns whether a bus read looks for input.
fn is_look(session: &Session, read: Option<u16>) -> bool
    ensures { result ≡ is_input_address session.now.current.bus.map read }
{
    match read {
        None => false,
        Some(address) => is_data(session, address) || is_signal(session, address),
    }
}

/// Returns whether a line is asked for, by the access of the instruction at PC.
#[tactic(auto, unfolding(crate::specs::Playing::asks, accesses::specs::Looking::looks))]
fn asks(session: &Session, player: &Player, access: Access) -> bool
    requires waits { Waits session.now.current player.now.waiting }
    requires access { access ≡ access_here session.now.current }
    ensures { result ≡ asks player.now.memo session.now.current }
{
    if input_waits(session, player.waiting) {
        return false;
    }
    if player.memo.rests {
        !session.regs().flags.i
    } else {
        is_look(session, access.read)
    }
}

fn same_flags(f: Flags, g: Flags) -> bool
    ensures { result ≡ same_flags f g }
{
    f.n == g.n && f.v == g.v && f.d == g.d && f.i == g.i && f.z == g.z && f.c == g.c
}

fn same_regs(r: Regs, q: Regs) -> bool
    ensures { result ≡ same_regs r q }
{
    r.a == q.a
        && r.x == q.x
        && r.y == q.y
        && r.s == q.s
        && r.pc == q.pc
        && same_flags(r.flags, q.flags)
}

fn is_idle(last: Option<Regs>, regs: Regs) -> bool
    ensures { result ≡ is_idle last regs }
{
    match last {
        None => false,
        Some(last) => same_regs(last, regs),
    }
}

/// Returns why the run ends before its next step by what was remembered, if it does.
#[tactic(auto, unfolding(crate::specs::Playing::ending_before))]
fn ending_before(memo: Memo, is_asked: bool, came: bool, regs: Regs) -> Option<Ending>
    ensures { result ≡ ending_before memo is_asked came regs }
{
    if memo.rests {
        if came { None } else { Some(Ending::Rest) }
    } else if is_asked && !came && is_idle(memo.idle, regs) {
        Some(Ending::InputOver)
    } else {
        None
    }
}

/// Returns whether one of a vector's bytes was ever written.
fn stands(written: &Written, vector: u16) -> bool
    requires { vector < 65535 }
    ensures { result ≡ stands written.now vector }
{
    written.contains(vector) || written.contains(vector + 1)
}

/// Returns why a run ends where nothing was ever written at PC.
fn stray_of(written: &Written, from: Option<u16>) -> Ending
    ensures { result ≡ stray_of written.now from }
{
    if from.is_some() || stands(written, 0xfffc) {
        Ending::Unwritten { from }
    } else {
        Ending::NoReset
    }
}

/// Returns why a run ends where nothing stands that could be run, if it does.
#[tactic(auto, unfolding(crate::specs::Playing::fall_of))]
fn fall_of(session: &Session, written: &Written, from: Option<u16>) -> Option<Ending>
    ensures { result ≡ fall_of written.now from session.now.current }
{
    if !written.contains(session.regs().pc) {
        Some(stray_of(written, from))
    } else if !stands(written, 0xfffe) && is_break(row_here(session)) {
        Some(Ending::NoVector)
    } else {
        None
    }
}

/// Returns why the run ends before its next step, if it does.
fn ending_here(session: &Session, player: &Player, is_asked: bool, came: bool) -> Option<Ending>
    ensures { result ≡ ending_here player.now.memo player.now.written is_asked came
        session.now.current }
{
    match ending_before(player.memo, is_asked, came, session.regs()) {
        Some(ending) => Some(ending),
        None => fall_of(session, &player.written, player.memo.from),
    }
}

/// Returns why a run ends after the last step that was asked for.
pub fn ending_after(session: &Session, player: &Player) -> Ending
    requires { Waits session.now.current player.now.waiting }
    ensures { result ≡ ending_after player.now.memo session.now.current }
{
    if player.memo.rests && !asks(session, player, access_here(session)) {
        Ending::Rest
    } else {
        Ending::Limit
    }
}

/// Returns what is remembered after a step, by the access of its instruction.
#[tactic(auto, unfolding(crate::specs::Playing::memo_after))]
fn memo_after(
    memo: Memo,
    is_asked: bool,
    came: bool,
    access: Access,
    before: Regs,
    after: Regs,
) -> Memo
    ensures { (state : State) → access_here state ≡ access → state.regs ≡ before
        → result ≡ memo_after memo is_asked came state after }
{
    let idle = if access.puts_byte() {
        None
    } else if is_asked && !came {
        Some(before)
    } else {
        memo.idle
    };
    Memo {
        rests: stays(before, after),
        idle,
        from: Some(before.pc),
    }
}

/// Returns how many bytes of input a bus read takes.
fn take_count(session: &Session, read: Option<u16>, waiting: u32) -> u32
    requires { Waits session.now.current waiting }
    ensures count { result ≡ take_count read session.now.current.bus }
    ensures within { result ≤ waiting }
{
    match read {
        None => 0,
        Some(address) => {
            if is_data(session, address) && input_waits(session, waiting) {
                1
            } else {
                0
            }
        }
    }
}

/// Returns a count if the stack pointer is what it was, and otherwise 0.
fn counted(before: u8, after: u8, count: u32) -> u32
    ensures value { result ≡ counted before after count }
    ensures within { result ≤ count }
{
    if before == after { count } else { 0 }
}

/// Makes the step of a turn, whose access is known, and writes the output that it adds.
fn make_step<W: Write>(
    session: &mut Session,
    player: &mut Player,
    access: Access,
    is_asked: bool,
    came: bool,
    writer: &mut W,
) -> Result<Option<Ending>, PlayFault>
    requires waits { Waits session.old.current player.old.waiting }
    requires access { access ≡ access_here session.old.current }
    ensures ok { IfOk result (λ ending. (input : List ℕ)
        → stepped (play_at session.old (known player.old) input) is_asked came
        (step session.old.current) ≡ turn_to ending session.new (known player.new) input) }
    ensures waits { OnOk result (Waits session.new.current player.new.waiting) }
    // The step was made, and its output not written to its end.
    ensures err { OnErr result ((input : List ℕ)
        → stepped (play_at session.old (known player.old) input) is_asked came
        (step session.old.current) ≡ turn_to None session.new (known player.new) input) }
    ensures over { player.new.is_over ≡ player.old.is_over }
    ensures output { (text : List ℕ)
        × (session.new.current.bus.out ≡ session.old.current.bus.out ++ text)
        × Writes (W.contents writer.old) (W.contents writer.new) text result }
{
    // For the proof: that the stack pointer has eight bits.
    session.is_state();
    let moment = moment_of(session);
    let count = take_count(session, access.read, player.waiting);
    let before = session.regs();
    let stores = stores_by(access, before.s);
    let shown = session.output_len();
    match session.event(Event::Step) {
        Err(fault) => Ok(Some(Ending::Refused(fault))),
        Ok(()) => {
            let after = session.regs();
            player.waiting -= counted(before.s, after.s, count);
            player.memo = memo_after(player.memo, is_asked, came, access, before, after);
            player.written.note_all(&moment.stored(session, stores));
            match put_output(session, shown, writer) {
                Ok(()) => Ok(None),
                Err(fault) => Err(fault),
            }
        }
    }
}

/// Reads a line and hands it in if one is asked for and the reader has not ended, after all output
/// is flushed. Returns whether one came.
fn supply<R: Read, W: Write>(
    session: &mut Session,
    player: &mut Player,
    is_asked: bool,
    reader: &mut R,
    writer: &mut W,
) -> Result<bool, PlayFault>
    requires { Waits session.old.current player.old.waiting }
    ensures ok { IfOk result (λ came. (told : List ℕ)
        × Consumes (R.remaining reader.old) (R.remaining reader.new) told
        × EndsWith player.old.is_over player.new.is_over (R.remaining reader.old)
        (R.remaining reader.new)
        × EndsOnce player.old.is_over player.new.is_over told
        × (came ≡ is_some_line told)
        × (session.new ≡ after_input session.old told)
        × (session.new.current ≡ given_to session.old.current told)
        × IsLine is_asked player.new.is_over (room_of session.old.current) told) }
    ensures err { OnErr result ((told : List ℕ)
        × Consumes (R.remaining reader.old) (R.remaining reader.new) told
        × EndsWith player.old.is_over player.new.is_over (R.remaining reader.old)
        (R.remaining reader.new)
        × EndsOnce player.old.is_over player.new.is_over told
        × (session.new ≡ after_input session.old told)) }
    ensures waits { OnOk result (Waits session.new.current player.new.waiting) }
    ensures known { known player.new ≡ known player.old }
    ensures kept { Keeps (W.contents writer.old) (W.contents writer.new) }
    ensures output { session.new.current.bus.out ≡ session.old.current.bus.out }
{
    if !is_asked {
        return Ok(false);
    }
    if player.is_over {
        return Ok(false);
    }
    match flush(writer) {
        Ok(()) => {}
        Err(fault) => return Err(fault),
    }
    match hand_in_line(session, reader) {
        Ok(line) => {
            // For the proof: that the input handed in has its room.
            session.is_state();
            player.waiting += line.len;
            player.is_over = line.is_last;
            Ok(line.len > 0)
        }
        Err(fault) => Err(fault),
    }
}

/// Returns how many bytes of input wait.
fn waiting_in(session: &Session) -> u32
    ensures { Waits session.now.current result }
{
    // For the proof: that no more input was taken than handed in.
    session.is_state();
    session.input_len().saturating_sub(session.bus().taken())
}

/// Returns what a run knows before its first turn, in a session where bytes stand at the addresses
/// of `written` alone.
pub fn begin(session: &Session, written: Written) -> Player
    ensures waits { Waits session.now.current result.waiting }
    ensures known { known result ≡ first_known written }
    ensures over { result.is_over ≡ false }
{
    Player {
        memo: Memo {
            rests: false,
            idle: None,
            from: None,
        },
        written,
        waiting: waiting_in(session),
        is_over: false,
    }
}

/// Makes a turn of a run: hands in a line of input if one is asked for, and makes a step. Returns
/// why the run ends here, if it does; then no step is made.
///
/// `play` makes one turn after another. A caller that looks at the session between two turns makes
/// them by itself, from `begin` on. The output of the step is written, and flushed only before a
/// line is read.
///
/// # Errors
///
/// - `Read`: a read failed. The bytes of input before it were handed in, and no step is made.
/// - `Write`: a write or a flush failed, or a write took no byte.
///
/// Source: mos65.
pub fn take_turn<R: Read, W: Write>(
    session: &mut Session,
    player: &mut Player,
    reader: &mut R,
    writer: &mut W,
) -> Result<Option<Ending>, PlayFault>
    requires { Waits session.old.current player.old.waiting }
    ensures ok { IfOk result (λ ending. (told : List ℕ)
        × Consumes (R.remaining reader.old) (R.remaining reader.new) told
        × EndsWith player.old.is_over player.new.is_over (R.remaining reader.old)
        (R.remaining reader.new)
        × EndsOnce player.old.is_over player.new.is_over told
        × TurnsTo session.old (known player.old) told player.new.is_over ending
        session.new (known player.new)) }
    // At an error nothing but a beginning of the turn was done.
    ensures err { OnErr result ((told : List ℕ)
        × Consumes (R.remaining reader.old) (R.remaining reader.new) told
        × EndsWith player.old.is_over player.new.is_over (R.remaining reader.old)
        (R.remaining reader.new)
        × EndsOnce player.old.is_over player.new.is_over told
        × ((rest : List ℕ) → MayCome player.new.is_over rest
        → CutTurn (play_at session.old (known player.old) (told ++ rest)) told rest
        session.new)) }
    ensures waits { OnOk result (Waits session.new.current player.new.waiting) }
    ensures output { (text : List ℕ)
        × (session.new.current.bus.out ≡ session.old.current.bus.out ++ text)
        × Writes (W.contents writer.old) (W.contents writer.new) text result }
{
    // What it reads and stores is the same after a line was handed in.
    let access = access_here(session);
    let is_asked = asks(session, player, access);
    let came = match supply(session, player, is_asked, reader, writer) {
        Ok(came) => came,
        Err(fault) => return Err(fault),
    };
    match ending_here(session, player, is_asked, came) {
        Some(ending) => Ok(Some(ending)),
        None => match make_step(session, player, access, is_asked, came, writer) {
            Ok(ending) => Ok(ending),
            Err(fault) => Err(fault),
        },
    }
}
