//! A turn of a trace, and what is noted of its step.

ghost use Rattle.std.specs.Prelude.{◌≡◌, ◌++◌, ℕ, [], IfErr, IfOk, List, None, OnErr, OnOk, false};
ghost use Rattle.std.specs.Prelude.{true};
ghost use Rattle.console.specs.Taking.{Waits};
ghost use Rattle.console.specs.Turns.{TurnsTo, known};
ghost use Rattle.model.specs.Writers.{Writes};
ghost use Rattle.word_run.specs.Runs.{streams_of};
ghost use Rattle.word_trace.specs.Gathered.{ahead_of, gathered, noted_here, text_of_step};
ghost use Rattle.word_trace.specs.Texts.{pass_step};
ghost use Rattle.word_trace.specs.Traces.{IsOfStreams, NotedCut, NotedTurn, PassedTurn, TurnCut};

use crate::tracer::Tracer;
use arguments::Refusal;
use console::{Ending, Player, take_plain_turn, take_turn};
use debugger::Session;
use std::io::{Read, Write};
use word_run::refusal_of;

/// Makes a turn that needs no look, if the next one is such a turn and nothing would be noted of it
/// before the trace. Returns whether it was made; if not, nothing changes.
fn take_unnoted_turn(tracer: &Tracer<'_>, session: &mut Session, player: &mut Player) -> bool
    requires waits { Waits session.old.current player.old.waiting }
    ensures made { result ≡ true → TurnsTo session.old (known player.old) [] player.new.is_over
        None session.new (known player.new) }
    ensures passed { result ≡ true → gathered tracer.now
        ≡ pass_step session.old.current session.new.current (gathered tracer.now) }
    ensures not { result ≡ false → (session.new ≡ session.old) × (player.new ≡ player.old) }
    ensures waits { Waits session.new.current player.new.waiting }
    ensures over { player.new.is_over ≡ player.old.is_over }
    ensures output { session.new.current.bus.out ≡ session.old.current.bus.out }
{
    if !tracer.touches_no_other(session) {
        return false;
    }
    take_plain_turn(session, player)
}

/// Makes a turn that needs no look, if the next one is such a turn and its step is counted and no
/// more, and counts it. Returns whether it was made; if not, nothing changes.
fn take_counted_turn(tracer: &mut Tracer<'_>, session: &mut Session, player: &mut Player) -> bool
    requires waits { Waits session.old.current player.old.waiting }
    ensures made { result ≡ true → TurnsTo session.old (known player.old) [] player.new.is_over
        None session.new (known player.new) }
    ensures noted { result ≡ true → gathered tracer.new ≡ noted_here session.new.current
        (ahead_of (gathered tracer.old) session.old.current) (gathered tracer.old) }
    ensures text { result ≡ true → text_of_step session.new.current
        (ahead_of (gathered tracer.old) session.old.current) (gathered tracer.old) ≡ [] }
    ensures sheet { tracer.new.sheet ≡ tracer.old.sheet }
    ensures not { result ≡ false → (session.new ≡ session.old) × (player.new ≡ player.old)
        × (tracer.new ≡ tracer.old) }
    ensures waits { Waits session.new.current player.new.waiting }
    ensures over { player.new.is_over ≡ player.old.is_over }
    ensures output { session.new.current.bus.out ≡ session.old.current.bus.out }
{
    if !tracer.has_no_rows() {
        return false;
    }
    if !tracer.touches_no_other(session) {
        return false;
    }
    let regs = session.regs();
    let before = session.cycles();
    if !take_plain_turn(session, player) {
        return false;
    }
    let cycles = session.cycles().saturating_sub(before);
    tracer.count(false, regs.pc, cycles);
    true
}

/// Makes a turn before the trace, and passes over its step. Returns why the run ends here, if it
/// does; then no step is made.
pub fn passed_turn<R: Read, E: Write>(
    tracer: &mut Tracer<'_>,
    session: &mut Session,
    player: &mut Player,
    input: &mut R,
    errors: &mut E,
) -> Result<Option<Ending>, Refusal>
    requires waits { Waits session.old.current player.old.waiting }
    ensures ok { IfOk result (λ ending. PassedTurn ending session.old player.old tracer.old
        (R.remaining input.old) (R.remaining input.new) session.new player.new tracer.new) }
    // At an error the turn was cut short.
    ensures err { OnErr result ((told : List ℕ) × TurnCut session.old player.old
        (R.remaining input.old) (R.remaining input.new) session.new player.new told) }
    ensures fault { IfErr result IsOfStreams }
    ensures sheet { tracer.new.sheet ≡ tracer.old.sheet }
    ensures output { (text : List ℕ)
        × (session.new.current.bus.out ≡ session.old.current.bus.out ++ text)
        × Writes (E.contents errors.old) (E.contents errors.new) text result }
    ensures waits { OnOk result (Waits session.new.current player.new.waiting) }
{
    if take_unnoted_turn(tracer, session, player) {
        return Ok(None);
    }
    pass_slowly(tracer, session, player, input, errors)
}

/// Makes the same turn at once.
fn pass_slowly<R: Read, E: Write>(
    tracer: &mut Tracer<'_>,
    session: &mut Session,
    player: &mut Player,
    input: &mut R,
    errors: &mut E,
) -> Result<Option<Ending>, Refusal>
    requires waits { Waits session.old.current player.old.waiting }
    ensures ok { IfOk result (λ ending. PassedTurn ending session.old player.old tracer.old
        (R.remaining input.old) (R.remaining input.new) session.new player.new tracer.new) }
    // At an error the turn was cut short.
    ensures err { OnErr result ((told : List ℕ) × TurnCut session.old player.old
        (R.remaining input.old) (R.remaining input.new) session.new player.new told) }
    ensures fault { IfErr result IsOfStreams }
    ensures sheet { tracer.new.sheet ≡ tracer.old.sheet }
    ensures output { (text : List ℕ)
        × (session.new.current.bus.out ≡ session.old.current.bus.out ++ text)
        × Writes (E.contents errors.old) (E.contents errors.new) text result }
    ensures waits { OnOk result (Waits session.new.current player.new.waiting) }
{
    let ahead = tracer.look_ahead(session);
    match take_turn(session, player, input, errors) {
        Ok(None) => {}
        Ok(Some(ending)) => return Ok(Some(ending)),
        Err(fault) => return Err(refusal_of(fault)),
    }
    tracer.pass(session, ahead);
    Ok(None)
}

/// Makes a turn of the trace, and notes its step. Returns why the run ends here, if it does; then
/// no step is made.
pub fn noted_turn<R: Read, O: Write, E: Write>(
    tracer: &mut Tracer<'_>,
    session: &mut Session,
    player: &mut Player,
    input: &mut R,
    output: &mut O,
    errors: &mut E,
) -> Result<Option<Ending>, Refusal>
    requires waits { Waits session.old.current player.old.waiting }
    ensures ok { IfOk result (λ ending. NotedTurn ending session.old player.old tracer.old
        (streams_of (R.remaining input.old) (R.remaining input.new) (O.contents output.old)
        (O.contents output.new)) session.new player.new tracer.new) }
    // At an error the turn was cut short, or its text.
    ensures err { OnErr result (NotedCut session.old player.old tracer.old
        (streams_of (R.remaining input.old) (R.remaining input.new) (O.contents output.old)
        (O.contents output.new)) session.new player.new tracer.new) }
    ensures fault { IfErr result IsOfStreams }
    ensures output { (text : List ℕ)
        × (session.new.current.bus.out ≡ session.old.current.bus.out ++ text)
        × Writes (E.contents errors.old) (E.contents errors.new) text result }
    ensures waits { OnOk result (Waits session.new.current player.new.waiting) }
{
    if take_counted_turn(tracer, session, player) {
        return Ok(None);
    }
    note_slowly(tracer, session, player, input, output, errors)
}

/// Makes the same turn at once.
fn note_slowly<R: Read, O: Write, E: Write>(
    tracer: &mut Tracer<'_>,
    session: &mut Session,
    player: &mut Player,
    input: &mut R,
    output: &mut O,
    errors: &mut E,
) -> Result<Option<Ending>, Refusal>
    requires waits { Waits session.old.current player.old.waiting }
    ensures ok { IfOk result (λ ending. NotedTurn ending session.old player.old tracer.old
        (streams_of (R.remaining input.old) (R.remaining input.new) (O.contents output.old)
        (O.contents output.new)) session.new player.new tracer.new) }
    // At an error the turn was cut short, or its text.
    ensures err { OnErr result (NotedCut session.old player.old tracer.old
        (streams_of (R.remaining input.old) (R.remaining input.new) (O.contents output.old)
        (O.contents output.new)) session.new player.new tracer.new) }
    ensures fault { IfErr result IsOfStreams }
    ensures output { (text : List ℕ)
        × (session.new.current.bus.out ≡ session.old.current.bus.out ++ text)
        × Writes (E.contents errors.old) (E.contents errors.new) text result }
    ensures waits { OnOk result (Waits session.new.current player.new.waiting) }
{
    let ahead = tracer.look_ahead(session);
    match take_turn(session, player, input, errors) {
        Ok(None) => {}
        Ok(Some(ending)) => return Ok(Some(ending)),
        Err(fault) => return Err(refusal_of(fault)),
    }
    match tracer.note(session, ahead, output) {
        Ok(()) => Ok(None),
        Err(fault) => Err(fault),
    }
}
