//! Turns that need no look, many at a time.

ghost use Rattle.std.specs.Prelude.{◌≡◌, ◌<◌, ◌≤◌, [], None, List, true, false, ℕ, length};
ghost use Rattle.cpu.specs.PlainRuns.{AllPlainButLast};
ghost use Rattle.model.specs.Run.{after_steps};
ghost use Rattle.accesses.specs.Moments.{entered, moment_of};
ghost use Rattle.accesses.specs.Writing.{AreMarks, is_written};
ghost use Rattle.console.specs.Playing.{is_at};
ghost use Rattle.console.specs.Stretches.{Bound, Glides};
ghost use Rattle.console.specs.Taking.{Waits};
ghost use Rattle.console.specs.Turns.{TurnsTo, known};

use crate::turn::Player;
use accesses::Written;
use debugger::{PlainRun, Session};

/// The most steps that are made at once, a few thousandths of a second.
const STRETCH: u64 = 1_000_000;

/// Returns whether the program counter is at an address, if there is one.
pub fn is_at(until: Option<u16>, session: &Session) -> bool
    ensures { result ≡ is_at until session.now.current }
{
    match until {
        None => false,
        Some(address) => session.regs().pc == address,
    }
}

/// Makes plain steps, at most `limit`, up to an address that is not among `written`. None of them
/// stores at such an address.
fn run_within(session: &mut Session, written: &Written, limit: u32) -> PlainRun
    ensures within { result.steps ≤ limit }
    ensures session { session.new ≡ after_steps result.steps session.old }
    ensures last { 0 < result.steps → (marks : List ℕ) × AreMarks marks written.now
        × AllPlainButLast marks marks result.steps result.from session.old.current
        session.new.current }
    ensures size { length written.now ≡ 65536 }
{
    let marks = written.marks();
    session.run_plainly(limit, marks, marks)
}

/// Makes plain steps as `run_within` does, up to `until`, and none that stores there.
fn run_up_to(
    session: &mut Session,
    written: &mut Written,
    until: Option<u16>,
    limit: u32,
) -> PlainRun
    ensures within { result.steps ≤ limit }
    ensures session { session.new ≡ after_steps result.steps session.old }
    ensures last { 0 < result.steps → (marks : List ℕ) × Bound marks written.old until
        × AllPlainButLast marks marks result.steps result.from session.old.current
        session.new.current }
    ensures written { written.new ≡ written.old }
{
    match until {
        Some(address) if written.contains(address) => {
            written.forget(address);
            let ran = run_within(session, written, limit);
            written.note(address);
            ran
        }
        _ => run_within(session, written, limit),
    }
}

/// Returns whether the turns that come next may be made many at a time.
fn may_glide(session: &Session, player: &Player, until: Option<u16>) -> bool
    ensures rests { result ≡ true → player.now.memo.rests ≡ false }
    ensures idle { result ≡ true → player.now.memo.idle ≡ None }
    ensures stands { result ≡ true
        → is_written player.now.written session.now.current.regs.pc ≡ true }
    ensures off { result ≡ true → is_at until session.now.current ≡ false }
{
    !player.memo.rests
        && player.memo.idle.is_none()
        && player.written.contains(session.regs().pc)
        && !is_at(until, session)
}

/// Makes turns that need no look, many at a time, and returns how many: none where the next one
/// needs a look.
///
/// Such a turn is a plain step at an address that was written. It stores only where a byte was
/// written before, and not at `until`. So no line is asked for, and the run does not end before
/// `until`.
pub fn glide(session: &mut Session, player: &mut Player, until: Option<u16>, limit: u64) -> u64
    requires waits { Waits session.old.current player.old.waiting }
    ensures within { result ≤ limit }
    ensures turns { Glides until result session.old (known player.old) session.new
        (known player.new) }
    ensures waits { Waits session.new.current player.new.waiting }
    ensures over { player.new.is_over ≡ player.old.is_over }
    ensures output { session.new.current.bus.out ≡ session.old.current.bus.out }
{
    if !may_glide(session, player, until) {
        return 0;
    }
    // For the proof: that the program counter has 16 bits.
    session.is_state();
    let most = limit.min(STRETCH) as u32;
    let ran = run_up_to(session, &mut player.written, until, most);
    if ran.steps == 0 {
        return 0;
    }
    player.memo.from = Some(ran.from);
    ran.steps as u64
}

/// Makes the turn that comes next, if it needs no look: a turn as `glide` makes them many at a
/// time, and no interrupt entry. Returns whether it was made; if not, nothing changes. It puts
/// nothing out, and reads nothing.
///
/// A caller that looks at the session between two turns makes those that it can by this call, which
/// costs less, and the others by `take_turn`. Source: mos65.
pub fn take_plain_turn(session: &mut Session, player: &mut Player) -> bool
    requires waits { Waits session.old.current player.old.waiting }
    ensures made { result ≡ true → TurnsTo session.old (known player.old) [] player.new.is_over
        None session.new (known player.new) }
    ensures entry { result ≡ true
        → entered (moment_of session.old.current) session.new.current ≡ false }
    ensures not { result ≡ false → (session.new ≡ session.old) × (player.new ≡ player.old) }
    ensures waits { Waits session.new.current player.new.waiting }
    ensures over { player.new.is_over ≡ player.old.is_over }
    ensures output { session.new.current.bus.out ≡ session.old.current.bus.out }
{
    if !may_glide(session, player, None) {
        return false;
    }
    let ran = run_within(session, &player.written, 1);
    if ran.steps == 0 {
        return false;
    }
    player.memo.from = Some(ran.from);
    true
}
