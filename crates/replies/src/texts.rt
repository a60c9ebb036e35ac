//! The lines of replies.

ghost use Rattle.std.specs.Prelude.{◌≡◌, ◌+◌, ◌≤◌, ◌∷◌, ◌++◌, [], codes, decimal, length, min};
ghost use Rattle.model.specs.Text.{address_part, memory_row, output_row, register_line};
ghost use Rattle.model.specs.Transcript.{fault_line, refusal_line, refused_text, run_line};
ghost use Rattle.model.specs.Transcript.{source_fault_line, why_text};

use debugger::Session;
use formatting::{Text, push_bytes, push_decimal, push_hex_address, push_hex_byte, push_status};
use model::{AsmFaultKind, EventFault, RunEnd, SessionFault, Why};

/// Returns the register line.
#[tactic(auto, unfolding(model::specs::Text::register_line))]
pub fn register_text(session: &Session) -> Text
    ensures { result.items ≡ register_line session.now.current }
{
    let regs = session.regs();
    let mut text = Text::new();
    push_bytes(&mut text, b"A=");
    push_hex_byte(&mut text, regs.a);
    push_bytes(&mut text, b" X=");
    push_hex_byte(&mut text, regs.x);
    push_bytes(&mut text, b" Y=");
    push_hex_byte(&mut text, regs.y);
    push_bytes(&mut text, b" S=");
    push_hex_byte(&mut text, regs.s);
    push_bytes(&mut text, b" P=");
    push_status(&mut text, regs.flags);
    push_bytes(&mut text, b" PC=");
    push_hex_address(&mut text, regs.pc);
    push_bytes(&mut text, b" CYC=");
    push_decimal(&mut text, session.cycles());
    push_bytes(&mut text, b"\n");
    text
}

/// Returns why an event was rejected, after `! `.
#[tactic(auto, unfolding(model::specs::Transcript::fault_line))]
pub fn fault_text(fault: EventFault) -> Text
    ensures { result.items ≡ fault_line fault }
{
    let mut text = Text::new();
    push_bytes(&mut text, b"! ");
    push_refusal(&mut text, fault);
    push_bytes(&mut text, b"\n");
    text
}

/// Appends why an event was rejected.
#[tactic(auto, unfolding(model::specs::Transcript::refused_text))]
fn push_refusal(text: &mut Text, fault: EventFault)
    requires { length text.old.items ≤ 30 }
    ensures written { text.new.items ≡ text.old.items ++ refused_text fault }
    ensures short { length text.new.items ≤ length text.old.items + 34 }
{
    match fault {
        EventFault::Undocumented { opcode, pc } => {
            push_bytes(text, b"FAULT ");
            push_hex_byte(text, opcode);
            push_bytes(text, b" AT ");
            push_hex_address(text, pc);
        }
        EventFault::ConsoleFull => push_bytes(text, b"CONSOLE FULL"),
        EventFault::CyclesFull => push_bytes(text, b"CYCLES FULL"),
        fault => {
            push_bytes(text, fault.name().as_bytes());
            push_bytes(text, b" ");
            push_decimal(text, fault.number() as u64);
        }
    }
}

/// Appends why a run ended.
#[tactic(auto, unfolding(model::specs::Transcript::why_text))]
fn push_reason(text: &mut Text, why: Why)
    requires { length text.old.items ≤ 30 }
    ensures written { text.new.items ≡ text.old.items ++ why_text why }
    ensures short { length text.new.items ≤ length text.old.items + 34 }
{
    match why {
        Why::Watch(address) => {
            push_bytes(text, b"WATCH ");
            push_hex_address(text, address);
        }
        Why::Break(address) => {
            push_bytes(text, b"BREAK ");
            push_hex_address(text, address);
        }
        Why::Limit => push_bytes(text, b"LIMIT"),
        Why::Refused(fault) => push_refusal(text, fault),
    }
}

/// Returns how many steps a run made, and why it ended.
#[tactic(auto, unfolding(model::specs::Transcript::run_line))]
pub fn run_text(end: RunEnd) -> Text
    ensures { result.items ≡ run_line end }
{
    let mut text = Text::new();
    push_bytes(&mut text, b"DID ");
    push_decimal(&mut text, end.did as u64);
    push_bytes(&mut text, b" ");
    push_reason(&mut text, end.why);
    push_bytes(&mut text, b"\n");
    text
}

/// Returns why a call of the session was rejected.
#[tactic(auto, unfolding(model::specs::Transcript::refusal_line))]
pub fn refusal_text(fault: SessionFault) -> Text
    ensures { result.items ≡ refusal_line fault }
{
    let mut text = Text::new();
    match fault {
        SessionFault::NoHistory { held } => {
            push_bytes(&mut text, b"! HISTORY ");
            push_decimal(&mut text, held as u64);
            push_bytes(&mut text, b"\n");
        }
        fault => {
            push_bytes(&mut text, b"! ");
            push_bytes(&mut text, fault.name().as_bytes());
            push_bytes(&mut text, b" ");
            push_decimal(&mut text, fault.number() as u64);
            push_bytes(&mut text, b"\n");
        }
    }
    text
}

/// Returns why a text is not assembled.
#[tactic(auto, unfolding(model::specs::Transcript::source_fault_line))]
pub fn source_fault_text(kind: AsmFaultKind) -> Text
    ensures { result.items ≡ source_fault_line kind }
{
    let mut text = Text::new();
    push_bytes(&mut text, b"! ");
    push_bytes(&mut text, kind.name().as_bytes());
    push_bytes(&mut text, b" ");
    push_decimal(&mut text, kind.number() as u64);
    push_bytes(&mut text, b"\n");
    text
}

/// Returns an address after a space.
#[tactic(auto, unfolding(model::specs::Text::address_part))]
pub fn address_text(address: u16) -> Text
    ensures { result.items ≡ address_part address }
{
    let mut text = Text::new();
    push_bytes(&mut text, b" ");
    push_hex_address(&mut text, address);
    text
}

/// Returns a row of memory: the bytes from one address to another, at most 16.
pub fn row_text(session: &Session, first: u16, last: u16) -> Text
    requires { last ≤ first + 15 }
    ensures { result.items ≡ memory_row session.now.current.bus.memory first last }
{
    let mut text = Text::new();
    push_hex_address(&mut text, first);
    push_bytes(&mut text, b" ");
    for address in first..=last {
        push_bytes(&mut text, b" ");
        push_hex_byte(&mut text, session.peek(address));
    }
    push_bytes(&mut text, b"\n");
    text
}

/// Returns the last address of the row that starts at an address.
pub fn row_end(start: u16, last: u16) -> u16
    ensures { result ≡ min last (start + 15) }
{
    if last.saturating_sub(start) < 16 {
        last
    } else {
        start + 15
    }
}

/// Returns how many bytes the output has.
pub fn output_head(session: &Session) -> Text
    ensures { result.items
        ≡ codes "OUT " ++ decimal (length session.now.current.bus.out) ++ 10 ∷ [] }
{
    let mut text = Text::new();
    push_bytes(&mut text, b"OUT ");
    push_decimal(&mut text, session.output_len() as u64);
    push_bytes(&mut text, b"\n");
    text
}

/// Returns a row of output: the bytes from an index on, at most 32.
pub fn output_row_text(session: &Session, from: u32) -> Text
    ensures { result.items ≡ output_row session.now.current.bus.out from }
{
    let mut text = Text::new();
    let count = session.output_len().saturating_sub(from).min(32);
    for index in from..from + count {
        push_hex_byte(&mut text, session.output_at(index).unwrap_or(0));
    }
    push_bytes(&mut text, b"\n");
    text
}
