//! The values of a row, what is given, and what came.

ghost use Rattle.std.specs.Prelude.{◌≡◌, ◌≤◌, ◌<◌, ◌==◌, ◌+◌, IfSome, Some, None, MatchOption, true, false};
ghost use Rattle.std.specs.Prelude.{length, not};
ghost use Rattle.std.specs.List.{list_all};
ghost use Rattle.model.specs.Arithmetic.{bit};
ghost use Rattle.model.specs.Effect.{status};
ghost use Rattle.model.specs.State.{State};
ghost use Rattle.t65_runner.specs.Start.{IsSince};
ghost use Rattle.t65_runner.specs.Passes.{atom_number, came, compares, given_all, given_one};
ghost use Rattle.t65_runner.specs.Passes.{giving, giving_byte, giving_word, if_byte, item_holds, joined};
ghost use Rattle.t65_runner.specs.Passes.{number_of, operate, word_at};
ghost use Rattle.t65_runner.specs.Passes.{register_of, setting_of};

use crate::range_values::{Values, random_byte};
use debugger::{Event, Regs, Session, Setting};
use t65_reader::{Item, Register, Relation, Target};
use t65_values::{Atom, Operation, Operator, Value};

/// What a call is compared with: the state in which it began.
#[derive(Clone, Copy)]
pub struct CallStart {
    pub output_count: u32,
    pub cycles: u64,
    pub stack: u8,
}

/// Returns the number that the bytes of a session at an address and at the next one are, the low
/// one first.
fn word_at(session: &Session, address: u16) -> u32
    ensures { result ≡ word_at session.now.current.bus.memory address }
{
    let low = session.peek(address);
    let high = session.peek(address.wrapping_add(1));
    low as u32 + 256 * high as u32
}

fn atom_number(session: &Session, values: Values, atom: Atom) -> u32
    ensures { result ≡ atom_number values session.now.current.bus.memory atom }
{
    match atom {
        Atom::Number(number) => number,
        Atom::First => values.first,
        Atom::Second => values.second,
        Atom::Third => values.third,
        Atom::Fourth => values.fourth,
        Atom::Byte(address) => session.peek(address) as u32,
        Atom::Word(address) => word_at(session, address),
        Atom::Random(place) => random_byte(values.number, place),
    }
}

fn operate(operation: Operation, a: u32, b: u32) -> u32
    ensures { result ≡ operate operation a b }
{
    match operation {
        Operation::Add => ((a as u64 + b as u64) % 4294967296) as u32,
        Operation::Subtract => ((a as u64 + (4294967296 - b as u64)) % 4294967296) as u32,
        Operation::Multiply => (a as u64 * b as u64 % 4294967296) as u32,
        Operation::Divide => { if b == 0 { 0 } else { a / b } }
        Operation::Remainder => { if b == 0 { 0 } else { a % b } }
        Operation::And => a & b,
        Operation::Or => a | b,
        Operation::ExclusiveOr => a ^ b,
    }
}

fn joined(session: &Session, values: Values, number: u32, by: Option<Operator>) -> u32
    ensures { result ≡ joined values session.now.current.bus.memory number by }
{
    match by {
        None => number,
        Some(by) => operate(by.operation, number, atom_number(session, values, by.right)),
    }
}

/// Returns the number that a value is for values of the ranges, and what is in memory.
#[tactic(auto, unfolding(crate::specs::Passes::number_of))]
pub fn number_of(session: &Session, values: Values, value: Value) -> u32
    ensures { result ≡ number_of values session.now.current.bus.memory value }
{
    let first = atom_number(session, values, value.first);
    let second = joined(session, values, first, value.second);
    joined(session, values, second, value.third)
}

fn setting_of(register: Register, byte: u8) -> Setting
    ensures { result ≡ setting_of register byte }
{
    match register {
        Register::A => Setting::A(byte),
        Register::X => Setting::X(byte),
        Register::Y => Setting::Y(byte),
        Register::S => Setting::S(byte),
        Register::P => Setting::P(byte),
    }
}

/// Returns the event that gives a place of a byte or less a value, or `None` where the place cannot
/// have it.
#[tactic(auto, unfolding(crate::specs::Passes::giving_byte))]
fn giving_byte(regs: Regs, place: Target, number: u32) -> Option<Event>
    ensures { result ≡ giving_byte regs place number }
{
    if number > 255 {
        return None;
    }
    let byte = number as u8;
    match place {
        Target::Register(register) => Some(Event::Set(setting_of(register, byte))),
        Target::Flag(flag) => {
            if byte > 1 {
                return None;
            }
            let flags = flag.with(byte == 1, regs.flags);
            Some(Event::Set(Setting::P(flags.to_byte(false))))
        }
        Target::Byte(address) => Some(Event::Patch {
            address,
            bytes: [byte, 0, 0],
            count: 1,
        }),
        Target::Input => Some(Event::Input(byte)),
        Target::Word(_) | Target::Output(_) | Target::OutputCount | Target::Cycles => None,
    }
}

/// Returns the event that gives the two bytes from an address on a value, or `None` where it has
/// more than two bytes.
fn giving_word(address: u16, number: u32) -> Option<Event>
    ensures { result ≡ giving_word address number }
{
    if number > 65535 {
        return None;
    }
    Some(Event::Patch {
        address,
        bytes: [(number % 256) as u8, (number / 256) as u8, 0],
        count: 2,
    })
}

/// Returns the event that gives a place a value, or `None` where the place cannot have it.
#[tactic(auto, unfolding(crate::specs::Passes::giving))]
pub fn giving(regs: Regs, place: Target, number: u32) -> Option<Event>
    ensures { result ≡ giving regs place number }
{
    match place {
        Target::Word(address) => giving_word(address, number),
        _ => giving_byte(regs, place, number),
    }
}

/// Gives one item, and returns whether it was taken.
#[tactic(auto, using(crate::proofs::Since::since_state), unfolding(crate::specs::Passes::given_one))]
pub fn given_one(session: &mut Session, values: Values, item: Item) -> bool
    ensures taken { result ≡ true → given_one values item session.old ≡ Some session.new }
    ensures refused { result ≡ false → given_one values item session.old ≡ None }
    ensures same { result ≡ false → session.new ≡ session.old }
    ensures since { (s : State) → IsSince s session.old → IsSince s session.new }
    ensures stops { session.new.breaks ≡ session.old.breaks }
{
    match giving(
        session.regs(),
        item.place,
        number_of(session, values, item.value),
    ) {
        Some(event) => session.event(event).is_ok(),
        None => false,
    }
}

/// Returns what of a session a call is compared with.
pub fn call_start(session: &Session) -> CallStart
    ensures count { result.output_count ≡ length session.now.current.bus.out }
    ensures cycles { result.cycles ≡ session.now.current.cycles }
    ensures stack { result.stack ≡ session.now.current.regs.s }
    ensures within { result.output_count ≤ 65536 }
{
    // For the proof: the output has 65,536 bytes at most.
    session.is_state();
    CallStart {
        output_count: session.output_len(),
        cycles: session.cycles(),
        stack: session.regs().s,
    }
}

fn register_of(register: Register, regs: Regs) -> u8
    ensures { result ≡ register_of register regs }
{
    match register {
        Register::A => regs.a,
        Register::X => regs.x,
        Register::Y => regs.y,
        Register::S => regs.s,
        Register::P => regs.flags.to_byte(false),
    }
}

/// Returns what is in a place after a call, or `None` where nothing is.
#[tactic(auto, unfolding(crate::specs::Passes::came))]
pub fn came(session: &Session, before: CallStart, place: Target) -> Option<u64>
    requires { before.output_count ≤ 65536 }
    ensures { (state : State) → before.output_count ≡ length state.bus.out
        → before.cycles ≡ state.cycles → result ≡ came state session.now.current place }
{
    match place {
        Target::Register(register) => Some(register_of(register, session.regs()) as u64),
        Target::Flag(flag) => Some(flag.of(session.regs().flags) as u64),
        Target::Byte(address) => Some(session.peek(address) as u64),
        Target::Word(address) => Some(word_at(session, address) as u64),
        Target::Input => None,
        Target::Output(index) => {
            let byte = session.output_at(before.output_count + index as u32)?;
            Some(byte as u64)
        }
        Target::OutputCount => {
            Some(session.output_len().saturating_sub(before.output_count) as u64)
        }
        Target::Cycles => Some(session.cycles().saturating_sub(before.cycles)),
    }
}

pub fn compares(relation: Relation, came: u64, wanted: u32) -> bool
    ensures { result ≡ compares relation came wanted }
{
    match relation {
        Relation::Equal => came == wanted as u64,
        Relation::Unequal => came != wanted as u64,
        Relation::Below => came < wanted as u64,
        Relation::Above => came > wanted as u64,
        Relation::AtMost => came <= wanted as u64,
        Relation::AtLeast => came >= wanted as u64,
    }
}

/// Gives all items in order, and returns whether all were taken; it ends with the first that is
/// not.
pub fn given_all(session: &mut Session, values: Values, items: &[Item]) -> bool
    ensures taken { result ≡ true
        → given_all values items.now session.old ≡ Some session.new }
    ensures refused { result ≡ false → given_all values items.now session.old ≡ None }
    ensures since { (s : State) → IsSince s session.old → IsSince s session.new }
    ensures stops { session.new.breaks ≡ session.old.breaks }
{
    for item in items {
        if !given_one(session, values, *item) {
            return false;
        }
    }
    true
}

/// Returns whether an item holds after a call.
#[tactic(auto, unfolding(crate::specs::Passes::item_holds))]
fn item_holds(session: &Session, before: CallStart, values: Values, item: &Item) -> bool
    requires { before.output_count ≤ 65536 }
    ensures { (state : State) → before.output_count ≡ length state.bus.out
        → before.cycles ≡ state.cycles
        → result ≡ item_holds values state session.now.current item.now }
{
    match came(session, before, item.place) {
        Some(came) => compares(item.relation, came, number_of(session, values, item.value)),
        None => false,
    }
}

/// Returns whether all items hold after a call.
pub fn all_hold(session: &Session, before: CallStart, values: Values, items: &[Item]) -> bool
    requires { before.output_count ≤ 65536 }
    ensures { (state : State) → before.output_count ≡ length state.bus.out
        → before.cycles ≡ state.cycles
        → result ≡ list_all (item_holds values state session.now.current) items.now }
{
    for item in items {
        if !item_holds(session, before, values, item) {
            return false;
        }
    }
    true
}
