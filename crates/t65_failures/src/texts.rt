//! Places, values and rows as text.

ghost use Rattle.std.specs.Prelude.{◌≡◌, ◌++◌, OnOk, string_bytes};
ghost use Rattle.t65_failures.specs.Texts.{named_address, named_byte, named_count};
ghost use Rattle.t65_failures.specs.Texts.{number_text, place_text, register_name, relation_text};
ghost use Rattle.t65_failures.specs.Texts.{value_text};

use crate::wording::{CYCLES, INPUT, OUTPUT_BYTE, OUTPUT_COUNT};
use std::alloc::AllocError;
use t65_reader::{Range, Register, Relation, Target};

fn register_name(register: Register) -> &'static str
    ensures { result.now ≡ register_name register }
{
    match register {
        Register::A => "A",
        Register::X => "X",
        Register::Y => "Y",
        Register::S => "S",
        Register::P => "P",
    }
}

/// Appends a place as a row names it.
pub fn push_place(text: &mut String, place: Target) -> Result<(), AllocError>
    ensures { OnOk result (string_bytes text.new ≡ string_bytes text.old ++ place_text place) }
{
    match place {
        Target::Register(register) => text.push_str(register_name(register)),
        Target::Flag(flag) => text.push_str(flag.letter()),
        Target::Byte(address) => write!(text, "[{address:04X}]"),
        Target::Word(address) => write!(text, "[{address:04X}].w"),
        Target::Input => text.push_str(INPUT),
        Target::Output(index) => write!(text, "{}{index}", OUTPUT_BYTE),
        Target::OutputCount => text.push_str(OUTPUT_COUNT),
        Target::Cycles => text.push_str(CYCLES),
    }
}

fn relation_text(relation: Relation) -> &'static str
    ensures { result.now ≡ relation_text relation }
{
    match relation {
        Relation::Equal => "=",
        Relation::Unequal => "!=",
        Relation::Below => "<",
        Relation::Above => ">",
        Relation::AtMost => "<=",
        Relation::AtLeast => ">=",
    }
}

/// Appends a relation as a row writes it.
pub fn push_relation(text: &mut String, relation: Relation) -> Result<(), AllocError>
    ensures { OnOk result (string_bytes text.new
        ≡ string_bytes text.old ++ relation_text relation) }
{
    text.push_str(relation_text(relation))
}

/// Appends a number as a row would write it for a place.
pub fn push_number(text: &mut String, place: Target, number: u64) -> Result<(), AllocError>
    ensures { OnOk result (string_bytes text.new
        ≡ string_bytes text.old ++ number_text place number) }
{
    match place {
        Target::Cycles | Target::OutputCount | Target::Flag(_) => write!(text, "{number}"),
        Target::Word(_) => write!(text, "{number:04X}"),
        Target::Register(_) | Target::Byte(_) | Target::Input | Target::Output(_) => {
            write!(text, "{number:02X}")
        }
    }
}

/// Appends a byte behind words.
#[tactic(auto, unfolding(crate::specs::Texts::named_byte))]
pub fn push_named_byte(text: &mut String, words: &str, byte: u8) -> Result<(), AllocError>
    ensures { OnOk result (string_bytes text.new
        ≡ string_bytes text.old ++ named_byte words.now byte) }
{
    write!(text, "{words}{byte:02X}")
}

/// Appends an address behind words.
#[tactic(auto, unfolding(crate::specs::Texts::named_address))]
pub fn push_named_address(text: &mut String, words: &str, address: u16) -> Result<(), AllocError>
    ensures { OnOk result (string_bytes text.new
        ≡ string_bytes text.old ++ named_address words.now address) }
{
    write!(text, "{words}{address:04X}")
}

/// Appends a count behind words.
#[tactic(auto, unfolding(crate::specs::Texts::named_count))]
pub fn push_named_count(text: &mut String, words: &str, count: u64) -> Result<(), AllocError>
    ensures { OnOk result (string_bytes text.new
        ≡ string_bytes text.old ++ named_count words.now count) }
{
    write!(text, "{words}{count}")
}

/// Appends the value of a range's letter.
pub fn push_value(text: &mut String, range: Range, value: u32) -> Result<(), AllocError>
    ensures { OnOk result (string_bytes text.new
        ≡ string_bytes text.old ++ value_text range value) }
{
    text.push(range.letter as char)?;
    write!(text, "={value:02X}")
}
