//! The names of a program, as a page has them.

ghost use Rattle.std.specs.Prelude.{◌≡◌, ◌++◌, OnOk, slice_get};
ghost use Rattle.std.specs.List.{flat_map};
ghost use Rattle.std.specs.Option.{option_to_list};
ghost use Rattle.page_writer.specs.Facts.{is_shown, kind_word, name_fact, name_facts, number_fact};
ghost use Rattle.source_map.specs.Names.{named_numbers};

use accesses::Written;
use assembler::Assembly;
use formatting::{push_address, push_text};
use std::alloc::AllocError;

/// Returns whether a name is shown as a label: a label of the source, or of a file of names a name
/// of a byte that was loaded.
fn is_shown(is_label: bool, is_other: bool, written: &Written, address: u16) -> bool
    ensures { result ≡ is_shown is_label is_other written.now address }
{
    is_label || (is_other && written.contains(address))
}

/// Returns the word that a name is told with.
fn kind_word(is_label: bool) -> &'static str
    ensures { result.now ≡ kind_word is_label }
{
    if is_label { "label " } else { "name " }
}

/// Appends a name with its address.
#[tactic(auto, unfolding(crate::specs::Facts::name_fact))]
fn push_name(
    text: &mut Vec<u8>,
    is_label: bool,
    address: u16,
    name: &[u8],
) -> Result<(), AllocError>
    ensures { OnOk result (text.new.items ≡ text.old.items ++ name_fact is_label address name.now) }
{
    push_text(text, kind_word(is_label))?;
    push_address(text, address)?;
    push_text(text, " ")?;
    text.extend_from_slice(name)?;
    push_text(text, "\n")
}

/// Appends the name of a number, if the number is an address.
fn push_number(
    text: &mut Vec<u8>,
    name: &[u8],
    number: i32,
    is_label: bool,
    is_other: bool,
    written: &Written,
) -> Result<(), AllocError>
    ensures { OnOk result (text.new.items ≡ text.old.items
        ++ number_fact is_other written.now ((name.now, number), is_label)) }
{
    if number >= 0 && number <= 65535 {
        let address = number as u16;
        let is_label = is_shown(is_label, is_other, written, address);
        return push_name(text, is_label, address, name);
    }
    Ok(())
}

/// Appends the name of an index in an assembly.
fn push_name_at(
    text: &mut Vec<u8>,
    assembly: &Assembly,
    index: usize,
    is_other: bool,
    written: &Written,
) -> Result<(), AllocError>
    ensures { OnOk result (text.new.items ≡ text.old.items
        ++ flat_map (number_fact is_other written.now)
        (option_to_list (slice_get (named_numbers assembly.now) index))) }
{
    match (assembly.symbol(index), assembly.is_label(index)) {
        (Some((name, number)), Some(is_label)) => {
            push_number(text, name, number, is_label, is_other, written)
        }
        _ => Ok(()),
    }
}

/// Appends the names of an assembly whose numbers are addresses: of the source that was loaded, or
/// of another file of names.
pub fn push_names(
    text: &mut Vec<u8>,
    assembly: &Assembly,
    is_other: bool,
    written: &Written,
) -> Result<(), AllocError>
    ensures { OnOk result (text.new.items ≡ text.old.items
        ++ name_facts is_other written.now assembly.now) }
{
    for index in 0..assembly.symbol_count() {
        push_name_at(text, assembly, index, is_other, written)?;
    }
    Ok(())
}
