//! Where a program ends before a BRK that has no handler.

ghost use Rattle.std.specs.Prelude.{◌≡◌, ◌++◌, OnOk};
ghost use Rattle.mon_steps.specs.Strays.{brk_text, ended_text, from_text, is_in_line, is_stray};
ghost use Rattle.mon_steps.specs.Strays.{nothing_text, over_cause, over_words, reaches};
ghost use Rattle.mon_steps.specs.Strays.{site_text, stray_text, strayed_text, unserved_text};

use crate::wording::{
    BRK_AT, ENDED_IT, FROM, NO_SERVICE, NOTHING_AT, NOTHING_STANDS, RAN_INTO, WAYS_ON,
};
use formatting::{push_address, push_text};
use mon_instructions::push_place;
use mon_runs::{Session, has_no_handler};
use source_map::{Places, Row};
use std::alloc::AllocError;

/// Returns whether there is a line and it has more than so many bytes.
fn reaches(row: Option<Row>, behind: u32) -> bool
    ensures { result ≡ reaches behind row }
{
    match row {
        None => false,
        Some(row) => behind < row.count,
    }
}

/// Returns whether a line of the source has a byte at an address.
fn is_in_line(places: &Places, address: u16) -> bool
    ensures { result ≡ is_in_line places.now.lines address }
{
    reaches(places.row_at(address), 0)
        || reaches(places.row_at(address.wrapping_sub(1)), 1)
        || reaches(places.row_at(address.wrapping_sub(2)), 2)
        || places.data_left(address) > 0
}

/// Returns whether all lines of a program are known, and none has a byte at an address.
fn is_stray(places: &Places, address: u16) -> bool
    ensures { result ≡ is_stray places.now address }
{
    places.is_whole() && places.has_lines() && !is_in_line(places, address)
}

/// Appends an address, with its name and the line that begins there.
fn push_site(text: &mut Vec<u8>, places: &Places, address: u16) -> Result<(), AllocError>
    ensures { OnOk result (text.new.items ≡ text.old.items ++ site_text places.now address) }
{
    push_place(text, places, address)?;
    places.push_line_at(text, address)
}

/// Appends from where the program came, if that is known.
fn push_from(text: &mut Vec<u8>, places: &Places, from: Option<u16>) -> Result<(), AllocError>
    ensures { OnOk result (text.new.items ≡ text.old.items ++ from_text places.now from) }
{
    let Some(from) = from else {
        return Ok(());
    };
    push_text(text, FROM)?;
    push_site(text, places, from)
}

/// Appends that the program ran to an address where nothing stands.
#[tactic(auto, unfolding(crate::specs::Strays::strayed_text))]
fn push_strayed(text: &mut Vec<u8>, pc: u16) -> Result<(), AllocError>
    ensures { OnOk result (text.new.items ≡ text.old.items ++ strayed_text pc) }
{
    push_text(text, RAN_INTO)?;
    push_address(text, pc)?;
    push_text(text, NOTHING_STANDS)
}

/// Appends that nothing stands at an address, and from where the program came there.
fn push_stray(
    text: &mut Vec<u8>,
    places: &Places,
    from: Option<u16>,
    pc: u16,
) -> Result<(), AllocError>
    ensures { OnOk result (text.new.items ≡ text.old.items ++ stray_text places.now from pc) }
{
    push_strayed(text, pc)?;
    push_from(text, places, from)
}

/// Appends that a BRK at an address ended the program.
fn push_brk(text: &mut Vec<u8>, places: &Places, pc: u16) -> Result<(), AllocError>
    ensures { OnOk result (text.new.items ≡ text.old.items ++ brk_text places.now pc) }
{
    push_text(text, BRK_AT)?;
    push_site(text, places, pc)?;
    push_text(text, ENDED_IT)
}

/// Appends what is said of a BRK at an address that has no handler. `from` is where the step was
/// made that led there, if that is known.
#[tactic(auto, unfolding(crate::specs::Strays::unserved_text))]
pub fn push_unserved(
    text: &mut Vec<u8>,
    places: &Places,
    from: Option<u16>,
    pc: u16,
) -> Result<(), AllocError>
    ensures { OnOk result (text.new.items ≡ text.old.items
        ++ unserved_text places.now from pc) }
{
    if is_stray(places, pc) {
        push_stray(text, places, from, pc)
    } else {
        push_brk(text, places, pc)
    }
}

/// Appends that nothing stands at an address.
#[tactic(auto, unfolding(crate::specs::Strays::nothing_text))]
fn push_nothing(text: &mut Vec<u8>, pc: u16) -> Result<(), AllocError>
    ensures { OnOk result (text.new.items ≡ text.old.items ++ nothing_text pc) }
{
    push_text(text, NOTHING_AT)?;
    push_address(text, pc)
}

/// Appends why the program has ended before a BRK at an address.
#[tactic(auto, unfolding(crate::specs::Strays::over_cause))]
fn push_cause(text: &mut Vec<u8>, places: &Places, pc: u16) -> Result<(), AllocError>
    ensures { OnOk result (text.new.items ≡ text.old.items ++ over_cause places.now pc) }
{
    if is_stray(places, pc) {
        push_nothing(text, pc)
    } else {
        push_text(text, NO_SERVICE)
    }
}

/// Appends that the program has ended before a BRK at an address, and what can be done then.
fn push_over(text: &mut Vec<u8>, places: &Places, pc: u16) -> Result<(), AllocError>
    ensures { OnOk result (text.new.items ≡ text.old.items ++ over_words places.now pc) }
{
    push_cause(text, places, pc)?;
    push_text(text, WAYS_ON)
}

/// Appends that the program has ended, if a BRK comes next that has no handler.
#[tactic(auto, unfolding(crate::specs::Strays::ended_text))]
pub fn push_ended(text: &mut Vec<u8>, session: &Session, places: &Places) -> Result<(), AllocError>
    ensures { OnOk result (text.new.items ≡ text.old.items
        ++ ended_text session.now.current places.now) }
{
    if has_no_handler(session) {
        return push_over(text, places, session.regs().pc);
    }
    Ok(())
}
