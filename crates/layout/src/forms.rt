//! Which form an instruction takes.

ghost use Rattle.std.specs.Prelude.{◌≡◌};
ghost use Rattle.line_parts.specs.Contents.{map_option};
ghost use Rattle.line_parts.specs.LineViews.{operand_view};
ghost use Rattle.layout.specs.Placements.{direct_form, pointer_form, code_view, form_view};
ghost use Rattle.model.specs.Layout.{absolute_mode, branch_form, either, form_of, in_mode, only};
ghost use Rattle.model.specs.Layout.{zero_page_mode};

use line_parts::{Code, Operand};
use model::{Index, Mnemonic, Mode, Profile};
use optable::encode_in;

/// The form of an instruction: one encoding, or two between which its operand's value decides.
#[derive(Clone, Copy)]
pub enum Form {
    One(Code),
    /// In the zero page mode and in the absolute one.
    BySize(Code, Code),
}

/// Returns an instruction in a mode, if the profile has it.
fn in_mode(profile: Profile, mnemonic: Mnemonic, mode: Mode) -> Option<Code>
    ensures { map_option code_view result ≡ in_mode profile mnemonic mode }
{
    match encode_in(profile, mnemonic, mode) {
        None => None,
        Some(opcode) => Some(Code { opcode, mode }),
    }
}

/// Returns the form of one mode, if the instruction has it.
fn only(profile: Profile, mnemonic: Mnemonic, mode: Mode) -> Option<Form>
    ensures { map_option form_view result ≡ only profile mnemonic mode }
{
    match in_mode(profile, mnemonic, mode) {
        None => None,
        Some(code) => Some(Form::One(code)),
    }
}

/// Returns the form of two modes, with those that the instruction has.
fn either(short: Option<Code>, long: Option<Code>) -> Option<Form>
    ensures { map_option form_view result
        ≡ either (map_option code_view short) (map_option code_view long) }
{
    match (short, long) {
        (None, None) => None,
        (None, Some(code)) => Some(Form::One(code)),
        (Some(code), None) => Some(Form::One(code)),
        (Some(short), Some(long)) => Some(Form::BySize(short, long)),
    }
}

/// Returns the zero page mode with an index.
pub fn zero_page_mode(index: Index) -> Mode
    ensures { result ≡ zero_page_mode index }
{
    match index {
        Index::Unindexed => Mode::Zp,
        Index::X => Mode::ZpX,
        Index::Y => Mode::ZpY,
    }
}

/// Returns the absolute mode with an index.
fn absolute_mode(index: Index) -> Mode
    ensures { result ≡ absolute_mode index }
{
    match index {
        Index::Unindexed => Mode::Abs,
        Index::X => Mode::AbsX,
        Index::Y => Mode::AbsY,
    }
}

/// Returns a branch's form: its target is an unindexed operand.
fn branch_form(profile: Profile, mnemonic: Mnemonic, index: Index) -> Option<Form>
    ensures { map_option form_view result ≡ branch_form profile mnemonic index }
{
    match index {
        Index::Unindexed => only(profile, mnemonic, Mode::Rel),
        Index::X | Index::Y => None,
    }
}

/// Returns the form for an unmarked operand that may have an index.
fn direct_form(profile: Profile, mnemonic: Mnemonic, index: Index) -> Option<Form>
    ensures { map_option form_view result ≡ direct_form profile mnemonic index }
{
    match branch_form(profile, mnemonic, index) {
        Some(form) => Some(form),
        None => either(
            in_mode(profile, mnemonic, zero_page_mode(index)),
            in_mode(profile, mnemonic, absolute_mode(index)),
        ),
    }
}

/// Returns the form for a pointer in round brackets: an address, or one in the zero page if the
/// instruction has no mode for an address.
fn pointer_form(profile: Profile, mnemonic: Mnemonic) -> Option<Form>
    ensures { map_option form_view result ≡ pointer_form profile mnemonic }
{
    match only(profile, mnemonic, Mode::Ind) {
        Some(form) => Some(form),
        None => only(profile, mnemonic, Mode::IndZ),
    }
}

/// Returns the form for an operand, if the instruction has one.
#[tactic(auto, unfolding(model::specs::Layout::form_of))]
pub fn form_of(profile: Profile, mnemonic: Mnemonic, operand: &Operand<'_>) -> Option<Form>
    ensures { map_option form_view result ≡ form_of profile mnemonic (operand_view operand.now) }
{
    match operand {
        Operand::Absent => only(profile, mnemonic, Mode::Imp),
        Operand::Accumulator => only(profile, mnemonic, Mode::Acc),
        Operand::Immediate(_) => only(profile, mnemonic, Mode::Imm),
        Operand::Direct {
            marked: true,
            value: _,
            index,
        } => only(profile, mnemonic, absolute_mode(*index)),
        Operand::Direct {
            marked: false,
            value: _,
            index,
        } => direct_form(profile, mnemonic, *index),
        Operand::Pointer(_) => pointer_form(profile, mnemonic),
        Operand::PointerByX(_) => only(profile, mnemonic, Mode::IndX),
        Operand::PointerByY(_) => only(profile, mnemonic, Mode::IndY),
    }
}
