//! How operands are written, and in which order forms are listed.

ghost use Rattle.std.specs.Prelude.{◌≡◌};
ghost use Rattle.opcode_facts.specs.Forms.{all_modes, operand_form, operand_name};

use crate::wording::{
    FORM_ABS, FORM_ABSX, FORM_ABSY, FORM_ACC, FORM_IMM, FORM_IND, FORM_INDX, FORM_INDY, FORM_INDZ,
    FORM_REL, FORM_ZP, FORM_ZPX, FORM_ZPY,
};
use model::Mode;

/// The modes, in the order in which forms are listed.
pub const MODES: [Mode; 14] = [
    Mode::Imp,
    Mode::Acc,
    Mode::Imm,
    Mode::Zp,
    Mode::ZpX,
    Mode::ZpY,
    Mode::Abs,
    Mode::AbsX,
    Mode::AbsY,
    Mode::Ind,
    Mode::IndX,
    Mode::IndY,
    Mode::IndZ,
    Mode::Rel,
];

/// Returns the modes, in the order in which forms are listed.
#[tactic(auto, unfolding(crate::specs::Forms::all_modes))]
pub fn all_modes() -> &'static [Mode]
    ensures { result.now ≡ all_modes }
{
    &MODES
}

/// Returns how an operand is written, behind a blank.
pub fn operand_form(mode: Mode) -> &'static str
    ensures { result.now ≡ operand_form mode }
{
    match mode {
        Mode::Imp => "",
        Mode::Acc => FORM_ACC,
        Mode::Imm => FORM_IMM,
        Mode::Zp => FORM_ZP,
        Mode::ZpX => FORM_ZPX,
        Mode::ZpY => FORM_ZPY,
        Mode::Abs => FORM_ABS,
        Mode::AbsX => FORM_ABSX,
        Mode::AbsY => FORM_ABSY,
        Mode::IndX => FORM_INDX,
        Mode::IndY => FORM_INDY,
        Mode::Ind => FORM_IND,
        Mode::Rel => FORM_REL,
        Mode::IndZ => FORM_INDZ,
    }
}

/// Returns what an operand is called: its form, with a word for its number.
pub fn operand_name(mode: Mode) -> &'static str
    ensures { result.now ≡ operand_name mode }
{
    match mode {
        Mode::Imp => "no operand",
        Mode::Acc => "A",
        Mode::Imm => "#n",
        Mode::Zp => "zp",
        Mode::ZpX => "zp,X",
        Mode::ZpY => "zp,Y",
        Mode::Abs => "abs",
        Mode::AbsX => "abs,X",
        Mode::AbsY => "abs,Y",
        Mode::IndX => "(zp,X)",
        Mode::IndY => "(zp),Y",
        Mode::Ind => "(abs)",
        Mode::Rel => "target",
        Mode::IndZ => "(zp)",
    }
}
