//! Lines of a source with labels.

ghost use Rattle.std.specs.Prelude.{◌≡◌, ◌++◌, OnOk};
ghost use Rattle.std.specs.List.{flat_map};
ghost use Rattle.source_forms.specs.Labels.{labelled};
ghost use Rattle.source_forms.specs.Pieces.{text_of};
ghost use Rattle.source_writer.specs.Views.{piece_view};
ghost use Rattle.source_forms.specs.Rows.{ended, opened};

use crate::operand::{push_instruction, push_label, push_place};
use crate::piece::Piece;
use crate::rows::{push_numbers, push_origin};
use model::Profile;
use std::alloc::AllocError;

/// Appends `*=` and an address, where no line ends there.
#[tactic(auto, using(crate::proofs::LabelledGoing::one_line))]
pub fn push_opening(out: &mut Vec<u8>, address: u16, ends: bool) -> Result<(), AllocError>
    ensures { OnOk result (out.new.items ≡ out.old.items ++ flat_map ended (opened ends address)) }
{
    if ends {
        return Ok(());
    }
    push_origin(out, address)
}

/// Appends the label before a piece, if it gets one.
#[tactic(auto, using(crate::proofs::LabelledGoing::one_line))]
pub fn push_label_line(out: &mut Vec<u8>, named: bool, address: u16) -> Result<(), AllocError>
    ensures { OnOk result
        (out.new.items ≡ out.old.items ++ flat_map ended (labelled named address)) }
{
    if named {
        push_label(out, address)?;
        out.extend_from_slice(b":\n")?;
    }
    Ok(())
}

/// The text of a piece at an address.
#[tactic(auto, unfolding(source_forms::specs::Pieces::text_of))]
fn push_text(
    out: &mut Vec<u8>,
    profile: Profile,
    table: &[u8],
    address: u16,
    piece: &Piece,
) -> Result<(), AllocError>
    ensures { OnOk result (out.new.items
        ≡ out.old.items ++ text_of profile table.now address (piece_view piece.now)) }
{
    match piece {
        Piece::Instruction(row, second, third) => {
            push_instruction(out, profile, table, *row, address, *second, *third)
        }
        Piece::Word(word) => {
            out.extend_from_slice(b".WORD ")?;
            push_place(out, table, *word)
        }
        Piece::ReturnWord(word) => {
            out.extend_from_slice(b".WORD ")?;
            push_place(out, table, *word)?;
            out.extend_from_slice(b"-1")?;
            Ok(())
        }
        Piece::Undocumented(bytes, note) | Piece::Numbers(bytes, note) => {
            out.extend_from_slice(b".BYTE ")?;
            push_numbers(out, bytes)?;
            out.extend_from_slice(note)?;
            Ok(())
        }
        Piece::Letters(bytes) => {
            out.extend_from_slice(b".BYTE \"")?;
            out.extend_from_slice(bytes)?;
            out.push(b'"')?;
            Ok(())
        }
    }
}

/// Appends the line of a piece at an address.
pub fn push_piece(
    out: &mut Vec<u8>,
    profile: Profile,
    table: &[u8],
    address: u16,
    piece: &Piece,
) -> Result<(), AllocError>
    ensures { OnOk result (out.new.items
        ≡ out.old.items ++ ended (text_of profile table.now address (piece_view piece.now))) }
{
    push_text(out, profile, table, address, piece)?;
    out.push(b'\n')?;
    Ok(())
}
