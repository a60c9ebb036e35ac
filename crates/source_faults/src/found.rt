//! What is found of a line by the layout.

ghost use Rattle.std.specs.Prelude.{◌≡◌, ◌<◌, ◌≤◌, ◌-◌, ◌^◌, None, IfNone, IfSome, false};
ghost use Rattle.line_parts.specs.Contents.{content_by, line_content};
ghost use Rattle.line_parts.specs.LineViews.{statement_view, line_view};
ghost use Rattle.model.specs.AllFaults.{begins_line, is_origin};
ghost use Rattle.model.specs.Layout.{no_bytes, size_of};
ghost use Rattle.source_faults.specs.Views.{HasNumber, found_view};

use layout::Placement;
use line_parts::{Code, KeptLine, Line, Statement};
use model::AsmFaultKind;

/// What is found of a line.
#[derive(Drop)]
pub enum Found<'a> {
    /// It has a layout fault.
    Refused { address: u32, kind: AsmFaultKind },
    /// It has no bytes; whether it is a `*=`.
    Plain { address: u32, begins: bool },
    /// It denotes bytes.
    Bytes(KeptLine<'a>),
}

/// Whether a statement is a `*=`, if it denotes no bytes; nothing if it does, an instruction by its
/// opcode.
fn without_bytes(code: Option<Code>, statement: &Statement<'_>) -> Option<bool>
    ensures plain { IfSome result (λ begins. content_by code (statement_view statement.now)
        ≡ no_bytes) }
    ensures begins { IfSome result (λ begins. is_origin (statement_view statement.now) ≡ begins) }
    ensures bytes { IfNone result (is_origin (statement_view statement.now) ≡ false) }
{
    match statement {
        Statement::Origin(_) => Some(true),
        Statement::Nothing | Statement::Reserve(_) | Statement::Finish => Some(false),
        Statement::Bytes(_) | Statement::Words(_) | Statement::WordsHighFirst(_) => None,
        Statement::Instruction(_, _) => match code {
            Some(_) => None,
            None => Some(false),
        },
    }
}

/// Returns what is found of a line that has no layout fault.
pub fn found_at<'a>(number: u32, address: u32, line: Line<'a>, placement: Placement) -> Found<'a>
    requires near { address < 2 ^ 31 - 510 }
    requires small { placement.count ≤ 510 }
    requires sized { placement.count ≡ size_of (line_content placement.code (line_view line)) }
    ensures found { found_view result ≡ record {
      kind = None;
      place = record {
        address = address;
        content = line_content placement.code (line_view line.entry);
      };
      begins = begins_line (line_view line.entry);
    } }
    ensures numbered { HasNumber number result }
{
    match line {
        Line::Labelled(_, statement) => match without_bytes(placement.code, &statement) {
            Some(begins) => {
                drop(statement);
                Found::Plain { address, begins }
            }
            None => Found::Bytes(KeptLine {
                number,
                address,
                count: placement.count,
                code: placement.code,
                statement,
            }),
        },
        Line::Definition(_, value) => {
            drop(value);
            Found::Plain {
                address,
                begins: false,
            }
        }
    }
}
