//! What the first pass finds.

ghost use Rattle.std.specs.Prelude.{◌≡◌, ◌<◌, ◌≤◌, ◌-◌, ◌^◌, IfSome, OnOk, is_some};
ghost use Rattle.assembler.specs.Found.{is_kept, with_line, nothing_found};
ghost use Rattle.assembler.specs.FoundLines.{found_of};
ghost use Rattle.line_parts.specs.LineViews.{statement_view, line_view};
ghost use Rattle.line_parts.specs.Contents.{content_by, line_content};
ghost use Rattle.line_parts.specs.KeptLines.{numbered_lines};
ghost use Rattle.model.specs.Layout.{size_of};
ghost use Rattle.line_parts.specs.Spans.{pairs_of};

use layout::Placement;
use line_parts::{Code, KeptLine, Line, Span, Statement};
use std::alloc::{AllocError, Global};

/// The address of each line, and the lines that denote bytes.
#[derive(Drop)]
pub struct Lines<'a> {
    spans: Vec<Span>,
    kept: Vec<KeptLine<'a>>,
}

/// Returns whether a statement denotes bytes, an instruction by its opcode.
fn is_kept(code: Option<Code>, statement: &Statement<'_>) -> bool
    ensures { result ≡ is_kept (content_by code (statement_view statement.now)) }
{
    match statement {
        Statement::Nothing | Statement::Origin(_) | Statement::Reserve(_) | Statement::Finish => {
            false
        }
        Statement::Bytes(_) | Statement::Words(_) | Statement::WordsHighFirst(_) => true,
        Statement::Instruction(_, _) => code.is_some(),
    }
}

/// Returns the statement of a line, if it denotes bytes.
fn kept_statement(code: Option<Code>, line: Line<'_>) -> Option<Statement<'_>>
    ensures kept { is_some result ≡ is_kept (line_content code (line_view line.entry)) }
    ensures content { IfSome result
        (λ s. content_by code (statement_view s) ≡ line_content code (line_view line.entry)) }
{
    match line {
        Line::Labelled(_, statement) => {
            if is_kept(code, &statement) {
                Some(statement)
            } else {
                drop(statement);
                None
            }
        }
        Line::Definition(_, value) => {
            drop(value);
            None
        }
    }
}

impl<'a> Lines<'a> {
    /// Makes an empty one.
    pub fn new(alloc: Global) -> Lines<'a>
        ensures { found_of result ≡ nothing_found }
    {
        Lines {
            spans: Vec::new(alloc),
            kept: Vec::new(alloc),
        }
    }

    /// Returns the lines that denote bytes.
    pub fn lines(&self) -> &[KeptLine<'a>]
        ensures { numbered_lines result.now ≡ (found_of self.now).kept }
    {
        &self.kept
    }

    /// Returns the address and size of each line.
    pub fn into_spans(self) -> Vec<Span>
        ensures { pairs_of result.items ≡ (found_of self.entry).extents }
    {
        self.spans
    }

    /// Appends a line whose place is known.
    pub fn note(
        &mut self,
        number: u32,
        address: u32,
        line: Line<'a>,
        placement: Placement,
    ) -> Result<(), AllocError>
        requires near { address < 2 ^ 31 - 510 }
        requires small { placement.count ≤ 510 }
        requires sized { placement.count ≡ size_of (line_content placement.code (line_view line)) }
        ensures { OnOk result (found_of self.new ≡ with_line number (found_of self.old)
            (record {
              address = address;
              content = line_content placement.code (line_view line.entry);
            })) }
    {
        let Placement { count, code, .. } = placement;
        if let Some(statement) = kept_statement(code, line) {
            self.kept.push(KeptLine {
                number,
                address,
                count,
                code,
                statement,
            })?;
        }
        self.spans.push(Span { address, count })?;
        Ok(())
    }
}
