//! A source with its lines and names.

ghost use Rattle.std.specs.Prelude.{◌≡◌, IfOk};
ghost use Rattle.std.specs.Option.{option_map};
ghost use Rattle.lsp_answers.specs.Texts.{line_at, name_at, number_in, range_in, text_of};
ghost use Rattle.lsp_answers.specs.Texts.{text_view, use_range};
ghost use Rattle.name_uses.specs.Views.{use_view};
ghost use Rattle.serde_json.specs.View.{view};

use lsp_messages::{character_of, column_of, range};
use model::Profile;
use name_uses::{NameUse, name_at, name_uses};
use serde_json::Value;
use source_notes::{every_line, line_of, line_or_none};
use std::alloc::{AllocError, Global};

/// The most bytes that a source has (mos65).
pub const SOURCE_SIZE: usize = 1_048_576;

/// A source with its lines and its names.
#[derive(Drop)]
pub struct Text<'a> {
    pub profile: Profile,
    pub source: &'a [u8],
    pub lines: Vec<&'a [u8]>,
    /// Where its names stand, in their order.
    pub uses: Vec<NameUse<'a>>,
}

impl<'a> Text<'a> {
    /// Finds the lines and the names of a source in a profile. One of too many bytes has none of
    /// either. The only error is that a request for memory was refused.
    pub fn read(alloc: Global, profile: Profile, source: &'a [u8]) -> Result<Text<'a>, AllocError>
        ensures { IfOk result (λ text. text_view text ≡ text_of profile source.now) }
    {
        if source.len() > SOURCE_SIZE {
            return Ok(Text {
                profile,
                source,
                lines: Vec::new(alloc),
                uses: Vec::new(alloc),
            });
        }
        let Ok(lines) = every_line(alloc, source) else {
            return Err(AllocError);
        };
        match name_uses(alloc, profile, source) {
            Ok(uses) => Ok(Text {
                profile,
                source,
                lines,
                uses,
            }),
            Err(error) => Err(error),
        }
    }

    /// Returns the line of this number, counted from 1; empty where there is none.
    pub fn line(&self, number: u32) -> &'a [u8]
        ensures { result.now ≡ line_at (text_view self.now) number }
    {
        line_or_none(line_of(&self.lines, number))
    }

    /// Returns the number of a line that the protocol counts from 0, if there is such a line.
    pub fn number(&self, line: u64) -> Option<u32>
        ensures { result ≡ number_in (text_view self.now) line }
    {
        if line < self.lines.len() as u64 && line < 4294967295 {
            Some(line as u32 + 1)
        } else {
            None
        }
    }

    /// Returns the name at a place as the protocol counts it, if one stands there.
    pub fn name_at(&self, line: u64, character: u64) -> Option<NameUse<'a>>
        ensures { option_map use_view result ≡ name_at (text_view self.now) line character }
    {
        match self.number(line) {
            Some(number) => {
                let column = column_of(self.line(number), character);
                name_at(&self.uses, number, column)
            }
            None => None,
        }
    }

    /// Returns the range of so many bytes from a column of a line on. The only error is that a
    /// request for memory was refused.
    pub fn range(
        &self,
        alloc: Global,
        number: u32,
        start: usize,
        width: usize,
    ) -> Result<Value, AllocError>
        ensures { IfOk result
            (λ v. view v ≡ range_in (text_view self.now) number start width) }
    {
        let line = self.line(number);
        let row = (number as u64).saturating_sub(1);
        let from = character_of(line, start);
        let to = character_of(line, start.saturating_add(width));
        range(alloc, row, from, to)
    }

    /// Returns the range of a name. The only error is that a request for memory was refused.
    pub fn range_of(&self, alloc: Global, one: &NameUse<'_>) -> Result<Value, AllocError>
        ensures { IfOk result
            (λ v. view v ≡ use_range (text_view self.now) (use_view one.now)) }
    {
        self.range(alloc, one.line, one.start, one.text.len())
    }
}
