//! How a client counts lines and columns, and what it can be told.

ghost use Rattle.std.specs.Prelude.{◌≡◌};
ghost use Rattle.dap_messages.specs.Counting.{counting_of, first_column, own_line, shown_line};
ghost use Rattle.serde_json.specs.View.{view};

use json_messages::flag_or;
use serde_json::Value;

/// How a client counts lines and columns, and what it can be told.
#[derive(Clone, Copy)]
pub struct Counting {
    /// Whether the first line has the number 1, and not 0.
    pub lines_start_at_1: bool,
    /// Whether the first column has the number 1, and not 0.
    pub columns_start_at_1: bool,
    /// Whether it can be told that what it shows may have changed.
    pub can_invalidate: bool,
}

impl Counting {
    /// Returns how the client of an `initialize` counts, and what it can be told.
    pub fn of(request: &Value) -> Counting
        ensures { result ≡ counting_of (view request.now) }
    {
        Counting {
            lines_start_at_1: flag_or(request, "/arguments/linesStartAt1", true),
            columns_start_at_1: flag_or(request, "/arguments/columnsStartAt1", true),
            can_invalidate: flag_or(request, "/arguments/supportsInvalidatedEvent", false),
        }
    }

    /// Returns the number of a line, counted from 1, as the client counts it.
    pub fn shown_line(self, line: u32) -> u64
        ensures { result ≡ shown_line self line }
    {
        if self.lines_start_at_1 {
            u64::from(line)
        } else {
            u64::from(line.saturating_sub(1))
        }
    }

    /// Returns the number of the first column.
    pub fn first_column(self) -> u64
        ensures { result ≡ first_column self }
    {
        if self.columns_start_at_1 { 1 } else { 0 }
    }

    /// Returns the line of a number that the client names, counted from 1: 1,000,000 if it names
    /// none, or one from there on, where no source has one.
    pub fn own_line(self, line: Option<u64>) -> u32
        ensures { result ≡ own_line self line }
    {
        match line {
            Some(line) if line < 999_999 && self.lines_start_at_1 => line as u32,
            Some(line) if line < 999_999 => line as u32 + 1,
            _ => 1_000_000,
        }
    }
}
