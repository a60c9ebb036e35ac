//! A debug file of ld65 as records and rows: which bytes came from which line of which file.
//!
//! `read_debug_info` reads a text that `ld65 --dbgfile` wrote, or tells its first fault; `rows_of`
//! makes a row for each span of each line, `shown_at` picks the one that is shown for an address,
//! and `table_of` does so for all addresses at once. `specs/Fields.antt` says what a line says,
//! `specs/Records.antt` what each record has, `specs/Reading.antt` what a file denotes, and
//! `specs/Rows.antt` what the rows are.
#![tactic(auto)]

mod fault;
mod fields;
mod info;
mod numbers;
mod reading;
mod record;
mod record_fields;
mod reference;
mod row;
mod rows;
mod table;
mod text;

pub use fault::{
    DebugError, DebugFault, DebugFaultKind, LineError, LineFault, Place, column_of, fault_in,
};
pub use info::{DebugInfo, Use, grow, is_ambiguous, no_info, record_at};
pub use numbers::{decimal_number, hex_number};
pub use record::{CSymbol, File, Line, LineKind, Output, Scope, Segment, Span, Storage, Symbol};
pub use row::{Row, Wanted};
pub use rows::{clear_rows, rows_at, rows_of, shown_at, size_of};
pub use table::table_of;
pub use text::read_debug_info;
