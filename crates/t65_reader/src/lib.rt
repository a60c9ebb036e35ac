//! The rows of a test file: what a line of it asks for and expects.
//!
//! `read_row` reads a line, and `read_rows` all lines after the one that names the source. A row
//! that cannot be read stands among the others.
//! `specs/RowText.antt` has the definitions, `specs/Sequences.antt` those of bytes in order, and
//! `specs/CPrograms.antt` and `specs/CCalls.antt` those of calls of functions of C: the row that
//! makes such a call is read. `t65_values` has the definitions of numbers and values.
#![tactic(auto)]

mod c_call;
mod c_program;
mod c_result;
mod item;
mod line;
mod row;
mod sequence;
mod text;

pub use assembler::Assembly;
pub use c_program::{CProgram, Function, Size};
pub use item::string_of;
pub use line::is_hidden;
pub use row::{
    Asking, Call, Choice, Entry, Faulty, Item, Line, MOST_STEPS, Part, Range, Ranges, Register,
    Relation, Request, Row, Signal, Target,
};
pub use text::{fault_of, points_of, read_rows};
