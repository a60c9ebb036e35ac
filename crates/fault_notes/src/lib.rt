//! What a person needs of each fault of a source: where it stands, a reason in words, the nearest
//! name, by how much a value misses.
//!
//! `faults_text` writes a block for each fault: the fault's line, name and number, words, and the
//! source's own line with a mark under the bytes that are meant. `told_faults` finds the faults
//! itself, by `told_source_faults`, which leaves out those that a definition of another assembler
//! may take away when it is mended (`Given.antt`). Which bytes are meant is proved, and that a
//! right word is one that may stand there and that the words name (`Marks.antt`). Which names are
//! near one another is proved too (`Near.antt`). What else the words say is tested and not proved.
//! `note_of` finds all of it for each kind of fault, with `scan` for bytes that begin no token,
//! `form` for tokens that are none of the grammar and `left` for those that are no value or left
//! over, `operands` for what an instruction takes, `values` for values, and `near` for names that
//! are nearly the same.
#![tactic(auto)]

mod block;
mod form;
mod given;
mod left;
mod near;
mod note;
mod operands;
mod scan;
mod values;
mod wording;

pub use block::{all_faults_text, faults_text, told_faults};
pub use given::told_source_faults;
pub use near::is_near;
pub use note::{Context, note_of};
