//! The word `info TAPE`: what is on a tape, in an image, or in debug information.
//!
//! `facts_of` has the facts of an image, each by its definition in `specs/Facts.antt`.
//! `data_records` has the number of a tape's records. `overlaps_of` and `text_overlaps_of` have the
//! addresses for which more than one record has a byte (`specs/Overlaps.antt`). `records_behind`
//! has the number of records that are not read (`specs/Behind.antt`). `law` states that
//! right tapes are read as they stand. `tape_info` is the word `info`: it writes these as text, or
//! what is wrong with the tape; and what debug information says (`specs/Debugged.antt`).
#![tactic(auto)]

mod behind;
mod checksum;
mod debugged;
mod fact_list;
mod fact_text;
mod gaps;
mod law;
mod overlaps;
mod ranges;
mod run;
mod wording;

pub use fact_list::{Facts, data_records, facts_of};
pub use law::right_tapes_are_read_as_they_stand;
pub use run::tape_info;
