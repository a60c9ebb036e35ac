//! Images as other tools write them: Intel HEX, Motorola S-records, raw bytes, PRG files and tapes.
//!
//! `specs/Records.antt` says what the bytes of a record are, `specs/HexRecords.antt` and
//! `specs/SRecords.antt` what a record does, and `specs/Texts.antt` what a text denotes or which
//! fault is its first. A `RecordReader` is fed a text piece by piece; `read_image` reads some bytes
//! in any form. `read_overlaps` says where data records overlap. The end record of a tape may be
//! srec_cat's (`specs/EndRecords.antt`).
#![tactic(auto)]

mod begun;
mod end_record;
mod fault;
mod form;
mod hex_records;
mod reader;
mod reading;
mod record;
mod s_records;
mod whole;

pub use end_record::{has_count_twice, with_end_sum};
pub use fault::{ImageFault, ImageReadFault, RecordFault, RecordFaultKind};
pub use form::{Form, TextForm, is_skipped};
pub use reader::RecordReader;
pub use whole::{read_image, read_overlaps};
