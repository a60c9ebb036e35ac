//! The faults of a dump: what its bytes tell of the lines between a chip and its reader.
//!
//! `Fault` is a fault of lines, and `is_read_with` says whether an image is another one that is
//! read with it (`specs/Faults.antt`). `stuck_lines` has the lines without effect on one image,
//! `stuck_between` and `faults_between` the faults that explain all differences of two.
//! `regions_of` has the regions of one value (`specs/Regions.antt`). `changes_of` has the bytes
//! that differ, and `flips_of` those of them that differ in one line alone (`specs/Changes.antt`).
#![tactic(auto)]

mod changes;
mod faults;
mod finding;
mod lines;
mod regions;

pub use changes::{Change, Flip, changes_of, flips_of};
pub use faults::{Bus, Fault, Stuck};
pub use finding::{faults_between, is_read_with, stuck_between, stuck_lines};
pub use lines::block_of;
pub use regions::{Region, regions_of};
