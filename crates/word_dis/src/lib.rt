//! `dis TAPE [LO HI] --source` with its options: a tape written as a source that `asm` takes.
//!
//! `dis_source` is the one call. It reads its words (`command`, `asked`, `ranges`, `following`) and
//! its file of marks (`said`), finds the names for addresses (`names`) and where control comes in
//! (`starts`), marks what is no code (`marks`), and writes the source of the tape's image as it is
//! asked for (`written`), and what `asm` has to be told of it (`advice`). Runs of the byte with
//! which an image is padded are left out before anything else, if that is asked for (`fill`). The
//! contract of `written` says that this source denotes the part of the image that is asked for,
//! whatever is marked, named and commented: `named_source` and `remarked_source` have the theorem,
//! and `reached` finds what control reaches.
#![tactic(auto)]

mod advice;
mod asked;
mod command;
mod fill;
mod following;
mod marks;
mod names;
mod ranges;
mod run;
mod said;
mod starts;
mod written;

pub use command::dis_source_command;
pub use run::dis_source;
