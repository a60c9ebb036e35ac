//! `debug --strict`: a session whose exit status says whether a reply told of a fault.
//!
//! `debug` writes its replies to a `Watch`, which passes them on and notes what it sees
//! (`specs/Seen.antt`). So the replies are those of `debug`, and no lower crate knows of the
//! option. In proofs alone the watch remembers what it was told, so the status is that of the whole
//! transcript. `strict_debug_image` does the same with `debug` on an image.
#![tactic(auto)]

mod asked;
mod command;
mod heard;
mod image;
mod log;
mod seen;
mod strict;
mod watch;

pub use asked::is_strict;
pub use command::strict_debug_command;
pub use image::strict_debug_image;
pub use strict::strict_debug;
