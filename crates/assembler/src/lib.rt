//! The assembler: from a source to the image that it denotes, and the names that it defines.
//!
//! `first_pass` reads each line once, by the reader of `asm_line`: `layout::place_line` defines its
//! name and finds its address and its size, and `found` keeps them and, if the line denotes bytes,
//! what it says; `source_line` cuts the lines and says where each text stands.
//! `emission::make_image` puts the bytes of the kept lines, under the numbers of all names.
//! `assembly` has both, and the public calls. A law of `law_sources` over `Source.antt` of `model`
//! says that the two passes compute what a source denotes.
#![tactic(auto)]

mod assembly;
mod first_pass;
mod found;
mod one_line;
mod source_line;

pub use assembly::{Assembly, assemble};
pub use model::{AsmFault, AsmFaultKind, Profile};
pub use one_line::{Line, assemble_line, assemble_line_in};
pub use source_line::SourceLine;
