//! What a language server answers of a source: marks, what is meant at a place, where a name
//! stands, a name changed, the names of a source, and what may be written.
//!
//! `Text` is a source with its lines and names (`specs/Texts.antt`). Each other call makes an
//! answer's value of it: `marks` (`Marks.antt`), `meanings` (`Meanings.antt`) with what is `said`
//! of names and instructions (`Said.antt`), of numbers and directives (`literals`,
//! `Literals.antt`), in Markdown (`markdown`, `Markdown.antt`) with lines of the source (`above`,
//! `Above.antt`), `names` (`Names.antt`), `renaming` (`Renames.antt`), `lists` of the names
//! (`Lists.antt`), names by letters (`search`, `Search.antt`), and `completing`
//! (`Completion.antt`) with the directives, which may be `written` in any source. `named` has the
//! kinds of names, `texts` makes texts of words.
//!
//! `diagnostics` (`finding`) is what is marked, and finds the same as `check`: all faults
//! (`fault_marks`), and the warnings (`warning_marks`) where there is none. `Diagnostics.antt` says
//! which these are, and which bytes each means.
#![tactic(auto)]

mod above;
mod completing;
mod fault_marks;
mod finding;
mod kinds;
mod lists;
mod literals;
mod markdown;
mod marks;
mod meanings;
mod named;
mod names;
mod renaming;
mod said;
mod search;
mod source_text;
mod texts;
mod warning_marks;
mod wording;
mod written;

pub use completing::{Spot, completion};
pub use finding::diagnostics;
pub use kinds::{Diagnostic, DiagnosticKind};
pub use lists::symbols;
pub use marks::published;
pub use meanings::hover;
pub use names::{definition, highlights, references};
pub use renaming::{prepare_rename, rename};
pub use search::with_names;
pub use source_text::Text;
pub use texts::text_of;
