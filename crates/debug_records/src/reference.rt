//! References from one record to another.

ghost use Rattle.std.specs.Prelude.{◌≡◌, ◌<◌, ◌^◌};
ghost use Rattle.debug_records.specs.Reading.{first_missing, is_there, reference_of};
ghost use Rattle.debug_records.specs.Views.{info_view};

use crate::fault::{Place, column_of};
use crate::info::{DebugInfo, record_at};
use crate::numbers::Placed;

/// Which table has the record.
#[derive(Clone, Copy)]
pub enum Target {
    File,
    Segment,
    Span,
    Symbol,
    Scope,
}

/// A reference to a record, and where it stands.
#[derive(Clone, Copy)]
pub struct Reference {
    pub target: Target,
    pub id: u32,
    pub line: u32,
    pub column: usize,
}

/// Returns a reference that stands in a line.
pub fn reference_of(place: Place, target: Target, id: Placed) -> Reference
    requires { place.length < 2 ^ 32 }
    ensures { result ≡ reference_of place target id }
{
    Reference {
        target,
        id: id.number,
        line: place.line,
        column: column_of(place.length, id.left),
    }
}

/// Returns whether a reference is one to a record.
fn is_there(info: &DebugInfo<'_>, reference: Reference) -> bool
    ensures { result ≡ is_there (info_view info.now) reference }
{
    match reference.target {
        Target::File => record_at(&info.files, reference.id).is_some(),
        Target::Segment => record_at(&info.segments, reference.id).is_some(),
        Target::Span => record_at(&info.spans, reference.id).is_some(),
        Target::Symbol => record_at(&info.symbols, reference.id).is_some(),
        Target::Scope => record_at(&info.scopes, reference.id).is_some(),
    }
}

/// Returns the first reference to a record that is not there.
pub fn first_missing(info: &DebugInfo<'_>, references: &[Reference]) -> Option<Reference>
    ensures { result ≡ first_missing (info_view info.now) references.now }
{
    for reference in references {
        if !is_there(info, *reference) {
            return Some(*reference);
        }
    }
    None
}
