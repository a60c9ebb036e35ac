//! The name at a place.

ghost use Rattle.std.specs.Prelude.{◌≡◌};
ghost use Rattle.std.specs.List.{find};
ghost use Rattle.std.specs.Option.{option_map};
ghost use Rattle.name_uses.specs.Places.{covers};
ghost use Rattle.name_uses.specs.Views.{use_view, use_views};

use crate::name_use::NameUse;

/// Returns whether a use has the byte at a column of a line, or ends there.
fn covers(line: u32, column: usize, one: &NameUse<'_>) -> bool
    ensures { result ≡ covers line column (use_view one.now) }
{
    one.line == line && one.start <= column && column - one.start <= one.text.len()
}

/// Returns the first of some uses that stands at a place: a line, counted from 1, and a column,
/// counted from 0, also right behind it.
pub fn name_at<'a>(uses: &[NameUse<'a>], line: u32, column: usize) -> Option<NameUse<'a>>
    ensures { option_map use_view result ≡ find (covers line column) (use_views uses.now) }
{
    for one in uses {
        if covers(line, column, one) {
            return Some(*one);
        }
    }
    None
}
