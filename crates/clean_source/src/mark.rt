//! The byte-order mark at the start of a text.

ghost use Rattle.std.specs.Prelude.{◌≡◌, ◌≤◌, length};
ghost use Rattle.clean_source.specs.Cleaned.{unmarked};

/// Returns a text without the byte-order marks, EF BB BF, at its start.
#[tactic(auto, unfolding(crate::specs::Cleaned::unmarked))]
pub fn unmarked(text: &[u8]) -> &[u8]
    ensures unmarked { result.now ≡ unmarked text.now }
    ensures shorter { length result.now ≤ length text.now }
{
    match text {
        [239, 187, 191, rest @ ..] => unmarked(rest),
        _ => text,
    }
}
