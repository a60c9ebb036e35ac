//! Short texts, put together without allocating.

ghost use Rattle.std.specs.Prelude.{◌≡◌, ◌+◌, ◌≤◌, ◌++◌, length};

use arrayvec::ArrayVec;

/// The text of an instruction: at most 12 bytes.
pub type Text = ArrayVec<u8, 12>;

/// Appends bytes.
pub fn push_bytes(text: &mut Text, bytes: &[u8])
    requires { length text.old.items + length bytes.now ≤ 12 }
    ensures { text.new.items ≡ text.old.items ++ bytes.now }
{
    let _ = text.try_extend_from_slice(bytes);
}

/// Returns a text of these bytes.
pub fn text_of(bytes: &[u8]) -> Text
    requires { length bytes.now ≤ 12 }
    ensures { result.items ≡ bytes.now }
{
    let mut text = Text::new();
    push_bytes(&mut text, bytes);
    text
}
