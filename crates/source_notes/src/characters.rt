//! Characters of more than one byte, as UTF-8 writes them.

ghost use Rattle.std.specs.Prelude.{◌≡◌};
ghost use Rattle.source_notes.specs.Characters.{begins_four, begins_three, begins_two, further};
ghost use Rattle.source_notes.specs.Characters.{may_follow};

/// Returns whether a byte can be the second one of a character that begins with the first.
fn may_follow(first: u8, byte: u8) -> bool
    ensures { result ≡ may_follow first byte }
{
    match first {
        194 | 224 => matches!(byte, 160..=191),
        237 => matches!(byte, 128..=159),
        240 => matches!(byte, 144..=191),
        244 => matches!(byte, 128..=143),
        _ => matches!(byte, 128..=191),
    }
}

/// Returns whether some bytes begin with a character of two bytes.
fn begins_two(bytes: &[u8]) -> bool
    ensures { result ≡ begins_two bytes.now }
{
    match bytes {
        [a, b, ..] => matches!(*a, 194..=223) && may_follow(*a, *b),
        _ => false,
    }
}

/// Returns whether some bytes begin with a character of three bytes.
fn begins_three(bytes: &[u8]) -> bool
    ensures { result ≡ begins_three bytes.now }
{
    match bytes {
        [a, b, c, ..] => {
            matches!(*a, 224..=239) && may_follow(*a, *b) && matches!(*c, 128..=191)
        }
        _ => false,
    }
}

/// Returns whether some bytes begin with a character of four bytes.
fn begins_four(bytes: &[u8]) -> bool
    ensures { result ≡ begins_four bytes.now }
{
    match bytes {
        [a, b, c, d, ..] => {
            matches!(*a, 240..=244)
                && may_follow(*a, *b)
                && matches!(*c, 128..=191)
                && matches!(*d, 128..=191)
        }
        _ => false,
    }
}

/// Returns how many bytes follow the first one of the character that some bytes begin with; 0 if
/// they begin with a byte of ASCII, or with no character.
pub fn further(bytes: &[u8]) -> usize
    ensures { result ≡ further bytes.now }
{
    if begins_two(bytes) {
        1
    } else if begins_three(bytes) {
        2
    } else if begins_four(bytes) {
        3
    } else {
        0
    }
}
