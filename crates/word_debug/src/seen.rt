//! What is seen in the bytes of replies.

ghost use Rattle.std.specs.Prelude.{◌≡◌, false};
ghost use Rattle.word_debug.specs.Seen.{next, place_after, tells_fault};
ghost use Rattle.word_debug.specs.declared.seen.LineState.TheVariants.{Start};

/// How far a reply's line is known, as far as it matters for what comes next.
#[derive(Clone, Copy, Debug, PartialEq, Eq)]
pub enum LineState {
    /// Nothing of the line is written.
    Start,
    /// `D` is.
    Letter,
    /// `DI` is, which only the reply to a run begins with; its number of steps follows a space.
    Run,
    /// The number of steps is being written; why the run ended follows a space.
    Steps,
    /// The first letter of why a run ended comes next.
    Why,
    /// The rest of the line says nothing more.
    Rest,
}

/// What is seen in the bytes so far.
#[derive(Clone, Copy, Debug, PartialEq, Eq)]
pub struct Seen {
    /// How far the last line is known.
    pub place: LineState,
    /// Whether a line began with `?` or `!`, or told that a run ended in a fault.
    pub has_fault: bool,
}

/// Returns the place after a byte.
fn place_after(place: LineState, byte: u8) -> LineState
    ensures { result ≡ place_after place byte }
{
    match (place, byte) {
        (_, b'\n') => LineState::Start,
        (LineState::Start, b'D') => LineState::Letter,
        (LineState::Letter, b'I') => LineState::Run,
        (LineState::Run, b' ') => LineState::Steps,
        (LineState::Run, _) => LineState::Run,
        (LineState::Steps, b' ') => LineState::Why,
        (LineState::Steps, _) => LineState::Steps,
        _ => LineState::Rest,
    }
}

/// Returns whether a byte at a place tells of a fault.
fn tells_fault(place: LineState, byte: u8) -> bool
    ensures { result ≡ tells_fault place byte }
{
    match place {
        LineState::Start => byte == b'?' || byte == b'!',
        LineState::Why => byte == b'F' || byte == b'C',
        _ => false,
    }
}

impl Seen {
    /// Returns what is seen before any byte.
    pub fn none() -> Seen
        ensures place { result.place ≡ Start }
        ensures fault { result.has_fault ≡ false }
    {
        Seen {
            place: LineState::Start,
            has_fault: false,
        }
    }

    /// Returns what is seen after one byte more.
    pub fn after(self, byte: u8) -> Seen
        ensures { result ≡ next self byte }
    {
        Seen {
            place: place_after(self.place, byte),
            has_fault: self.has_fault || tells_fault(self.place, byte),
        }
    }
}
