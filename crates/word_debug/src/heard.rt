//! The bytes that a writer was given, and what is seen in them.

ghost use Rattle.std.specs.Prelude.{◌≡◌, ◌∷◌, ◌++◌, []};
ghost use Rattle.word_debug.specs.Seen.{seen_in};

use crate::log::Log;
use crate::seen::Seen;

/// What is seen in the bytes that were told so far. The bytes exist only in proofs.
#[derive(Drop)]
pub struct Heard {
    pub seen: Seen,
    pub told: Log<u8>,
    pub ghost right: { seen ≡ seen_in told.items },
}

impl Heard {
    /// Returns what is heard before any byte.
    #[tactic(auto, unfolding(crate::specs::Seen::after_all))]
    pub fn nothing() -> Heard
        ensures { result.told.items ≡ [] }
    {
        Heard {
            seen: Seen::none(),
            told: Log::new(),
        }
    }

    /// Notes one byte more.
    #[tactic(auto, using(crate::proofs::Seeing::seen_more))]
    fn hear_byte(&mut self, byte: &u8)
        ensures { self.new.told.items ≡ self.old.told.items ++ byte.now ∷ [] }
    {
        self.seen = self.seen.after(*byte);
        self.told = self.told.and(byte);
    }

    /// Notes some bytes more.
    pub fn hear(&mut self, bytes: &[u8])
        ensures { self.new.told.items ≡ self.old.told.items ++ bytes.now }
    {
        for byte in bytes {
            self.hear_byte(byte);
        }
    }
}
