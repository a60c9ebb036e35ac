//! What is known of the program of a session besides the state of `mon`.

ghost use Rattle.std.specs.Prelude.{◌≡◌};

use crate::page::Program;
use accesses::Written;
use arguments_play::MonWords;
use assembler::Assembly;
use std::marker::Model;

/// What is known of a session's program besides the state of `mon`. To contracts it is the
/// addresses at which the session's file has a byte.
#[derive(Drop)]
pub struct Known {
    written: Written,
    source: Option<Assembly>,
    names: Option<Assembly>,
}

impl Model for Known {
    ghost use Rattle.std.specs.Prelude.{Bool, List};

    ghost Value = { List Bool };

    ghost view = { λ known. known.written };
}

impl Known {
    /// Returns what is known before the first line: the addresses at which the session's file has a
    /// byte, what the file says of names and lines if it is a source, and the file of names, if
    /// there is one.
    pub fn new(written: Written, source: Option<Assembly>, names: Option<Assembly>) -> Known
        ensures { result ≡ written }
    {
        Known {
            written,
            source,
            names,
        }
    }

    /// Returns the addresses at which the session's file has a byte.
    pub fn written(&self) -> &Written
        ensures { result.now ≡ self.now }
    {
        &self.written
    }

    /// Returns what a page shows of the program of a session that was begun by some words.
    pub fn program<'a>(&'a self, words: &'a MonWords<'a>) -> Program<'a>
        ensures { result.words.now ≡ words.now }
    {
        Program {
            words,
            loaded: &self.written,
            source: self.source.as_ref(),
            names: self.names.as_ref(),
        }
    }
}
