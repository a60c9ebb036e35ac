//! Why words are rejected.

use clap::Error;
use clap::error::ErrorKind;

/// Why words ask for nothing that can be done.
#[derive(Debug, Drop)]
pub enum WordsFault {
    /// The words ask for help: the text of it.
    Help(Error),
    /// The command line does not take these words: the text that says so.
    Usage(Error),
    /// An option has a value that it cannot have.
    Value,
    /// The same, with a sentence that says which.
    Wrong(&'static str),
    /// Memory ran out.
    OutOfMemory,
}

impl From<Error> for WordsFault {
    ghost use Rattle.arguments.specs.Words.{AnswersWords};

    ghost from_gives = { λ error fault. AnswersWords error fault };

    fn from(error: Error) -> WordsFault {
        match error.kind() {
            ErrorKind::OutOfMemory => WordsFault::OutOfMemory,
            ErrorKind::DisplayHelp => WordsFault::Help(error),
            _ => WordsFault::Usage(error),
        }
    }
}
