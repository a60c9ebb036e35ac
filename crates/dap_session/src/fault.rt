//! Why a request is not done.

ghost use Rattle.std.specs.Prelude.{◌≡◌, ℕ, IfErr, IfOk, List, Ok};
ghost use Rattle.std.specs.Str.{IsTrimAscii};
ghost use Rattle.std.specs.Str.Lossy.{utf8_lossy};
ghost use Rattle.dap_session.specs.Console.{IsRefusal};

use dap_messages::Message;
use std::alloc::{AllocError, Global};

/// Why a request is not done.
#[derive(Drop)]
pub enum Fault {
    /// It is refused, for this reason.
    Refused(String),
    /// An allocation failed.
    OutOfMemory,
}

impl From<AllocError> for Fault {
    ghost use Rattle.std.specs.Prelude.{◌≡◌};
    ghost use Rattle.dap_session.specs.declared.fault.Fault.TheVariants.{OutOfMemory};

    ghost from_gives = { λ _ f. f ≡ OutOfMemory };

    fn from(_: AllocError) -> Fault {
        Fault::OutOfMemory
    }
}

/// Returns messages, or that an allocation failed.
pub fn or_memory(made: Result<Vec<Message>, AllocError>) -> Result<Vec<Message>, Fault>
    ensures made { IfOk result (λ ms. made ≡ Ok ms) }
    ensures memory { IfErr result (λ f. f ≡ Fault.OutOfMemory) }
{
    match made {
        Ok(messages) => Ok(messages),
        Err(_) => Err(Fault::OutOfMemory),
    }
}

/// Returns that a request is refused, with words.
pub fn refused(alloc: Global, words: &str) -> Fault
    ensures { IsRefusal words.now result }
{
    match String::from_str(alloc, words) {
        Ok(words) => Fault::Refused(words),
        Err(_) => Fault::OutOfMemory,
    }
}

/// Returns that a request is refused, with the words of a text but for blanks around them.
pub fn refused_by(alloc: Global, text: &[u8]) -> Fault
    ensures { (words : List ℕ) × IsTrimAscii text.now words
        × IsRefusal (utf8_lossy words) result }
{
    match String::from_utf8_lossy(alloc, text.trim_ascii()) {
        Ok(words) => Fault::Refused(words),
        Err(_) => Fault::OutOfMemory,
    }
}
