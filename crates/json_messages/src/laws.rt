//! The laws. Each is the contract of a function that does nothing.

ghost use Rattle.json_messages.specs.Messages.{ReadsAgain, Stays};

/// States that a message that is written is read again, whatever comes behind it, if its body has
/// at most 16,777,216 bytes.
pub fn reads_again()
    ensures { ReadsAgain }
{}

/// States that a message in front of some bytes stays there, whatever comes behind them.
pub fn stays()
    ensures { Stays }
{}
