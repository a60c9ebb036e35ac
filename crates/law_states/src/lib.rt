//! Laws of states: of every state of a machine, and of every state that a session holds.
//!
//! No function here does anything: each one's contract is a law. They stand on `model` alone, and
//! nothing waits for them.
#![tactic(auto)]

ghost use Rattle.law_states.specs.Law.{EventsKeepStates, SessionsHoldStates, StartsAreStates};

/// States that a machine starts in a valid state, if its image has no byte at the port.
///
/// Its registers are in range, its memory has 65,536 bytes, and those at the port are 0. A law for
/// proofs: the call does nothing.
pub fn starts_are_states()
    ensures { StartsAreStates }
{}

/// States that each accepted event keeps a state valid and its map unchanged.
///
/// So memory at the port is always 0. A law for proofs: the call does nothing.
pub fn events_keep_states()
    ensures { EventsKeepStates }
{}

/// States that all states that a session holds are valid, from the first on.
///
/// They are after events, after going back, and after any calls. A law for proofs: the call does
/// nothing.
pub fn sessions_hold_states()
    ensures { SessionsHoldStates }
{}
