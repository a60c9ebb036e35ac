//! The memory of a session.

ghost use Rattle.std.specs.Prelude.{◌≡◌, ◌≤◌, IfOk, length};

use debugger::Session;
use std::alloc::{AllocError, Global};

/// How many bytes memory has.
const MEMORY_SIZE: u32 = 65536;

/// Returns how many bytes memory has: as many in every state.
fn memory_size(session: &Session) -> u32
    ensures size { result ≡ length session.now.current.bus.memory }
    ensures within { result ≤ 65536 }
{
    session.is_state();
    MEMORY_SIZE
}

/// Returns a copy of the memory of a session's state.
///
/// Errors: `AllocError` if an allocation fails.
pub fn memory_of(alloc: Global, session: &Session) -> Result<Vec<u8>, AllocError>
    ensures { IfOk result (λ memory. memory.items ≡ session.now.current.bus.memory) }
{
    let mut memory = Vec::new(alloc);
    for address in 0..memory_size(session) {
        memory.push(session.peek(address as u16))?;
    }
    Ok(memory)
}
