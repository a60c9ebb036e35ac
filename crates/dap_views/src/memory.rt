//! Bytes of memory.

ghost use Rattle.std.specs.Prelude.{◌≡◌, ◌+◌, ◌≤◌, IfOk, string_bytes};
ghost use Rattle.dap_views.specs.Memory.{bytes_text, memory_shown};
ghost use Rattle.dap_messages.specs.SeenAnswers.{answer_view};

use base64::engine::general_purpose::STANDARD;
use dap_messages::{Answer, memory_body};
use mon_runs::Session;
use mon_session::MonState;
use std::alloc::{AllocError, Global};

/// Returns so many bytes from an address on, in Base64.
fn bytes_text(
    alloc: Global,
    session: &Session,
    first: u16,
    count: u32,
) -> Result<String, AllocError>
    requires { first + count ≤ 65536 }
    ensures { IfOk result (λ text. string_bytes text
        ≡ bytes_text session.now.current.bus.memory first count) }
{
    let mut bytes = Vec::new(alloc);
    for offset in 0..count {
        bytes.push(session.peek((first as u32 + offset) as u16))?;
    }
    STANDARD.encode(alloc, bytes.as_slice())
}

/// Returns so many bytes of memory from an address on, as far as it goes, with how many more were
/// asked for: none where no address is named.
pub fn memory_shown(
    alloc: Global,
    mon: &MonState,
    address: Option<u16>,
    count: u32,
) -> Result<Answer, AllocError>
    ensures { IfOk result (λ v. answer_view v
        ≡ memory_shown mon.now.session.current.bus.memory address count) }
{
    let (first, most) = match address {
        Some(first) => (first, count.min(65536 - u32::from(first))),
        None => (0, 0),
    };
    let text = bytes_text(alloc, &mon.session, first, most);
    memory_body(first, text, u64::from(count - most))
}
