//! Bytes and words of a memory.

ghost use Rattle.std.specs.Prelude.{◌≡◌, ◌+◌, ◌%◌};
ghost use Rattle.c_frames.specs.Ways.{byte_at, word_at};

/// Returns the byte at an address, 0 where none is.
pub fn byte_at(memory: &[u8], address: u16) -> u8
    ensures { result ≡ byte_at memory.now address }
{
    let at = address as usize;
    if at < memory.len() { memory[at] } else { 0 }
}

/// Returns the address so many bytes further.
pub fn further(address: u16, count: u16) -> u16
    ensures { result ≡ (address + count) % 65536 }
{
    ((address as u32 + count as u32) % 65536) as u16
}

/// Returns the word at an address, its low byte first.
pub fn word_at(memory: &[u8], address: u16) -> u16
    ensures { result ≡ word_at memory.now address }
{
    byte_at(memory, address) as u16 + 256 * byte_at(memory, further(address, 1)) as u16
}
