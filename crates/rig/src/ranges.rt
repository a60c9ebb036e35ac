//! Whole ranges of memory and of output.

ghost use Rattle.std.specs.Prelude.{◌≡◌, ◌+◌, ◌<◌, ◌≤◌, drop, length, slice_index, take};

use debugger::Session;

/// Copies memory from an address on, as many bytes as `out` has, none of them past $FFFF. It
/// changes nothing; a port address reads 0.
pub fn read(session: &Session, address: u16, out: &mut [u8])
    requires { address + length out.old ≤ 65536 }
    ensures { out.new ≡ take (length out.old) (drop address session.now.current.bus.memory) }
{
    for i in 0..out.len() {
        out[i] = session.peek((address as usize + i) as u16);
    }
}

/// Copies the console's output from an index on, as many bytes as `out` has, all of which the
/// output has.
pub fn read_output(session: &Session, from: u32, out: &mut [u8])
    requires { from + length out.old ≤ length session.now.current.bus.out }
    ensures { out.new ≡ take (length out.old) (drop from session.now.current.bus.out) }
{
    let _in_32_bits = session.output_len();
    for i in 0..out.len() {
        out[i] = output_byte(session, from + i as u32);
    }
}

/// A byte that the output has.
fn output_byte(session: &Session, index: u32) -> u8
    requires { index < length session.now.current.bus.out }
    ensures { result ≡ slice_index session.now.current.bus.out index }
{
    session.output_at(index).unwrap_or(0)
}
