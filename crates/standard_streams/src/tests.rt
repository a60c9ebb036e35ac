//! That a read comes to its bytes after it was interrupted.

use crate::retrying::Retrying;
use std::io;
use std::io::{ErrorKind, Read};

/// A reader that gives one byte with each read, and is interrupted some times before each.
#[derive(Drop)]
struct Interrupted {
    bytes: &'static [u8],
    times: u32,
    left: u32,
}

impl Read for Interrupted {
    fn read(&mut self, buf: &mut [u8]) -> io::Result<usize> {
        if self.left > 0 {
            self.left -= 1;
            return Err(ErrorKind::Interrupted.into());
        }
        if self.bytes.is_empty() || buf.is_empty() {
            return Ok(0);
        }
        self.left = self.times;
        buf[0] = self.bytes[0];
        self.bytes = &self.bytes[1..];
        Ok(1)
    }
}

#[test]
fn reads_what_was_interrupted(rt: HostRuntime) {
    let mut reader = Retrying::new(Interrupted {
        bytes: b"ab",
        times: 3,
        left: 3,
    });
    let mut got = [0u8; 2];
    assert_eq!(rt; reader.read(&mut got[..1]).ok(), Some(1));
    assert_eq!(rt; reader.read(&mut got[1..]).ok(), Some(1));
    assert_eq!(rt; reader.read(&mut [0]).ok(), Some(0));
    assert_eq!(rt; got, *b"ab");
}
