//! Standard streams that are closed.

use std::fs::{File, Files, OpenOptions};
use std::os::fd::AsRawFd;

/// The file that is opened in the place of each closed stream.
const NOTHING: &str = "/dev/null";

/// Files in the places of the standard streams that were closed when the program began.
///
/// A read of the input and a write of the others fail, as on a closed stream. No file that is
/// opened gets their numbers as long as this value is there.
#[derive(Drop)]
pub struct ClosedStreams<F: Drop> {
    input: Option<F>,
    output: Option<F>,
    errors: Option<F>,
}

/// Takes the numbers 0, 1 and 2 where they are free, so that no file that is opened later is taken
/// for a standard stream. Call it before the first file is opened, and keep what it returns.
///
/// A file that is opened gets the lowest number that is free. So `/dev/null` is opened until it
/// gets none of the three: in the place of the input to write it, and in those of the others to
/// read it. Where it cannot be opened, the numbers that are still free stay free. No clause can say
/// which numbers are free; tests show that they are taken.
pub fn take_closed<H: Files>(files: &H) -> ClosedStreams<H::File>
where
    H::File: AsRawFd,
{
    let mut taken = ClosedStreams {
        input: None,
        output: None,
        errors: None,
    };
    for _ in 0..4 {
        let Ok(file) = File::open(files, NOTHING) else {
            return taken;
        };
        match file.as_raw_fd() {
            0 => {
                drop(file);
                taken.input = OpenOptions::new().write(true).open(files, NOTHING).ok();
            }
            1 => taken.output = Some(file),
            2 => taken.errors = Some(file),
            _ => return taken,
        }
    }
    taken
}
