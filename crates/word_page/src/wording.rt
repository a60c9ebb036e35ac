//! What is said of words and files.

/// That a file that is read has the name of the page.
pub const ONE_NAME: &str = "OUT is a file that is read";

/// That the page has the name of an image.
pub const ONE_IMAGE: &str =
    "page takes one image, and OUT is the page, as run.html; convert joins images";

/// What an option takes, where its value is wrong.
pub const AT_TAKES: &str = "--at takes a number of at most seven digits";

pub const SCREEN_TAKES: &str = "--screen takes four hex digits";

/// Why a file is no file of notes.
pub const NO_NOTE: &str = ": a note is the number of a step and a text\n";

pub const NOTES_TOO_LONG: &str = ": NOTES has more than 1048576 bytes\n";
