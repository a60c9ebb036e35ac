//! What a screen has besides the texts of `mon`, each once. Definitions in `specs` name it.

/// Puts the cursor to the first cell, and clears the terminal.
pub const CLEAR: &str = "\x1b[H\x1b[2J";

/// What ends each row.
pub const ROW_END: &str = "\r\n";

// Where the program stands.
pub const HERE: &str = "> ";

pub const ELSEWHERE: &str = "  ";

// Below a register that has changed, and below one that has not.
pub const CHANGED: &str = "  ^^ ";

pub const SAME: &str = "     ";

// Above the console's output and above what the last line was answered with.
pub const CONSOLE: &str = "-- console";

pub const ANSWER: &str = "-- mon";

// Behind that, if the answer has more lines than were shown so far.
pub const SHOWN: &str = ": ";

pub const OF: &str = " of ";

pub const TURN: &str = " lines; Return goes on, q leaves";
