//! Lines that begin where states are.

ghost use Rattle.std.specs.Prelude.{◌≡◌, ◌==◌, find};
ghost use Rattle.line_steps.specs.Lines.{begun, is_other};

use debugger::Session;

/// A line of a file.
#[derive(Clone, Copy)]
pub struct FileLine {
    /// The number of the file.
    pub file: u32,
    /// The number of the line in its file.
    pub line: u32,
}

/// An address at which a line begins.
#[derive(Clone, Copy)]
pub struct LineStart {
    pub address: u16,
    pub line: FileLine,
}

/// Returns the first of some line starts that is at an address.
fn start_at(lines: &[LineStart], address: u16) -> Option<LineStart>
    ensures { result ≡ find (λ start. start.address == address) lines.now }
{
    for start in lines {
        if start.address == address {
            return Some(*start);
        }
    }
    None
}

/// Returns the line that begins at the current state, if one does. Of lines that begin at one
/// address the first counts.
pub fn begun(session: &Session, lines: &[LineStart]) -> Option<FileLine>
    ensures { result ≡ begun lines.now session.now.current }
{
    Some(start_at(lines, session.regs().pc)?.line)
}

/// Returns whether a line begins that is not a certain one.
pub fn is_other(from: Option<FileLine>, begun: Option<FileLine>) -> bool
    ensures { result ≡ is_other from begun }
{
    match begun {
        None => false,
        Some(line) => match from {
            None => true,
            Some(from) => !(from.file == line.file && from.line == line.line),
        },
    }
}
