//! Names that can stand in a source.

ghost use Rattle.std.specs.Prelude.{◌≡◌, ◌++◌, IfOk, Ok, OnOk};
ghost use Rattle.std.specs.Str.{bytes_eq};
ghost use Rattle.line_parts.specs.LineViews.{line_view};
ghost use Rattle.marks_files.specs.Marks.{defines, is_name, label_line};

use asm_line::{Line, LineError, read_line};
use formatting::push_address;
use model::Profile;
use std::alloc::{AllocError, Global};

/// Appends the line of a source that gives an address a name.
pub fn push_label(text: &mut Vec<u8>, name: &[u8], address: u16) -> Result<(), AllocError>
    ensures { OnOk result (text.new.items ≡ text.old.items ++ label_line name.now address) }
{
    text.extend_from_slice(name)?;
    text.extend_from_slice(b" = $")?;
    push_address(text, address)
}

/// Whether two texts are the same.
fn is_same(one: &[u8], other: &[u8]) -> bool
    ensures { result ≡ bytes_eq one.now other.now }
{
    one == other
}

/// Whether a line defines a name.
fn defines(name: &[u8], line: &Line<'_>) -> bool
    ensures { result ≡ defines name.now (Ok (line_view line.now)) }
{
    match line {
        Line::Definition(found, _) => is_same(found, name),
        Line::Labelled(_, _) => false,
    }
}

/// Whether a line that was read defines a name.
fn defined_by(name: &[u8], line: Line<'_>) -> bool
    ensures { result ≡ defines name.now (Ok (line_view line.entry)) }
{
    let is_defined = defines(name, &line);
    drop(line);
    is_defined
}

/// Returns whether a name can stand in a source of a profile.
#[tactic(auto, unfolding(crate::specs::Marks::is_name))]
pub fn is_name(
    alloc: Global,
    profile: Profile,
    name: &[u8],
    address: u16,
) -> Result<bool, AllocError>
    ensures { IfOk result (λ is. is ≡ is_name profile name.now address) }
{
    let mut text = Vec::new(alloc);
    push_label(&mut text, name, address)?;
    match read_line(alloc, profile, text.as_slice()) {
        Ok(line) => Ok(defined_by(name, line)),
        Err(LineError::Kind(_)) => Ok(false),
        Err(LineError::Memory) => Err(AllocError),
    }
}
