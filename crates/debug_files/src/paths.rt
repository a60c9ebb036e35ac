//! Where a source lies that a debug file names.

ghost use Rattle.std.specs.Prelude.{◌≡◌, ◌≤◌, ◌++◌, IfOk, OnOk, length, option_map};
ghost use Rattle.debug_files.specs.Paths.{begins_at_root, folder_of, name_start, root_folder};
ghost use Rattle.debug_files.specs.Paths.{slashed, slashed_byte, source_path};

use std::alloc::{AllocError, Global};

/// Returns a byte of a name: `/` for `\`.
fn slashed_byte(byte: u8) -> u8
    ensures { result ≡ slashed_byte byte }
{
    if byte == b'\\' { b'/' } else { byte }
}

/// Returns the name of a source with `/` where Windows writes `\`.
pub fn slashed(alloc: Global, name: &[u8]) -> Result<Vec<u8>, AllocError>
    ensures { IfOk result (λ made. made.items ≡ slashed name.now) }
{
    let mut made = Vec::new(alloc);
    for byte in name {
        made.push(slashed_byte(*byte))?;
    }
    Ok(made)
}

/// Returns where the name of the file begins in its path: after the last `/`, if there is one.
fn name_start(path: &[u8]) -> usize
    ensures start { result ≡ name_start 0 0 path.now }
    ensures within { result ≤ length path.now }
{
    let mut start = 0usize;
    for (at, byte) in path.iter().enumerate() {
        if *byte == b'/' {
            start = at + 1;
        }
    }
    start
}

/// Returns whether a name begins with `/`.
pub fn begins_at_root(name: &[u8]) -> bool
    ensures { result ≡ begins_at_root name.now }
{
    match name {
        [first, ..] => *first == b'/',
        [] => false,
    }
}

/// Returns the part of a path before the name of its file, with the `/`.
pub fn folder_of(path: &[u8]) -> &[u8]
    ensures { result.now ≡ folder_of path.now }
{
    &path[..name_start(path)]
}

/// Appends where relative names begin, with the `/`: the folder that is named, or otherwise that of
/// the debug file.
fn push_folder(text: &mut Vec<u8>, file: &[u8], root: Option<&[u8]>) -> Result<(), AllocError>
    ensures { OnOk result (text.new.items ≡ text.old.items
        ++ root_folder file.now (option_map (λ r. r.now) root.entry)) }
{
    match root {
        Some(root) => {
            text.extend_from_slice(root)?;
            text.push(b'/')?;
        }
        None => text.extend_from_slice(folder_of(file))?,
    }
    Ok(())
}

/// Returns the path of a source that a debug file names: as it is if it begins with `/`, and
/// otherwise in the folder in which relative names begin.
pub fn source_path(
    alloc: Global,
    file: &[u8],
    root: Option<&[u8]>,
    name: &[u8],
) -> Result<Vec<u8>, AllocError>
    ensures { IfOk result (λ path. path.items
        ≡ source_path file.now (option_map (λ r. r.now) root.entry) name.now) }
{
    let mut path = Vec::new(alloc);
    if !begins_at_root(name) {
        push_folder(&mut path, file, root)?;
    }
    path.extend_from_slice(name)?;
    Ok(path)
}
