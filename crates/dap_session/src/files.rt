//! The files of a program's source, with their paths.

ghost use Rattle.std.specs.Prelude.{◌≡◌, ◌∷◌, ◌++◌, [], ℕ, IfOk, List, OnOk, map as each, option_map};
ghost use Rattle.std.specs.Prelude.{string_bytes};
ghost use Rattle.debug_files.specs.Paths.{root_folder, source_path};
ghost use Rattle.dap_messages.specs.Seen.{launch_view, text_view};
ghost use Rattle.dap_session.specs.Paths.{debug_path, path_at, path_of, paths_by, paths_of};
ghost use Rattle.dap_session.specs.Options.{program_of};
ghost use Rattle.source_map.specs.Lines.{source_view};

use crate::launching::text_of;
use dap_messages::Launch;
use dap_views::FilePath;
use debug_files::{begins_at_root, folder_of};
use source_map::{Places, SourceFile};
use std::alloc::{AllocError, Global};

/// Returns the last part of a path.
fn last_part(path: &str) -> &str {
    match path.rsplit_once('/') {
        Some((_, name)) => name,
        None => path,
    }
}

/// Returns the path of the program of a launch: empty if it names none.
fn program_text(launch: &Launch) -> &str
    ensures { result.now ≡ program_of (launch_view launch.now) }
{
    match &launch.program {
        Some(path) => path.as_str(),
        None => "",
    }
}

/// Returns a file of a path, with its short name.
fn file_of(alloc: Global, path: String) -> Result<FilePath, AllocError>
    ensures { IfOk result (λ file. path_of file ≡ string_bytes path) }
{
    let name = String::from_str(alloc, last_part(path.as_str()))?;
    Ok(FilePath { name, path })
}

/// Appends where relative names of sources begin, with the `/`.
fn push_folder(text: &mut Vec<u8>, file: &str, root: Option<&str>) -> Result<(), AllocError>
    ensures { OnOk result (text.new.items ≡ text.old.items
        ++ root_folder file.now (option_map (λ r. r.now) root.entry)) }
{
    match root {
        Some(root) => {
            text.extend_from_slice(root.as_bytes())?;
            text.push(b'/')?;
        }
        None => text.extend_from_slice(folder_of(file.as_bytes()))?,
    }
    Ok(())
}

/// Appends the path of a source that a file of debug information names.
fn push_path(
    text: &mut Vec<u8>,
    file: &str,
    root: Option<&str>,
    name: &[u8],
) -> Result<(), AllocError>
    ensures { OnOk result (text.new.items ≡ text.old.items
        ++ source_path file.now (option_map (λ r. r.now) root.entry) name.now) }
{
    if !begins_at_root(name) {
        push_folder(text, file, root)?;
    }
    text.extend_from_slice(name)
}

/// Returns the path of a source that a file of debug information names.
fn debug_path(
    alloc: Global,
    file: &str,
    root: Option<&str>,
    source: &SourceFile,
) -> Result<String, AllocError>
    ensures { IfOk result (λ path. string_bytes path
        ≡ debug_path file.now (option_map (λ r. r.now) root.entry) (source_view source.now)) }
{
    let mut text = Vec::new(alloc);
    push_path(&mut text, file, root, source.name.as_slice())?;
    String::from_utf8_lossy(alloc, text.as_slice())
}

/// Returns the sources that a file of debug information names.
fn debug_sources(
    alloc: Global,
    file: &str,
    root: Option<&str>,
    sources: &[SourceFile],
) -> Result<Vec<FilePath>, AllocError>
    ensures { IfOk result (λ files. each path_of files.items
        ≡ each (debug_path file.now (option_map (λ r. r.now) root.entry))
        (each source_view sources.now)) }
{
    let mut files = Vec::new(alloc);
    for source in sources {
        let path = debug_path(alloc, file, root, source)?;
        let named = file_of(alloc, path)?;
        files.push(named)?;
    }
    Ok(files)
}

/// Returns the one file of a program that is a source, or has no debug information.
fn own_file(alloc: Global, path: &str) -> Result<Vec<FilePath>, AllocError>
    ensures { IfOk result (λ files. each path_of files.items ≡ path.now ∷ []) }
{
    let mut files = Vec::new(alloc);
    let whole = String::from_str(alloc, path)?;
    let named = file_of(alloc, whole)?;
    files.push(named)?;
    Ok(files)
}

/// Returns the files of the program of a launch, by number: those that the file of debug
/// information names, if the launch names one, and otherwise the program.
pub fn files_of(
    alloc: Global,
    launch: &Launch,
    places: &Places,
) -> Result<Vec<FilePath>, AllocError>
    ensures { IfOk result (λ files. each path_of files.items
        ≡ paths_of (launch_view launch.now) places.now.sources) }
{
    match text_of(&launch.debug_info) {
        Some(file) => debug_sources(alloc, file, text_of(&launch.source_root), places.sources()),
        None => own_file(alloc, program_text(launch)),
    }
}

/// Returns the path of the file of a number: empty if there is none.
pub fn path_at(files: &[FilePath], file: usize) -> &str
    ensures { result.now ≡ path_at files.now file }
{
    match files.get(file) {
        Some(file) => file.path.as_str(),
        None => "",
    }
}
