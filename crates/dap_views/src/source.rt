//! The files of a program's source, as its client sees them.

ghost use Rattle.std.specs.Prelude.{◌≡◌, IfOk, slice_get};
ghost use Rattle.std.specs.Option.{option_copied};
ghost use Rattle.dap_messages.specs.ItemLists.{HasItems};
ghost use Rattle.dap_messages.specs.SeenAnswers.{answer_view};
ghost use Rattle.dap_views.specs.Files.{IsNamed, sources_listed, sources_shown};

use arguments::is_one_file;
use dap_messages::{Answer, Counting, ItemList, source_file, sources_body};
use std::alloc::{AllocError, Global};
use std::rt::Files;

/// A file of a source: its short name, and its path.
#[derive(Drop)]
pub struct FilePath {
    pub name: String,
    pub path: String,
}

/// The files of a program's source, by number, and how the client counts their lines.
#[derive(Clone, Copy)]
pub struct Source<'a> {
    pub files: &'a [FilePath],
    pub counting: Counting,
}

/// Returns the file of a number, if there is one.
pub fn file_at(files: &[FilePath], file: u32) -> Option<&FilePath>
    ensures { option_copied result ≡ slice_get files.now file }
{
    files.get(file as usize)
}

/// Returns the number of the first of some files that a path names: that has this path, or is the
/// same file of the system.
pub fn file_named<H: Files>(rt: &H, files: &[FilePath], path: &str) -> Option<usize>
    ensures { IsNamed files.now path.now result }
{
    for (index, file) in files.iter().enumerate() {
        if is_one_file(rt, path, file.path.as_str()) {
            return Some(index);
        }
    }
    None
}

/// Returns the files of a source.
fn sources_listed(alloc: Global, files: &[FilePath]) -> ItemList
    ensures { HasItems (sources_listed files.now) result }
{
    let mut list = ItemList::new(alloc);
    for file in files {
        list = list.with(source_file(alloc, file.name.as_str(), file.path.as_str()));
    }
    list
}

/// Returns the answer that has the files of a source.
pub fn sources_shown(alloc: Global, files: &[FilePath]) -> Result<Answer, AllocError>
    ensures { IfOk result (λ v. answer_view v ≡ sources_shown files.now) }
{
    sources_body(sources_listed(alloc, files))
}
