//! The form of a file of names.

ghost use Rattle.std.specs.Prelude.{◌≡◌};
ghost use Rattle.names_files.specs.NamesFile.{form_of};

/// How a file of names is written.
#[derive(Clone, Copy)]
pub enum Form {
    /// Lines of a source, and lines `al ADDRESS .NAME`.
    Plain,
    /// A debug file of ld65.
    Debug,
    /// The table of DASM.
    Table,
}

/// Returns the form of a file, which its first bytes tell.
#[tactic(auto, unfolding(crate::specs::NamesFile::form_of))]
pub fn form_of(file: &[u8]) -> Form
    ensures { result ≡ form_of file.now }
{
    if file.starts_with(b"version\tmajor=") {
        Form::Debug
    } else if file.starts_with(b"--- Symbol List") {
        Form::Table
    } else {
        Form::Plain
    }
}
