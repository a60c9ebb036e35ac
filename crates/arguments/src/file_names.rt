//! What the name of a file tells of its form.

ghost use Rattle.std.specs.Prelude.{◌≡◌};
ghost use Rattle.arguments.specs.FileNames.{address_at, form_beside, form_by_ending, form_for};
ghost use Rattle.arguments.specs.FileNames.{form_of_ending, form_with, has_ending, name_of};
ghost use Rattle.arguments.specs.FileNames.{names_image, own_form, prg_with, takes_either};

use crate::file_options::FileForm;
use commands::address_of;

/// A form by its name.
#[derive(Clone, Copy, Debug, PartialEq, Eq)]
pub enum FormName {
    /// Bytes alone.
    Bin,
    /// Intel HEX.
    Hex,
    /// Motorola S-records.
    SRecord,
    /// A paper tape of MOS Technology.
    Tape,
    /// The address in two bytes, and bytes from it on.
    Prg,
}

/// Returns the address that a word `FILE@HHHH` has behind the name of a file.
pub fn address_at(word: &[u8]) -> Option<u16>
    ensures { result ≡ address_at word.now }
{
    if word.len() < 6 {
        return None;
    }
    if word[word.len() - 5] != b'@' {
        return None;
    }
    address_of(&word[word.len() - 4..])
}

/// Returns the name of the file that a word names, without an address behind it.
pub fn name_of(word: &str) -> &str
    ensures { result.now ≡ name_of word.now }
{
    let bytes = word.as_bytes();
    if bytes.len() < 6 {
        return word;
    }
    if bytes[bytes.len() - 5] != b'@' {
        return word;
    }
    match address_of(&bytes[bytes.len() - 4..]) {
        None => word,
        Some(_) => word.split_at(bytes.len() - 5).0,
    }
}

/// Returns whether a file's name has an ending.
fn has_ending(ending: &[u8], name: &[u8]) -> bool
    ensures { result ≡ has_ending ending.now name.now }
{
    name.ends_with(ending)
}

/// Returns the form of the ending of a file's name.
pub fn form_of_ending(name: &[u8]) -> Option<FormName>
    ensures { result ≡ form_of_ending name.now }
{
    if has_ending(b".bin", name) {
        Some(FormName::Bin)
    } else if has_ending(b".rom", name) {
        Some(FormName::Bin)
    } else if has_ending(b".hex", name) {
        Some(FormName::Hex)
    } else if has_ending(b".ihx", name) {
        Some(FormName::Hex)
    } else if has_ending(b".ihex", name) {
        Some(FormName::Hex)
    } else if has_ending(b".srec", name) {
        Some(FormName::SRecord)
    } else if has_ending(b".mot", name) {
        Some(FormName::SRecord)
    } else if has_ending(b".s19", name) {
        Some(FormName::SRecord)
    } else if has_ending(b".s28", name) {
        Some(FormName::SRecord)
    } else if has_ending(b".s37", name) {
        Some(FormName::SRecord)
    } else if has_ending(b".prg", name) {
        Some(FormName::Prg)
    } else if has_ending(b".tape", name) {
        Some(FormName::Tape)
    } else if has_ending(b".pt", name) {
        Some(FormName::Tape)
    } else if has_ending(b".ptp", name) {
        Some(FormName::Tape)
    } else {
        None
    }
}

/// Returns how a file with an ending is read, if that tells it.
fn form_by_ending(ending: Option<FormName>) -> Option<FileForm>
    ensures { result ≡ form_by_ending ending }
{
    match ending {
        None => None,
        Some(FormName::Bin) => None,
        Some(FormName::Hex) => Some(FileForm::Records),
        Some(FormName::SRecord) => Some(FileForm::Records),
        Some(FormName::Tape) => Some(FileForm::Records),
        Some(FormName::Prg) => Some(FileForm::Prg),
    }
}

/// Returns the form that the word for a file tells, by an address behind it or by its ending.
fn own_form(word: &str) -> Option<FileForm>
    ensures { result ≡ own_form word.now }
{
    match address_at(word.as_bytes()) {
        None => form_by_ending(form_of_ending(word.as_bytes())),
        Some(address) => Some(FileForm::Raw(address)),
    }
}

/// Returns the form of a file that is given as a PRG file, if it tells no other.
fn prg_with(own: FileForm) -> Option<FileForm>
    ensures { result ≡ prg_with own }
{
    match own {
        FileForm::Source => None,
        FileForm::Records => None,
        FileForm::Raw(_) => None,
        FileForm::Prg => Some(FileForm::Prg),
    }
}

/// Returns the form of a file by the one that it tells and the one that options say; `None` where
/// these are two.
fn form_with(own: Option<FileForm>, said: FileForm) -> Option<FileForm>
    ensures { result ≡ form_with own said }
{
    match own {
        None => Some(said),
        Some(own) => match said {
            FileForm::Source => Some(own),
            FileForm::Records => Some(own),
            FileForm::Raw(_) => None,
            FileForm::Prg => prg_with(own),
        },
    }
}

/// Returns the form of the file that a word names, beside the one that options say: `Source` where
/// they say none. Returns `None` where the word tells another.
pub fn form_for(word: &str, said: FileForm) -> Option<FileForm>
    ensures { result ≡ form_for word.now said }
{
    form_with(own_form(word), said)
}

/// Returns the form of one of several files: the one that its word tells, or else the one that
/// options say.
pub fn form_beside(word: &str, said: FileForm) -> FileForm
    ensures { result ≡ form_beside word.now said }
{
    match own_form(word) {
        None => said,
        Some(own) => own,
    }
}

/// Returns whether one of two files at least takes the form that options say.
pub fn takes_either(word: &str, other: &str, said: FileForm) -> bool
    ensures { result ≡ takes_either word.now other.now said }
{
    form_for(word, said).is_some() || form_for(other, said).is_some()
}

/// Returns whether a word names an image: with an address behind it, or an ending of one.
pub fn names_image(word: &str) -> bool
    ensures { result ≡ names_image word.now }
{
    address_at(word.as_bytes()).is_some() || form_of_ending(word.as_bytes()).is_some()
}
