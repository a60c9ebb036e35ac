//! The names of forms.

ghost use Rattle.std.specs.Prelude.{◌≡◌};
ghost use Rattle.word_convert.specs.Asked.{form_named};

use arguments::FormName;

/// Returns the form of a name.
pub fn form_named(word: &str) -> Option<FormName>
    ensures { result ≡ form_named word.now }
{
    match word {
        "bin" => Some(FormName::Bin),
        "hex" => Some(FormName::Hex),
        "srec" => Some(FormName::SRecord),
        "tape" => Some(FormName::Tape),
        "prg" => Some(FormName::Prg),
        _ => None,
    }
}
