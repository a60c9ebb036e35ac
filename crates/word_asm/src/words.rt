//! Which words of `asm` ask for more than the tape and the listing of a source by the grammar.

ghost use Rattle.std.specs.Prelude.{◌≡◌};
ghost use Rattle.arguments.specs.Words.{texts};
ghost use Rattle.word_asm.specs.Asked.{asks_for_files, asks_for_images, asks_for_tables};

use arguments::has_option;

/// Returns whether an option is among the words that asks for the names or the places of a source,
/// or for the format of the names.
fn asks_for_tables(words: &[&str]) -> bool
    ensures { result ≡ asks_for_tables (texts words.entry.now) }
{
    has_option("symbols", words) || has_option("symbols-format", words) || has_option("map", words)
}

/// Returns whether an option is among the words that asks for the image in another form than a
/// tape, or for the byte of its gaps.
fn asks_for_images(words: &[&str]) -> bool
    ensures { result ≡ asks_for_images (texts words.entry.now) }
{
    has_option("bin", words)
        || has_option("hex", words)
        || has_option("srec", words)
        || has_option("fill", words)
}

/// Returns whether the words after `asm` ask for a file of names, of places or of the image in
/// another form, or for a source to be cleaned: whether one of the options that do so is among
/// them, before a word `--`.
pub fn asks_for_files(words: &[&str]) -> bool
    ensures { result ≡ asks_for_files (texts words.entry.now) }
{
    asks_for_tables(words) || asks_for_images(words) || has_option("utf8", words)
}
