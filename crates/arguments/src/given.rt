//! Which options are given, by words that are not matched with a command line yet.

ghost use Rattle.std.specs.Prelude.{◌≡◌, ◌==◌, option_map};
ghost use Rattle.std.specs.List.{before_first};
ghost use Rattle.arguments.specs.Given.{has_option, is_name, option_name};
ghost use Rattle.arguments.specs.Words.{texts};
ghost use Rattle.clap.specs.Lexer.{strip_byte};

/// Returns what follows a hyphen that a text begins with.
fn after_hyphen(text: &str) -> Option<&str>
    ensures { option_map (λ s. s.now) result ≡ strip_byte 45 text.now }
{
    text.strip_prefix('-')
}

/// Returns what a text has before its first `=`.
fn before_equals(text: &str) -> &str
    ensures { result.now ≡ before_first (λ x. x == 61) text.now }
{
    match text.split_once('=') {
        Some((name, _)) => name,
        None => text,
    }
}

/// Returns the name in an option, `--name` or `--name=value`; `None` for any other word.
fn option_name(word: &str) -> Option<&str>
    ensures { option_map (λ s. s.now) result ≡ option_name word.now }
{
    let rest = after_hyphen(after_hyphen(word)?)?;
    if rest.is_empty() {
        return None;
    }
    Some(before_equals(rest))
}

/// Returns whether a word is an option of a name.
fn is_option(name: &str, word: &str) -> bool
    ensures { result ≡ is_name name.now (option_name word.now) }
{
    match option_name(word) {
        None => false,
        Some(given) => given == name,
    }
}

/// Returns whether an option is among words, as `--name` or as `--name=value`, before a word `--`.
///
/// It needs no command line: `clap` takes a word that begins with `--` as an option, and never as
/// the value of another one.
pub fn has_option(name: &str, words: &[&str]) -> bool
    ensures { result ≡ has_option name.now (texts words.entry.now) }
{
    for word in words {
        if *word == "--" {
            return false;
        }
        if is_option(name, word) {
            return true;
        }
    }
    false
}
