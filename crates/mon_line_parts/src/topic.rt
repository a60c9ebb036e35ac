//! The words that a line begins with.

ghost use Rattle.std.specs.Prelude.{◌≡◌, ◌≤◌, map};
ghost use Rattle.mon_line_parts.specs.Help.{effect_of, example_of, form_of, help_rows, help_view};
ghost use Rattle.mon_line_parts.specs.Topics.{aliases, begins_with, begun, by_tables, by_words, common};
ghost use Rattle.mon_line_parts.specs.Topics.{is_same, nearest, nearest_of, row_view, subject_of};
ghost use Rattle.mon_line_parts.specs.Topics.{subjects, topic_of, whole, words};

use crate::help::{HELP, Help};
use source_map::is_same_word;

/// What a line is about.
#[derive(Clone, Copy)]
pub enum Topic {
    Step,
    Over,
    Out,
    Until,
    Go,
    Back,
    Rback,
    Redo,
    Where,
    History,
    Break,
    Watch,
    List,
    Delete,
    Regs,
    Flags,
    Mem,
    Dis,
    Find,
    Stack,
    Set,
    Put,
    Asm,
    Type,
    Screen,
    Irq,
    Nmi,
    Reset,
    Help,
    Quit,
    Trace,
    Display,
    Undisplay,
    Save,
    Reload,
    Page,
    Line,
    Locals,
}

/// The first words, each with its topic. A word of one letter or two is an abbreviation that two
/// words would have in common.
pub const WORDS: [(&[u8], Topic); 59] = [
    (b"step", Topic::Step),
    (b"s", Topic::Step),
    (b"over", Topic::Over),
    (b"next", Topic::Over),
    (b"n", Topic::Over),
    (b"out", Topic::Out),
    (b"until", Topic::Until),
    (b"go", Topic::Go),
    (b"continue", Topic::Go),
    (b"c", Topic::Go),
    (b"run", Topic::Go),
    (b"back", Topic::Back),
    (b"rback", Topic::Rback),
    (b"redo", Topic::Redo),
    (b"where", Topic::Where),
    (b"history", Topic::History),
    (b"break", Topic::Break),
    (b"b", Topic::Break),
    (b"watch", Topic::Watch),
    (b"w", Topic::Watch),
    (b"list", Topic::List),
    (b"li", Topic::List),
    (b"l", Topic::List),
    (b"line", Topic::Line),
    (b"locals", Topic::Locals),
    (b"delete", Topic::Delete),
    (b"unbreak", Topic::Delete),
    (b"display", Topic::Display),
    (b"undisplay", Topic::Undisplay),
    (b"regs", Topic::Regs),
    (b"registers", Topic::Regs),
    (b"r", Topic::Regs),
    (b"flags", Topic::Flags),
    (b"mem", Topic::Mem),
    (b"print", Topic::Mem),
    (b"p", Topic::Mem),
    (b"dis", Topic::Dis),
    (b"d", Topic::Dis),
    (b"di", Topic::Dis),
    (b"find", Topic::Find),
    (b"stack", Topic::Stack),
    (b"set", Topic::Set),
    (b"put", Topic::Put),
    (b"poke", Topic::Put),
    (b"asm", Topic::Asm),
    (b"type", Topic::Type),
    (b"in", Topic::Type),
    (b"screen", Topic::Screen),
    (b"irq", Topic::Irq),
    (b"nmi", Topic::Nmi),
    (b"reset", Topic::Reset),
    (b"save", Topic::Save),
    (b"reload", Topic::Reload),
    (b"page", Topic::Page),
    (b"help", Topic::Help),
    (b"h", Topic::Help),
    (b"quit", Topic::Quit),
    (b"q", Topic::Quit),
    (b"trace", Topic::Trace),
];

/// Words of other debuggers, each with the topic of the word that does the same. None is to be
/// shortened, so that no word and no abbreviation changes its topic by them.
pub const ALIASES: [(&[u8], Topic); 21] = [
    (b"exit", Topic::Quit),
    (b"stepi", Topic::Step),
    (b"si", Topic::Step),
    (b"nexti", Topic::Over),
    (b"ni", Topic::Over),
    (b"finish", Topic::Out),
    (b"return", Topic::Out),
    (b"ret", Topic::Out),
    (b"advance", Topic::Until),
    (b"undo", Topic::Back),
    (b"bt", Topic::Where),
    (b"backtrace", Topic::Where),
    (b"bk", Topic::Break),
    (b"bp", Topic::Break),
    (b"clear", Topic::Delete),
    (b"x", Topic::Mem),
    (b"memory", Topic::Mem),
    (b"dump", Topic::Mem),
    (b"disassemble", Topic::Dis),
    (b"hunt", Topic::Find),
    (b"breakpoints", Topic::List),
];

/// Words of other debuggers that no word does the same as, each with the topic of the word that
/// comes nearest.
pub const NEAREST: [(&[u8], Topic); 8] = [
    (b"z", Topic::Step),
    (b"tbreak", Topic::Until),
    (b"reverse", Topic::Back),
    (b"frame", Topic::Where),
    (b"rwatch", Topic::Watch),
    (b"awatch", Topic::Watch),
    (b"jump", Topic::Set),
    (b"goto", Topic::Set),
];

/// What stands behind `info` of gdb, each with the topic of the word that shows it.
pub const SUBJECTS: [(&[u8], Topic); 10] = [
    (b"registers", Topic::Regs),
    (b"regs", Topic::Regs),
    (b"reg", Topic::Regs),
    (b"r", Topic::Regs),
    (b"breakpoints", Topic::List),
    (b"break", Topic::List),
    (b"b", Topic::List),
    (b"watchpoints", Topic::List),
    (b"stack", Topic::Where),
    (b"locals", Topic::Locals),
];

/// The topics, in the order in which help lists them.
pub const TOPICS: [Topic; 37] = [
    Topic::Step,
    Topic::Over,
    Topic::Out,
    Topic::Line,
    Topic::Until,
    Topic::Go,
    Topic::Back,
    Topic::Rback,
    Topic::Redo,
    Topic::Where,
    Topic::Locals,
    Topic::History,
    Topic::Break,
    Topic::Watch,
    Topic::List,
    Topic::Delete,
    Topic::Display,
    Topic::Undisplay,
    Topic::Regs,
    Topic::Flags,
    Topic::Mem,
    Topic::Dis,
    Topic::Find,
    Topic::Stack,
    Topic::Set,
    Topic::Put,
    Topic::Asm,
    Topic::Type,
    Topic::Screen,
    Topic::Irq,
    Topic::Nmi,
    Topic::Reset,
    Topic::Save,
    Topic::Page,
    Topic::Reload,
    Topic::Help,
    Topic::Quit,
];

/// Returns what help says of each topic, in the order of `Topic`.
#[tactic(auto, unfolding(crate::specs::Help::help_rows))]
fn all_help() -> &'static [(&'static str, &'static str, &'static str)]
    ensures { map help_view result.now ≡ help_rows }
{
    &HELP
}

impl Topic {
    /// Returns what help says of it.
    pub fn help(self) -> Help
        ensures form { result.form.now ≡ form_of self }
        ensures effect { result.effect.now ≡ effect_of self }
        ensures example { result.example.now ≡ example_of self }
    {
        match all_help().get(self as usize) {
            Some(row) => Help {
                form: row.0,
                effect: row.1,
                example: row.2,
            },
            None => Help {
                form: "",
                effect: "",
                example: "",
            },
        }
    }
}

/// Returns whether a word begins with some text, capitals or not.
pub fn begins_with(word: &[u8], text: &[u8]) -> bool
    ensures { result ≡ begins_with word.now text.now }
{
    text.len() <= word.len() && word[..text.len()].eq_ignore_ascii_case(text)
}

/// Whether two topics are the same.
#[tactic(auto, using(crate::proofs::Begun::place_is))]
fn is_same(one: Topic, other: Topic) -> bool
    ensures { result ≡ is_same one other }
{
    one as u8 == other as u8
}

/// Returns the topic of the first word that a text is, capitals or not.
fn whole(text: &[u8], words: &[(&[u8], Topic)]) -> Option<Topic>
    ensures { result ≡ whole text.now (map row_view words.now) }
{
    for (word, topic) in words {
        if is_same_word(word, text) {
            return Some(*topic);
        }
    }
    None
}

/// Returns the topic of the words that begin with a text. `None` and `false` if there is none,
/// `None` and `true` if they have more than one topic.
fn begun(text: &[u8], words: &[(&[u8], Topic)]) -> (Option<Topic>, bool)
    ensures { result ≡ common (begun text.now (map row_view words.now)) }
{
    let mut found: Option<Topic> = None;
    for (word, topic) in words {
        if begins_with(word, text) {
            match found {
                None => found = Some(*topic),
                Some(other) => {
                    if !is_same(other, *topic) {
                        return (None, true);
                    }
                }
            }
        }
    }
    (found, false)
}

/// Returns the words that begin a line, each with its topic.
#[tactic(auto, unfolding(crate::specs::Topics::words))]
pub fn all_words() -> &'static [(&'static [u8], Topic)]
    ensures { map row_view result.now ≡ words }
{
    &WORDS
}

/// Returns the words of other debuggers, each with the topic of the word that does the same.
#[tactic(auto, unfolding(crate::specs::Topics::aliases))]
fn all_aliases() -> &'static [(&'static [u8], Topic)]
    ensures { map row_view result.now ≡ aliases }
{
    &ALIASES
}

/// Returns the words of other debuggers that no word does the same as.
#[tactic(auto, unfolding(crate::specs::Topics::nearest))]
fn all_nearest() -> &'static [(&'static [u8], Topic)]
    ensures { map row_view result.now ≡ nearest }
{
    &NEAREST
}

/// Returns what stands behind `info` of gdb.
#[tactic(auto, unfolding(crate::specs::Topics::subjects))]
fn all_subjects() -> &'static [(&'static [u8], Topic)]
    ensures { map row_view result.now ≡ subjects }
{
    &SUBJECTS
}

/// Returns the topic of the word that a text is, otherwise of the words that it begins.
fn by_words(text: &[u8], words: &[(&[u8], Topic)]) -> (Option<Topic>, bool)
    ensures { result ≡ by_words text.now (map row_view words.now) }
{
    match whole(text, words) {
        Some(topic) => (Some(topic), false),
        None => begun(text, words),
    }
}

/// Returns the topic of the word of another debugger that a text is, otherwise of the word that it
/// is, otherwise of the words that it begins.
fn by_tables(text: &[u8]) -> (Option<Topic>, bool)
    ensures { result ≡ by_tables text.now }
{
    match whole(text, all_aliases()) {
        Some(topic) => (Some(topic), false),
        None => by_words(text, all_words()),
    }
}

/// Returns the topic of a first word: of the word that it is, of `mon` or of another debugger,
/// otherwise of the words that it begins, if they have one topic. `None` and `false` if it begins
/// none, `None` and `true` if they have more than one topic. A text without a byte begins none.
#[tactic(auto, unfolding(crate::specs::Topics::topic_of))]
pub fn topic_of(text: &[u8]) -> (Option<Topic>, bool)
    ensures { result ≡ topic_of text.now }
{
    if text == b"?".as_slice() {
        return (Some(Topic::Help), false);
    }
    if text.is_empty() {
        return (None, false);
    }
    by_tables(text)
}

/// Returns the topic of the word that comes nearest to a word of another debugger, if the word is
/// one that no word of `mon` does the same as.
#[tactic(auto, unfolding(crate::specs::Topics::nearest_of))]
pub fn nearest_of(text: &[u8]) -> Option<Topic>
    ensures { result ≡ nearest_of text.now }
{
    whole(text, all_nearest())
}

/// Returns the topic of what `info` of gdb shows with a word behind it, if that is one that `mon`
/// shows.
#[tactic(auto, unfolding(crate::specs::Topics::subject_of))]
pub fn subject_of(text: &[u8]) -> Option<Topic>
    ensures { result ≡ subject_of text.now }
{
    whole(text, all_subjects())
}
