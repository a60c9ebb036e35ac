//! Help: how lines are written, what they do, and examples.

ghost use Rattle.std.specs.Prelude.{◌≡◌, ◌++◌, OnOk};
ghost use Rattle.std.specs.List.{flat_map};
ghost use Rattle.mon_texts.specs.Help.{all_help, all_topics, example_text, first_help, first_topics};
ghost use Rattle.mon_texts.specs.Help.{form_row, help_text, is_help, topic_help};

use crate::wording::{ADDRESS_FORMS, EMPTY_LINE, EXAMPLE, EXAMPLE_LINE, MORE_WORDS};
use formatting::{push_blanks, push_text};
use mon_line_parts::{TOPICS, Topic};
use std::alloc::AllocError;

/// The topics that a person needs first.
pub const FIRST: [Topic; 10] = [
    Topic::Step,
    Topic::Over,
    Topic::Until,
    Topic::Go,
    Topic::Back,
    Topic::Break,
    Topic::Watch,
    Topic::Mem,
    Topic::Dis,
    Topic::Quit,
];

/// Returns the topics that a person needs first.
#[tactic(auto, unfolding(crate::specs::Help::first_topics))]
fn first_topics() -> &'static [Topic]
    ensures { result.now ≡ first_topics }
{
    &FIRST
}

/// Returns the topics, in the order in which help lists them.
#[tactic(auto, unfolding(crate::specs::Help::all_topics))]
fn all_topics() -> &'static [Topic]
    ensures { result.now ≡ all_topics }
{
    &TOPICS
}

/// Appends how a line about a topic is written, and what it does, in columns.
#[tactic(auto, unfolding(crate::specs::Help::form_row))]
fn push_form(text: &mut Vec<u8>, topic: Topic) -> Result<(), AllocError>
    ensures { OnOk result (text.new.items ≡ text.old.items ++ form_row topic) }
{
    let from = text.len();
    let help = topic.help();
    push_text(text, help.form)?;
    push_blanks(text, from, 34)?;
    push_text(text, help.effect)?;
    push_text(text, "\n")
}

/// Appends the rows of topics.
fn push_forms(text: &mut Vec<u8>, topics: &[Topic]) -> Result<(), AllocError>
    ensures { OnOk result (text.new.items ≡ text.old.items ++ flat_map form_row topics.now) }
{
    for topic in topics {
        push_form(text, *topic)?;
    }
    Ok(())
}

/// Appends the rows of all topics, what an address may be, and what an empty line does.
#[tactic(auto, unfolding(crate::specs::Help::all_help))]
fn push_all(text: &mut Vec<u8>) -> Result<(), AllocError>
    ensures { OnOk result (text.new.items ≡ text.old.items ++ all_help) }
{
    push_forms(text, all_topics())?;
    push_text(text, ADDRESS_FORMS)?;
    push_text(text, EMPTY_LINE)
}

/// Appends the rows of the topics that a person needs first, the other words, what an address may
/// be, and what an empty line does.
#[tactic(auto, unfolding(crate::specs::Help::first_help))]
fn push_first(text: &mut Vec<u8>) -> Result<(), AllocError>
    ensures { OnOk result (text.new.items ≡ text.old.items ++ first_help) }
{
    push_forms(text, first_topics())?;
    push_text(text, MORE_WORDS)?;
    push_text(text, ADDRESS_FORMS)?;
    push_text(text, EMPTY_LINE)
}

/// Returns whether a topic is help itself.
fn is_help(topic: Topic) -> bool
    ensures { result ≡ is_help topic }
{
    matches!(topic, Topic::Help)
}

/// Appends how a line about a topic is written, what it does, and an example.
#[tactic(auto, unfolding(crate::specs::Help::topic_help))]
fn push_topic(text: &mut Vec<u8>, topic: Topic) -> Result<(), AllocError>
    ensures { OnOk result (text.new.items ≡ text.old.items ++ topic_help topic) }
{
    let help = topic.help();
    push_text(text, help.form)?;
    push_text(text, "  ")?;
    push_text(text, help.effect)?;
    push_text(text, EXAMPLE_LINE)?;
    push_text(text, help.example)?;
    push_text(text, "\n")
}

/// Appends a word's form, what it does, and an example; the forms of all words if the word is
/// `help`; or the forms of the first words and the other words.
///
/// Errors: `AllocError` if an allocation fails.
pub fn push_help(text: &mut Vec<u8>, topic: Option<Topic>) -> Result<(), AllocError>
    ensures ok { OnOk result (text.new.items ≡ text.old.items ++ help_text topic) }
{
    match topic {
        Some(topic) => {
            if is_help(topic) {
                push_all(text)
            } else {
                push_topic(text, topic)
            }
        }
        None => push_first(text),
    }
}

/// Appends an example, if it is known what a line is about.
///
/// Errors: `AllocError` if an allocation fails.
pub fn push_example(text: &mut Vec<u8>, topic: Option<Topic>) -> Result<(), AllocError>
    ensures ok { OnOk result (text.new.items ≡ text.old.items ++ example_text topic) }
{
    if let Some(topic) = topic {
        push_text(text, EXAMPLE)?;
        push_text(text, topic.help().example)?;
    }
    Ok(())
}
