//! What is answered to questions about documents.

ghost use Rattle.std.specs.Prelude.{◌≡◌, IfOk};
ghost use Rattle.word_lsp.specs.Answers.{IsAnswerTo};
ghost use Rattle.word_lsp.specs.Views.{asked_view};
ghost use Rattle.word_lsp.specs.Shown.{line_in};
ghost use Rattle.lsp_answers.specs.Texts.{text_view};
ghost use Rattle.serde_json.specs.View.{view};

use bus::MapSpec;
use lsp_answers::{Text, completion, definition, highlights, hover, references, symbols};
use lsp_hints::{fixes_in, folded, hints_in, painted, signatures_at, spot_at};
use lsp_messages::{At, Client, Question, Whole, Within};
use serde_json::Value;
use std::alloc::{AllocError, Global};

/// Returns the line of a text that the protocol counts from 0; an empty one where there is none.
fn line_in<'a>(text: &Text<'a>, line: u64) -> &'a [u8]
    ensures { result.now ≡ line_in (text_view text.now) line }
{
    match text.number(line) {
        Some(number) => text.line(number),
        None => &[],
    }
}

/// A client that asks of a document.
#[derive(Clone, Copy)]
pub struct Asked<'a> {
    pub client: Client,
    /// The name of the document.
    pub uri: &'a str,
    /// Its text as the client has it.
    pub written: &'a [u8],
}

/// Returns what is answered to a question about a document with this text. The only error is that
/// a request for memory was refused.
pub fn answer_to(
    alloc: Global,
    map: &MapSpec,
    asked: &Asked<'_>,
    text: &Text<'_>,
    question: Question,
) -> Result<Value, AllocError>
    ensures { IfOk result (λ v. IsAnswerTo map.now (asked_view asked.now) (text_view text.now)
        question (view v)) }
{
    let uri = asked.uri;
    match question {
        Question::Whole(what) => match what {
            Whole::Symbols => symbols(alloc, text),
            Whole::Colours => painted(alloc, text.profile, None, &text.lines),
            Whole::Folds => folded(alloc, text.profile, &text.lines),
        },
        Question::At {
            what,
            line,
            character,
        } => match what {
            At::Hover => hover(
                alloc,
                asked.client.markdown,
                asked.written,
                text,
                line,
                character,
            ),
            At::Definition => definition(alloc, uri, text, line, character),
            At::References { declares } => references(alloc, uri, text, line, character, declares),
            At::Highlights => highlights(alloc, text, line, character),
            At::Signatures => signatures_at(alloc, text.profile, line_in(text, line), character),
            At::Completion => completion(alloc, text, spot_at(line_in(text, line), character)),
        },
        Question::Within { what, from, to } => match what {
            Within::Hints => hints_in(alloc, text.profile, text.source, &text.lines, (from, to)),
            Within::Fixes => fixes_in(alloc, map, uri, text, (from, to)),
            Within::Colours => painted(alloc, text.profile, Some((from, to)), &text.lines),
        },
    }
}
