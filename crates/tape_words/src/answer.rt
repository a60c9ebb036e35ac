//! What a word answers, written.

ghost use Rattle.std.specs.Prelude.{◌≡◌, ◌≤◌, IfErr, MatchResult};
ghost use Rattle.arguments.specs.FaultLines.{file_line};
ghost use Rattle.arguments.specs.Statuses.{status_of};
ghost use Rattle.model.specs.Writers.{AppendsFront};
ghost use Rattle.tape_words.specs.Answers.{IsAnswered};

use arguments::{FileRefusal, Refusal, refuse, write_text};
use std::io::Write;

/// What a word writes, and whether its exit status is then 0, or 1.
#[derive(Drop)]
pub struct Answer {
    pub text: String,
    pub is_right: bool,
}

/// Writes an answer, or says why there is none, and returns the exit status.
///
/// It is 0 or 1 if the answer is written, by `is_right`; otherwise that of the refusal. That the
/// line on `errors` cannot be written changes no status.
pub fn answered<O: Write, E: Write>(
    answer: Result<Answer, FileRefusal<'_>>,
    output: &mut O,
    errors: &mut E,
) -> u8
    ensures status { result ≤ 4 }
    ensures said { MatchResult answer.entry
        (λ answer. IsAnswered answer result (O.contents output.old) (O.contents output.new))
        (λ why. result ≡ status_of why.refusal) }
    ensures told { IfErr answer.entry (λ why. AppendsFront (E.contents errors.old)
        (E.contents errors.new) (file_line why.file.now why.refusal)) }
    ensures alone { IfErr answer.entry (λ _. output.new ≡ output.old) }
    ensures untouched { 2 ≤ result → result ≤ 3 → output.new ≡ output.old }
    ensures quiet { result ≡ 0 → errors.new ≡ errors.old }
{
    match answer {
        Ok(answer) => match write_text(output, answer.text.as_bytes()) {
            Ok(()) => { if answer.is_right { 0 } else { 1 } }
            Err(_) => refuse(Refusal::Write, errors),
        },
        Err(why) => why.tell(errors),
    }
}
