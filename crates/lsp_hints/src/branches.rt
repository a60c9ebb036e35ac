//! Branches that do not reach their targets, turned round jumps.

ghost use Rattle.std.specs.Prelude.{◌≡◌, ◌++◌, IfOk};
ghost use Rattle.lsp_hints.specs.Branches.{far_of, far_title, far_words, has_here, indent_of};
ghost use Rattle.lsp_hints.specs.Branches.{operand_in, opposite, turned};

use crate::operation::{start_of, word_size};
use crate::wording::AND_JUMP;
use lsp_answers::Diagnostic;
use model::{Mnemonic, Profile};
use optable::{letters_of, mnemonic_in};
use source_notes::{after, blank_run, concat};
use std::alloc::{AllocError, Global};

/// A branch that does not reach its target.
#[derive(Clone, Copy)]
pub struct Far {
    /// The branch on the opposite.
    pub opposite: Mnemonic,
    /// Where in its line it starts, counted from 0.
    pub start: usize,
    /// Where its operand starts.
    pub from: usize,
    /// How many bytes the operand has.
    pub width: usize,
}

/// Returns the branch on the opposite of what a branch waits for.
fn opposite(mnemonic: Mnemonic) -> Option<Mnemonic>
    ensures { result ≡ opposite mnemonic }
{
    match mnemonic {
        Mnemonic::Bpl => Some(Mnemonic::Bmi),
        Mnemonic::Bmi => Some(Mnemonic::Bpl),
        Mnemonic::Bvc => Some(Mnemonic::Bvs),
        Mnemonic::Bvs => Some(Mnemonic::Bvc),
        Mnemonic::Bcc => Some(Mnemonic::Bcs),
        Mnemonic::Bcs => Some(Mnemonic::Bcc),
        Mnemonic::Bne => Some(Mnemonic::Beq),
        Mnemonic::Beq => Some(Mnemonic::Bne),
        _ => None,
    }
}

/// Returns the branch on the opposite of that of a line, if it has one.
fn turned(profile: Profile, line: &[u8]) -> Option<Mnemonic>
    ensures { result ≡ turned profile line.now }
{
    let rest = after(line, start_of(line));
    match mnemonic_in(profile, &rest[..word_size(rest)]) {
        Some(mnemonic) => opposite(mnemonic),
        None => None,
    }
}

/// Returns so many bytes of a line from one on.
#[tactic(auto, using(std::proofs::lemmas::List::take_min))]
pub fn operand_in(line: &[u8], from: usize, width: usize) -> &[u8]
    ensures { result.now ≡ operand_in line.now from width }
{
    let rest = after(line, from);
    &rest[..width.min(rest.len())]
}

/// Returns whether an operand has a `*`, which would be another address in another line.
fn has_here(operand: &[u8]) -> bool
    ensures { result ≡ has_here operand.now }
{
    operand.iter().any(|byte| *byte == b'*')
}

/// Returns the branch of a line that a fault says does not reach its target; none where its operand
/// has a `*`.
pub fn far_of(profile: Profile, line: &[u8], one: &Diagnostic) -> Option<Far>
    ensures { result ≡ far_of profile line.now one.now }
{
    if !one.kind.is_far_branch() {
        return None;
    }
    let from = one.note.start;
    let width = one.note.width;
    if has_here(operand_in(line, from, width)) {
        return None;
    }
    match turned(profile, line) {
        Some(opposite) => Some(Far {
            opposite,
            start: start_of(line),
            from,
            width,
        }),
        None => None,
    }
}

/// Returns the blanks before an operation that starts a line, and one blank otherwise.
fn indent_of(line: &[u8], start: usize) -> &[u8]
    ensures { result.now ≡ indent_of line.now start }
{
    if start > 0 && start == blank_run(line) && start <= line.len() {
        &line[..start]
    } else {
        b" "
    }
}

/// Returns a branch on the opposite round a jump, in two lines.
pub fn far_words(alloc: Global, line: &[u8], far: Far) -> Result<Vec<u8>, AllocError>
    ensures { IfOk result (λ words. words.items ≡ far_words line.now far) }
{
    let letters = letters_of(far.opposite);
    let indent = indent_of(line, far.start);
    let operand = operand_in(line, far.from, far.width);
    concat(alloc, &[&letters, b" *+5\n", indent, b"JMP ", operand])
}

/// Returns what that change is called.
pub fn far_title(alloc: Global, line: &[u8], far: Far) -> Result<Vec<u8>, AllocError>
    ensures { IfOk result (λ words. words.items ≡ far_title line.now far) }
{
    let letters = letters_of(far.opposite);
    let operand = operand_in(line, far.from, far.width);
    concat(alloc, &[&letters, AND_JUMP.as_bytes(), operand])
}
