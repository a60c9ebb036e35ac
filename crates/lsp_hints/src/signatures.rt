//! The forms of operations.

ghost use Rattle.std.specs.Prelude.{◌≡◌, ◌++◌, IfOk, List};
ghost use Rattle.std.specs.List.{flat_map};
ghost use Rattle.json_messages.specs.ValueLists.{HasValues};
ghost use Rattle.json_messages.specs.Values.{list_of};
ghost use Rattle.lsp_hints.specs.Signatures.{form_of, forms_of, help_with, meant_of};
ghost use Rattle.lsp_hints.specs.Signatures.{signatures_of};
ghost use Rattle.serde_json.specs.Data.{Data};
ghost use Rattle.serde_json.specs.View.{view};

use crate::operands::{meant_form, operand_of};
use crate::operation::{Operation, operation_at};
use crate::values::signature;
use crate::wording::{
    BYTE_FORM, DBYTE_FORM, DEFINITION_FORM, END_FORM, ORIGIN_FORM, RES_FORM, WORD_FORM,
};
use json_messages::{Object, ValueList};
use lsp_answers::text_of;
use lsp_messages::column_of;
use model::{Mnemonic, Mode, Profile};
use opcode_facts::{all_modes, operand_form};
use optable::{encode_in, letters_of};
use serde_json::Value;
use source_notes::describe;
use std::alloc::{AllocError, Global};

/// Puts the form of a mnemonic in a mode behind others, if there is one.
fn with_form(
    alloc: Global,
    forms: ValueList,
    profile: Profile,
    mnemonic: Mnemonic,
    mode: Mode,
) -> ValueList
    ensures { (ds : List Data) → HasValues ds forms
        → HasValues (ds ++ form_of profile mnemonic mode) result }
{
    match encode_in(profile, mnemonic, mode) {
        Some(_) => {
            let label = describe(alloc, &letters_of(mnemonic), operand_form(mode));
            forms.with(signature(alloc, text_of(alloc, label)))
        }
        None => forms,
    }
}

/// Returns the forms of a mnemonic in some modes.
fn forms_in(
    alloc: Global,
    profile: Profile,
    mnemonic: Mnemonic,
    modes: &[Mode],
) -> Result<Value, AllocError>
    ensures { IfOk result (λ v. view v
        ≡ list_of (flat_map (form_of profile mnemonic) modes.now)) }
{
    let mut forms = ValueList::new(alloc);
    for mode in modes {
        forms = with_form(alloc, forms, profile, mnemonic, *mode);
    }
    forms.build()
}

/// Returns the forms of an operation.
fn forms_of(alloc: Global, profile: Profile, operation: Operation) -> Result<Value, AllocError>
    ensures { IfOk result (λ v. view v ≡ list_of (forms_of profile operation)) }
{
    let form = match operation {
        Operation::Instruction(mnemonic) => {
            return forms_in(alloc, profile, mnemonic, all_modes());
        }
        Operation::Bytes => BYTE_FORM,
        Operation::Words => WORD_FORM,
        Operation::WordsHighFirst => DBYTE_FORM,
        Operation::Reserve => RES_FORM,
        Operation::Finish => END_FORM,
        Operation::Origin => ORIGIN_FORM,
        Operation::Definition => DEFINITION_FORM,
    };
    ValueList::new(alloc)
        .with(signature(alloc, String::from_str(alloc, form)))
        .build()
}

/// Returns the number of the form that is meant by what is written of an operand.
fn meant_of(profile: Profile, operation: Operation, operand: &[u8]) -> u64
    ensures { result ≡ meant_of profile operation operand.now }
{
    match operation {
        Operation::Instruction(mnemonic) => meant_form(profile, mnemonic, operand),
        _ => 0,
    }
}

/// Returns the forms of an operation, and the number of the one that is meant by what is written of
/// its operand.
fn help_data(
    alloc: Global,
    profile: Profile,
    operation: Operation,
    operand: &[u8],
) -> Result<Value, AllocError>
    ensures { IfOk result (λ v. view v ≡ help_with profile operand.now operation) }
{
    Object::new(alloc)
        .count("activeSignature", meant_of(profile, operation, operand))
        .member("signatures", forms_of(alloc, profile, operation))
        .build()
}

/// Returns the forms of the operation of a line, where a place behind its word is meant, counted in
/// units of UTF-16: of a mnemonic that of each of its modes, and otherwise one; and the number of
/// the one that is meant. It is `null` where there is no operation, before it, and behind a `;`.
/// The only error is that a request for memory was refused.
pub fn signatures_at(
    alloc: Global,
    profile: Profile,
    line: &[u8],
    character: u64,
) -> Result<Value, AllocError>
    ensures { IfOk result (λ v. view v ≡ signatures_of profile line.now character) }
{
    match operation_at(profile, line, column_of(line, character)) {
        Some(operation) => help_data(alloc, profile, operation, operand_of(line)),
        None => Ok(Value::Null),
    }
}
