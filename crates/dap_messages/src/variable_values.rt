//! The values of variables.

ghost use Rattle.std.specs.Prelude.{◌≡◌, IfOk, List};
ghost use Rattle.dap_messages.specs.VariableValues.{local_at, plain_variable, read_only, variable};
ghost use Rattle.dap_messages.specs.VariableValues.{variable_at};
ghost use Rattle.dap_messages.specs.VariableValues.{variable_with, variables_body, word_number};
ghost use Rattle.json_messages.specs.Values.{list_of};
ghost use Rattle.serde_json.specs.Data.{Data};
ghost use Rattle.serde_json.specs.View.{view};

use crate::break_values::list_body;
use crate::texts::reference;
use json_messages::{Object, ValueList};
use serde_json::Value;
use std::alloc::{AllocError, Global};

/// Returns a variable of a name, with its value.
pub fn variable(alloc: Global, name: &str, value: &str) -> Result<Value, AllocError>
    ensures { IfOk result (λ v. view v ≡ variable name.now value.now) }
{
    Object::new(alloc)
        .word("evaluateName", name)
        .word("name", name)
        .word("value", value)
        .count("variablesReference", 0)
        .build()
}

/// Returns a variable that no expression stands for, with its value.
pub fn plain_variable(alloc: Global, name: &str, value: &str) -> Result<Value, AllocError>
    ensures { IfOk result (λ v. view v ≡ plain_variable name.now value.now) }
{
    Object::new(alloc)
        .word("name", name)
        .word("value", value)
        .count("variablesReference", 0)
        .build()
}

/// Returns the number by which the word at an address is asked for, if it lies in the zero page:
/// else 0.
fn word_number(address: u16) -> u64
    ensures { result ≡ word_number address }
{
    if address < 255 {
        65536 + u64::from(address)
    } else {
        0
    }
}

/// Returns the byte at an address as a variable, with the number by which its own are asked for.
fn variable_with(
    alloc: Global,
    name: &str,
    address: u16,
    value: &str,
    number: u64,
) -> Result<Value, AllocError>
    ensures { IfOk result
        (λ v. view v ≡ variable_with name.now address value.now number) }
{
    Object::new(alloc)
        .word("evaluateName", name)
        .text("memoryReference", reference(alloc, address))
        .word("name", name)
        .word("value", value)
        .count("variablesReference", number)
        .build()
}

/// Returns the byte at an address as a variable.
pub fn variable_at(
    alloc: Global,
    name: &str,
    address: u16,
    value: &str,
) -> Result<Value, AllocError>
    ensures { IfOk result (λ v. view v ≡ variable_at name.now address value.now) }
{
    variable_with(alloc, name, address, value, word_number(address))
}

/// Returns that a value cannot be set.
fn read_only(alloc: Global) -> Result<Value, AllocError>
    ensures { IfOk result (λ v. view v ≡ read_only) }
{
    let attributes = ValueList::new(alloc)
        .with(Value::try_from_str(alloc, "readOnly"))
        .build();
    Object::new(alloc).member("attributes", attributes).build()
}

/// Returns a local of C that begins at an address as a variable.
pub fn local_at(alloc: Global, name: &str, address: u16, value: &str) -> Result<Value, AllocError>
    ensures { IfOk result (λ v. view v ≡ local_at name.now address value.now) }
{
    Object::new(alloc)
        .word("evaluateName", name)
        .text("memoryReference", reference(alloc, address))
        .word("name", name)
        .member("presentationHint", read_only(alloc))
        .word("value", value)
        .count("variablesReference", 0)
        .build()
}

/// Returns the answer that has variables, if memory did not run out for them.
pub fn variables_body(
    alloc: Global,
    variables: Result<Value, AllocError>,
) -> Result<Value, AllocError>
    ensures { (ds : List Data) → IfOk variables (λ v. view v ≡ list_of ds)
        → IfOk result (λ v. view v ≡ variables_body ds) }
{
    list_body(alloc, "variables", variables)
}
