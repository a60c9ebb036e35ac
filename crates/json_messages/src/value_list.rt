//! A list, made one value after another.

ghost use Rattle.std.specs.Prelude.{◌≡◌, ◌++◌, ◌∷◌, [], IfOk, List, map};
ghost use Rattle.serde_json.specs.Data.{Data};
ghost use Rattle.serde_json.specs.View.{view};

use serde_json::Value;
use std::alloc::{AllocError, Global};

/// Returns a list with a value behind it. The only error is that memory ran out, before or here.
fn with_value(
    built: Result<Vec<Value>, AllocError>,
    value: Result<Value, AllocError>,
) -> Result<Vec<Value>, AllocError>
    ensures { (ds : List Data) (d : Data) → IfOk built (λ vs. map view vs.items ≡ ds)
        → IfOk value (λ v. view v ≡ d)
        → IfOk result (λ vs. map view vs.items ≡ ds ++ d ∷ []) }
{
    let mut values = built?;
    values.push(value?)?;
    Ok(values)
}

/// A list, or that memory ran out on the way.
#[derive(Drop)]
pub struct ValueList {
    built: Result<Vec<Value>, AllocError>,
}

impl ValueList {
    ghost use Rattle.std.specs.Prelude.{◌++◌, ◌∷◌, [], List};
    ghost use Rattle.json_messages.specs.Values.{list_of};
    ghost use Rattle.json_messages.specs.ValueLists.{HasValues};

    /// Begins with no value.
    pub fn new(alloc: Global) -> ValueList
        ensures { HasValues [] result }
    {
        ValueList {
            built: Ok(Vec::new(alloc)),
        }
    }

    /// Puts a value behind the others. If memory ran out for either, there is no list.
    pub fn with(self, value: Result<Value, AllocError>) -> ValueList
        ensures { (ds : List Data) (d : Data) → HasValues ds self
            → IfOk value (λ v. view v ≡ d) → HasValues (ds ++ d ∷ []) result }
    {
        ValueList {
            built: with_value(self.built, value),
        }
    }

    /// Returns the list. The only error is that memory ran out.
    pub fn build(self) -> Result<Value, AllocError>
        ensures { (ds : List Data) → HasValues ds self
            → IfOk result (λ v. view v ≡ list_of ds) }
    {
        Ok(Value::Array(self.built?))
    }
}
