//! The values of answers. A label is a text or that memory ran out for it, and then there is no
//! whole either.

ghost use Rattle.std.specs.Prelude.{◌≡◌, ℕ, IfOk, List, string_bytes};
ghost use Rattle.lsp_hints.specs.Signatures.{signature_data};
ghost use Rattle.serde_json.specs.View.{view};

use json_messages::Object;
use serde_json::Value;
use std::alloc::{AllocError, Global};

/// Returns a form of an operation.
pub fn signature(alloc: Global, label: Result<String, AllocError>) -> Result<Value, AllocError>
    ensures { (text : List ℕ) → IfOk label (λ s. string_bytes s ≡ text)
        → IfOk result (λ v. view v ≡ signature_data text) }
{
    Object::new(alloc).text("label", label).build()
}
