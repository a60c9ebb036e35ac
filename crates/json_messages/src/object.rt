//! An object, made one member after another.

ghost use Rattle.std.specs.Prelude.{◌≡◌, ℕ, IfOk, List, string_bytes};
ghost use Rattle.json_messages.specs.Values.{word};
ghost use Rattle.serde_json.specs.Data.{Data, Members, no_members, object};
ghost use Rattle.serde_json.specs.Data.{put as with};
ghost use Rattle.serde_json.specs.View.{members_view, view};

use serde_json::{Map, Value, put};
use std::alloc::{AllocError, Global};

/// Returns an object with a value put at a name. The only error is that memory ran out, before or
/// here.
fn with_member(
    alloc: Global,
    built: Result<Map<String, Value>, AllocError>,
    name: &str,
    value: Result<Value, AllocError>,
) -> Result<Map<String, Value>, AllocError>
    ensures { (ms : Members) (d : Data) → IfOk built (λ m. members_view m.entries ≡ ms)
        → IfOk value (λ v. view v ≡ d)
        → IfOk result (λ m. members_view m.entries ≡ with name.now d ms) }
{
    let mut map = built?;
    put(&mut map, alloc, name, value?)?;
    Ok(map)
}

/// An object, or that memory ran out on the way.
#[derive(Drop)]
pub struct Object {
    alloc: Global,
    built: Result<Map<String, Value>, AllocError>,
}

impl Object {
    ghost use Rattle.std.specs.Prelude.{ℕ, List, string_bytes};
    ghost use Rattle.json_messages.specs.Objects.{IsObject};
    ghost use Rattle.json_messages.specs.Values.{count, flag, word};

    /// Begins with no member.
    pub fn new(alloc: Global) -> Object
        ensures { IsObject no_members result }
    {
        Object {
            alloc,
            built: Ok(Map::new(alloc)),
        }
    }

    /// Puts a value at a name. If memory ran out for either, there is no object.
    pub fn member(self, name: &str, value: Result<Value, AllocError>) -> Object
        ensures { (ms : Members) (d : Data) → IsObject ms self → IfOk value (λ v. view v ≡ d)
            → IsObject (with name.now d ms) result }
    {
        let alloc = self.alloc;
        Object {
            alloc,
            built: with_member(alloc, self.built, name, value),
        }
    }

    /// Puts a text at a name. If memory runs out, there is no object.
    pub fn word(self, name: &str, text: &str) -> Object
        ensures { (ms : Members) → IsObject ms self
            → IsObject (with name.now (word text.now) ms) result }
    {
        let value = Value::try_from_str(self.alloc, text);
        self.member(name, value)
    }

    /// Puts a text that was made for this at a name. If memory ran out for either, there is no
    /// object.
    pub fn text(self, name: &str, text: Result<String, AllocError>) -> Object
        ensures { (ms : Members) (bytes : List ℕ) → IsObject ms self
            → IfOk text (λ s. string_bytes s ≡ bytes)
            → IsObject (with name.now (word bytes) ms) result }
    {
        match text {
            Ok(text) => self.member(name, Ok(Value::String(text))),
            Err(error) => self.member(name, Err(error)),
        }
    }

    /// Puts a number at a name. If memory runs out, there is no object.
    pub fn count(self, name: &str, number: u64) -> Object
        ensures { (ms : Members) → IsObject ms self
            → IsObject (with name.now (count number) ms) result }
    {
        self.member(name, Ok(Value::from(number)))
    }

    /// Puts a flag at a name. If memory runs out, there is no object.
    pub fn flag(self, name: &str, is_set: bool) -> Object
        ensures { (ms : Members) → IsObject ms self
            → IsObject (with name.now (flag is_set) ms) result }
    {
        self.member(name, Ok(Value::Bool(is_set)))
    }

    /// Returns the object. The only error is that memory ran out.
    pub fn build(self) -> Result<Value, AllocError>
        ensures { (ms : Members) → IsObject ms self → IfOk result (λ v. view v ≡ object ms) }
    {
        Ok(Value::Object(self.built?))
    }
}
