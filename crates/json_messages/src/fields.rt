//! The fields of messages.

ghost use Rattle.std.specs.Prelude.{◌≡◌, unwrap_or};
ghost use Rattle.std.specs.Option.{option_map};
ghost use Rattle.serde_json.specs.View.{view};
ghost use Rattle.json_messages.specs.Fields.{flag_at, number_at, text_at};

use serde_json::Value;

/// Returns the text at a path of a message, if there is one.
pub fn text_at<'a>(message: &'a Value, path: &str) -> Option<&'a str>
    ensures { option_map (λ s. s.now) result ≡ text_at path.now (view message.now) }
{
    message.pointer(path).and_then(Value::as_str)
}

/// Returns the text at a path of a message: another if there is none.
pub fn text_or<'a>(message: &'a Value, path: &str, other: &'a str) -> &'a str
    ensures { result.now ≡ unwrap_or (text_at path.now (view message.now)) other.now }
{
    match text_at(message, path) {
        Some(text) => text,
        None => other,
    }
}

/// Returns the number at a path of a message, if there is one that is not negative.
pub fn number_at(message: &Value, path: &str) -> Option<u64>
    ensures { result ≡ number_at path.now (view message.now) }
{
    message.pointer(path).and_then(Value::as_u64)
}

/// Returns the flag at a path of a message: another if there is none.
pub fn flag_or(message: &Value, path: &str, other: bool) -> bool
    ensures { result ≡ unwrap_or (flag_at path.now (view message.now)) other }
{
    match message.pointer(path).and_then(Value::as_bool) {
        Some(flag) => flag,
        None => other,
    }
}
