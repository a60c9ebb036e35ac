//! Answers and notices.

ghost use Rattle.std.specs.Prelude.{◌≡◌, IfOk};
ghost use Rattle.lsp_messages.specs.Replies.{failure_data, notice_data, number_of, result_data};
ghost use Rattle.serde_json.specs.View.{view};

use json_messages::Object;
use serde_json::Value;
use std::alloc::{AllocError, Global};

/// Why a request is refused.
#[derive(Clone, Copy)]
pub enum Failure {
    /// The body of a message is no JSON.
    NotJson,
    /// A message is no request.
    NoRequest,
    /// A method that is not served.
    UnknownMethod,
    /// A method without what it needs.
    WrongParameters,
    /// A request before `initialize`.
    NotInitialized,
    /// A request that cannot be done, as a name that is taken.
    Refused,
}

impl Failure {
    /// Returns its number. Source: JSON-RPC 2.0, "Error object"; Language Server Protocol 3.17,
    /// "ErrorCodes".
    fn number(self) -> i64
        ensures { result ≡ number_of self }
    {
        match self {
            Failure::NotJson => -32700,
            Failure::NoRequest => -32600,
            Failure::UnknownMethod => -32601,
            Failure::WrongParameters => -32602,
            Failure::NotInitialized => -32002,
            Failure::Refused => -32803,
        }
    }
}

/// Returns the answer to a request: its number, and a result.
pub fn result_reply(alloc: Global, id: &Value, given: Value) -> Result<Value, AllocError>
    ensures { IfOk result (λ v. view v ≡ result_data (view id.now) (view given)) }
{
    Object::new(alloc)
        .member("id", id.clone())
        .word("jsonrpc", "2.0")
        .member("result", Ok(given))
        .build()
}

/// Returns the answer to a request that fails: its number, why, and words.
pub fn failure_reply(
    alloc: Global,
    id: &Value,
    failure: Failure,
    words: &str,
) -> Result<Value, AllocError>
    ensures { IfOk result (λ v. view v ≡ failure_data (view id.now) failure words.now) }
{
    let error = Object::new(alloc)
        .member("code", Ok(Value::from(failure.number())))
        .word("message", words)
        .build();
    Object::new(alloc)
        .member("error", error)
        .member("id", id.clone())
        .word("jsonrpc", "2.0")
        .build()
}

/// Returns a notice of the server.
pub fn notice(alloc: Global, method: &str, params: Value) -> Result<Value, AllocError>
    ensures { IfOk result (λ v. view v ≡ notice_data method.now (view params)) }
{
    Object::new(alloc)
        .word("jsonrpc", "2.0")
        .word("method", method)
        .member("params", Ok(params))
        .build()
}
