//! How far a client has come.

ghost use Rattle.std.specs.Prelude.{◌≡◌};
ghost use Rattle.word_lsp.specs.Messages.{phase_after};
ghost use Rattle.lsp_messages.specs.Views.{request_view};

use lsp_messages::{Client, Request};

/// How far a client has come.
#[derive(Clone, Copy)]
pub enum Phase {
    /// Nothing was asked for yet.
    Fresh,
    /// The server is in use, by a client that can do this.
    Running(Client),
    /// `shutdown` was asked for.
    ShutDown,
}

impl Phase {
    /// Returns how far a client has come after a request.
    pub fn after(self, request: Request<'_>) -> Phase
        ensures { result ≡ phase_after self (request_view request.entry) }
    {
        match self {
            Phase::Fresh => match request {
                Request::Initialize { client, .. } => Phase::Running(client),
                _ => Phase::Fresh,
            },
            Phase::Running(_) if matches!(request, Request::Shutdown) => Phase::ShutDown,
            Phase::Running(client) => Phase::Running(client),
            Phase::ShutDown => Phase::ShutDown,
        }
    }
}
