//! What a client asks for.

use serde_json::Value;

/// What is asked of a whole document.
#[derive(Clone, Copy)]
pub enum Whole {
    /// `textDocument/documentSymbol`
    Symbols,
    /// `textDocument/semanticTokens/full`
    Colours,
    /// `textDocument/foldingRange`
    Folds,
}

/// What is asked of a position in a document.
#[derive(Clone, Copy)]
pub enum At {
    /// `textDocument/hover`
    Hover,
    /// `textDocument/definition`
    Definition,
    /// `textDocument/references`, and whether definitions are wanted too.
    References { declares: bool },
    /// `textDocument/documentHighlight`
    Highlights,
    /// `textDocument/signatureHelp`
    Signatures,
    /// `textDocument/completion`
    Completion,
}

/// What is asked of some lines of a document.
#[derive(Clone, Copy)]
pub enum Within {
    /// `textDocument/inlayHint`
    Hints,
    /// `textDocument/codeAction`
    Fixes,
    /// `textDocument/semanticTokens/range`
    Colours,
}

/// What is asked of a document.
#[derive(Clone, Copy)]
pub enum Question {
    /// Of the whole document.
    Whole(Whole),
    /// Of a position, as the protocol counts it: a line and a column, both from 0, the column in
    /// units of UTF-16.
    At { what: At, line: u64, character: u64 },
    /// Of the lines between a first and a last one, counted from 0.
    Within { what: Within, from: u64, to: u64 },
}

/// What a client says that it can do.
#[derive(Clone, Copy)]
pub struct Client {
    /// It asks whether a name may get another one before it asks for the other name.
    pub prepares: bool,
    /// It would rather have Markdown than plain text where something is said at a place.
    pub markdown: bool,
}

/// A value that an editor can set.
#[derive(Clone, Copy)]
pub enum Setting<'a> {
    /// It is not set.
    Unset,
    /// It is set to this text.
    Text(&'a str),
    /// It is set to what is no text.
    NoText,
}

/// What an editor sets.
#[derive(Clone, Copy)]
pub struct Settings<'a> {
    /// The first of the port's addresses, or `none`.
    pub port: Setting<'a>,
    /// The letter of the processor.
    pub profile: Setting<'a>,
}

/// What a message asks for.
#[derive(Clone, Copy)]
pub enum Request<'a> {
    /// `initialize`: what the client can do, and what it sets, if it has settings.
    Initialize {
        client: Client,
        settings: Option<Settings<'a>>,
    },
    /// `workspace/didChangeConfiguration`: what is set from now on, if the message has settings.
    Configure {
        settings: Option<Settings<'a>>,
    },
    /// `shutdown`
    Shutdown,
    /// `exit`
    Exit,
    /// `textDocument/didOpen`: the whole text that a document has.
    Open {
        uri: &'a str,
        text: &'a str,
    },
    /// `textDocument/didChange`: the changes of its text, if there is a list of them.
    Change {
        uri: &'a str,
        changes: Option<&'a [Value]>,
    },
    /// `textDocument/didClose`
    Close {
        uri: &'a str,
    },
    /// A question about a document.
    Question {
        uri: &'a str,
        question: Question,
    },
    /// `workspace/symbol`: the names of all documents that have the letters of a query.
    Search {
        query: &'a str,
    },
    /// `textDocument/prepareRename`: whether the name at a position may get another one.
    Prepare {
        uri: &'a str,
        line: u64,
        character: u64,
    },
    /// `textDocument/rename`: another name for the name at a position.
    Rename {
        uri: &'a str,
        line: u64,
        character: u64,
        name: &'a str,
    },
    /// A method that is served, without what it needs.
    Invalid,
    /// A method that is not served.
    Unknown,
    /// A message without a method, as an answer is one.
    NoMethod,
}
