//! The documents that are open.

ghost use Rattle.std.specs.Prelude.{◌≡◌, IfOk, OnOk};
ghost use Rattle.std.specs.Option.{option_map};
ghost use Rattle.lsp_messages.specs.TextChanges.{text_view};
ghost use Rattle.word_lsp.specs.State.{closed, documents_view, known, source_in, text_in};
ghost use Rattle.word_lsp.specs.State.{written_in};

use clean_source::clean_source;
use std::alloc::{AllocError, Global};

/// A document with its name and its text.
#[derive(Drop)]
pub struct Document {
    pub uri: String,
    /// The text as the client has it.
    pub text: Vec<u8>,
}

/// The documents that are open, each name once.
#[derive(Drop)]
pub struct Documents {
    pub all: Vec<Document>,
}

impl Documents {
    /// Closes a document. One that is not open stays so.
    pub fn close(&mut self, uri: &str)
        ensures { documents_view self.new ≡ closed uri.now (documents_view self.old) }
    {
        self.all.retain(|document| document.uri.as_str() != uri);
    }

    /// Gives a document a text, or closes it if its text is not known.
    ///
    /// Errors: `AllocError` if an allocation fails; the document is closed then.
    pub fn put(&mut self, alloc: Global, uri: &str, text: Option<Vec<u8>>) -> Result<(), AllocError>
        ensures { OnOk result (documents_view self.new
            ≡ known uri.now (text_view text) (documents_view self.old)) }
    {
        self.close(uri);
        match text {
            Some(text) => {
                let uri = String::from_str(alloc, uri)?;
                self.all.push(Document { uri, text })?;
                Ok(())
            }
            None => Ok(()),
        }
    }

    /// Returns the text of a document, if it is open.
    pub fn text_of(&self, uri: &str) -> Option<&[u8]>
        ensures { option_map (λ t. t.now) result ≡ text_in (documents_view self.now) uri.now }
    {
        for document in &self.all {
            if document.uri.as_str() == uri {
                return Some(&document.text);
            }
        }
        None
    }

    /// Returns the text of a document as its client has it; an empty one where it is not open.
    pub fn written(&self, uri: &str) -> &[u8]
        ensures { result.now ≡ written_in (documents_view self.now) uri.now }
    {
        match self.text_of(uri) {
            Some(text) => text,
            None => &[],
        }
    }

    /// Returns the source that is read in the place of the text of a document; an empty one where
    /// it is not open. The only error is that a request for memory was refused.
    pub fn source_of(&self, alloc: Global, uri: &str) -> Result<Vec<u8>, AllocError>
        ensures { IfOk result
            (λ source. source.items ≡ source_in (documents_view self.now) uri.now) }
    {
        match self.text_of(uri) {
            Some(text) => clean_source(alloc, text),
            None => Ok(Vec::new(alloc)),
        }
    }
}
