//! Which tool wrote debug information.

ghost use Rattle.std.specs.Prelude.{◌≡◌};
ghost use Rattle.debug_facts.specs.Rows.{form_of};

use debug_listings::{is_listing, is_report};

/// Which tool wrote debug information.
#[derive(Clone, Copy, Debug, PartialEq, Eq)]
pub enum DebugForm {
    /// A debug file of ld65.
    Linker,
    /// A listing of 64tass.
    Listing,
    /// A report of ACME.
    Report,
}

/// Returns which form of debug information a text has by its first bytes, if it has one.
#[tactic(auto, unfolding(crate::specs::Rows::form_of))]
pub fn form_of(text: &[u8]) -> Option<DebugForm>
    ensures { result ≡ form_of text.now }
{
    if text.starts_with(b"version\t") {
        Some(DebugForm::Linker)
    } else if is_listing(text) {
        Some(DebugForm::Listing)
    } else if is_report(text) {
        Some(DebugForm::Report)
    } else {
        None
    }
}
