//! The form of a file of debug information.

ghost use Rattle.debug_files.specs.Forms.{info_of};
ghost use Rattle.debug_records.specs.Faults.{GivesInfo};
ghost use Rattle.debug_records.specs.Views.{info_view};

use debug_listings::{is_listing, is_report, read_listing, read_report};
use debug_records::{DebugError, DebugFault, DebugFaultKind, DebugInfo, read_debug_info};
use std::alloc::Global;

/// Reads a debug file of ld65, a listing of 64tass or a report of ACME, which its first bytes tell.
///
/// # Errors
///
/// `Fault` with the first fault of its form, or with `NoForm`; `OutOfMemory`.
#[tactic(auto, unfolding(crate::specs::Forms::info_of))]
pub fn read_info<'a>(alloc: Global, text: &'a [u8]) -> Result<DebugInfo<'a>, DebugError>
    ensures { GivesInfo info_view result (info_of text.now) }
{
    if text.starts_with(b"version\t") {
        read_debug_info(alloc, text)
    } else if is_listing(text) {
        read_listing(alloc, text)
    } else if is_report(text) {
        read_report(alloc, text)
    } else {
        Err(DebugError::Fault(DebugFault {
            line: 1,
            column: 1,
            kind: DebugFaultKind::NoForm,
        }))
    }
}
