//! A row for a read of memory that nobody ever wrote.

ghost use Rattle.std.specs.Prelude.{◌≡◌, ◌++◌, OnOk};
ghost use Rattle.trace_rows.specs.Findings.{finding_front, finding_row, read_text, verb};

use crate::sites::Sites;
use crate::steps::push_executed;
use crate::words::{SiteColumns, push_front, push_row_end};
use accesses::Moment;
use debugger::Session;
use formatting::{push_address, push_blanks};
use std::alloc::AllocError;

/// What a step reads a byte for.
#[derive(Clone, Copy, Debug, PartialEq, Eq)]
pub enum Part {
    /// For its instruction.
    Code,
    /// As data: an operand, a pointer, what is pulled from the stack, BRK's vector.
    Data,
    /// For the vector of an interrupt entry that came in the instruction's place.
    Vector,
}

/// A read of an address that neither the source nor the program ever wrote.
#[derive(Clone, Copy)]
pub struct Finding {
    /// The number of the step that reads it, counted from 1 at the beginning of the trace.
    pub step: u64,
    /// The address that is read.
    pub address: u16,
    /// What it is read for.
    pub part: Part,
}

/// The column of what is read, behind 8 digits of the step, an address, bytes and text.
const READ_COLUMN: u8 = 40;
/// The columns of the label and the line.
const SITE: SiteColumns = SiteColumns {
    label: 72,
    line: 86,
};

/// Appends what the row of a finding has before the label.
#[tactic(auto, using(formatting::proofs::Padding::grown), unfolding(crate::specs::Findings::finding_front))]
fn push_finding_front(
    text: &mut Vec<u8>,
    session: &Session,
    moment: &Moment,
    finding: Finding,
) -> Result<(), AllocError>
    ensures { OnOk result (text.new.items ≡ text.old.items
        ++ finding_front session.now.current moment.now finding) }
{
    let from = text.len();
    let is_entry = matches!(finding.part, Part::Vector);
    push_front(text, finding.step, moment)?;
    push_executed(text, from, session, moment, is_entry)?;
    text.extend_from_slice(b"  ")?;
    push_blanks(text, from, READ_COLUMN)?;
    push_read(text, finding)
}

/// Appends what is read.
fn push_read(text: &mut Vec<u8>, finding: Finding) -> Result<(), AllocError>
    ensures { OnOk result (text.new.items ≡ text.old.items ++ read_text finding) }
{
    push_verb(text, finding.part)?;
    push_address(text, finding.address)?;
    text.extend_from_slice(b", never written")
}

/// Appends what is said of a read: code runs, all else is read.
fn push_verb(text: &mut Vec<u8>, part: Part) -> Result<(), AllocError>
    ensures { OnOk result (text.new.items ≡ text.old.items ++ verb part) }
{
    match part {
        Part::Code => text.extend_from_slice(b"runs "),
        Part::Data | Part::Vector => text.extend_from_slice(b"reads "),
    }
}

/// Appends the row of a finding: the number of the step, address, bytes and text of its
/// instruction, what it reads, and the label and the line of the source as far as there are any.
///
/// Errors: `AllocError` if an allocation fails.
#[tactic(auto, using(formatting::proofs::Padding::grown), unfolding(crate::specs::Findings::finding_row))]
pub fn push_finding(
    text: &mut Vec<u8>,
    session: &Session,
    sites: &Sites,
    moment: &Moment,
    finding: Finding,
) -> Result<(), AllocError>
    ensures { OnOk result (text.new.items ≡ text.old.items
        ++ finding_row session.now.current sites.now moment.now finding) }
{
    let from = text.len();
    push_finding_front(text, session, moment, finding)?;
    push_row_end(text, from, SITE, sites, moment.regs.pc)
}
