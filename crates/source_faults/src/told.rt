//! What two judgements tell.

ghost use Rattle.std.specs.Prelude.{◌≡◌, ◌++◌, ◌≤◌, [], length, IfOk, OnOk};
ghost use Rattle.model.specs.AllFaults.{in_both, told, told_by, value_told};
ghost use Rattle.source_faults.specs.Views.{rule_of, judged_views, judged_view};

use crate::judging::{Judged, but_of_place};
use model::{AsmFault, AsmFaultKind};
use std::alloc::{AllocError, Global};

/// Which faults are told.
#[derive(Clone, Copy)]
pub enum Part {
    Layout,
    Values,
}

/// The kind that a line has in both judgements.
#[tactic(auto, unfolding(model::specs::AllFaults::in_both))]
fn in_both(first: Option<AsmFaultKind>, second: Option<AsmFaultKind>) -> Option<AsmFaultKind>
    ensures { result ≡ in_both first second }
{
    match first {
        None => None,
        Some(one) => match second {
            None => None,
            Some(other) => {
                if one.number() == other.number() {
                    Some(one)
                } else {
                    None
                }
            }
        },
    }
}

impl Part {
    /// What is told of a line.
    fn told(self, first: &Judged, second: &Judged) -> Option<AsmFaultKind>
        ensures { result ≡ rule_of self (judged_view first.now) (judged_view second.now) }
    {
        match self {
            Part::Layout => in_both(first.layout, second.layout),
            Part::Values => {
                let kind = in_both(first.value, second.value);
                if first.address == second.address {
                    kind
                } else {
                    but_of_place(kind)
                }
            }
        }
    }

    /// What is told of all lines, after what is told already.
    fn tell(
        self,
        faults: &mut Vec<AsmFault>,
        first: &[Judged],
        second: &[Judged],
    ) -> Result<(), AllocError>
        requires { length first.now ≤ 1048576 }
        ensures { OnOk result (faults.new.items ≡ faults.old.items
            ++ told_by (rule_of self) 1 (judged_views first.now) (judged_views second.now)) }
    {
        let mut number = 0u32;
        for one in first {
            let at = number as usize;
            if at >= second.len() {
                return Ok(());
            }
            number += 1;
            if let Some(kind) = self.told(one, &second[at]) {
                faults.push(AsmFault { line: number, kind })?;
            }
        }
        Ok(())
    }
}

/// Returns what two judgements of the same lines tell: the faults of the layout, and then those of
/// values.
pub fn told(alloc: Global, first: &[Judged], second: &[Judged]) -> Result<Vec<AsmFault>, AllocError>
    requires { length first.now ≤ 1048576 }
    ensures { IfOk result
        (λ faults. faults.items ≡ told (judged_views first.now) (judged_views second.now)) }
{
    let mut faults = Vec::new(alloc);
    Part::Layout.tell(&mut faults, first, second)?;
    Part::Values.tell(&mut faults, first, second)?;
    Ok(faults)
}
