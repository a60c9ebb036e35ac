//! The laws. Each is the contract of a function that does nothing.

ghost use Rattle.mon_runs.specs.Looked.{LookedRunsAreSteps};
ghost use Rattle.mon_runs.specs.Recall.{RedoIsExact};

/// States that a run of steps that are looked at leads where as many steps lead, whatever its goal
/// and its stops are.
pub fn looked_runs_are_steps()
    ensures { LookedRunsAreSteps }
{}

/// States that undone events, made again, lead to the states that were there.
pub fn redo_is_exact()
    ensures { RedoIsExact }
{}
