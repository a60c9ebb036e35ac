//! The laws. Each is the contract of a function that does nothing.

ghost use Rattle.model.specs.Back.{BackIsExact};
ghost use Rattle.model.specs.Calls.{BackIsExactAmongCalls, LinesAreCalls};
ghost use Rattle.model.specs.Looking.{EachRunHasALine, LooksAreHarmless, WhatIsKeptHasLines};
ghost use Rattle.model.specs.Polled.{PolledSessionsStay, PolledTranscriptsStay};
ghost use Rattle.model.specs.Run.{CutRunGoesOn, RunCanBeRepeated};
ghost use Rattle.model.specs.Transcript.{ToldBegins};

/// States that going back over as many events as were accepted restores the states before them.
///
/// It does so exactly if the history has room for them. Otherwise it is rejected, and the number of
/// events held is the history size.
pub fn going_back_is_exact()
    ensures { BackIsExact }
{}

/// States that going back is exact among any other calls.
///
/// Whatever calls came before (events accepted or rejected, runs, breakpoints, watchpoints, views,
/// and going back itself), going back over k events restores the state before the last k accepted
/// events that were not undone, exactly if the history holds it, and leaves breakpoints and
/// watchpoints as they are. Otherwise it is rejected with the number of events held.
pub fn going_back_is_exact_among_calls()
    ensures { BackIsExactAmongCalls }
{}

/// States that what command lines do to a session, some calls do to it.
///
/// So going back is exact after any lines.
pub fn lines_are_calls()
    ensures { LinesAreCalls }
{}

/// States that a run that is cut short and continued ends like an uncut run.
pub fn cut_run_goes_on()
    ensures { CutRunGoesOn }
{}

/// States that the steps of a run are made again if no breakpoint and no watchpoint is set.
pub fn run_can_be_repeated()
    ensures { RunCanBeRepeated }
{}

/// States that views, breakpoints, watchpoints and bad lines change no state.
///
/// Command lines without them, with each run cut to the steps that it made, lead to the same
/// states.
pub fn looks_are_harmless()
    ensures { LooksAreHarmless }
{}

/// States that each run of 1 to 1,000,000 steps has a line that asks for it.
pub fn each_run_has_a_line()
    ensures { EachRunHasALine }
{}

/// States that there are lines for what `looks_are_harmless` keeps of other lines.
///
/// They are the commands that do not only look, and for each run one of as many steps as it made.
pub fn what_is_kept_has_lines()
    ensures { WhatIsKeptHasLines }
{}

/// States that the replies to the complete lines read so far begin the whole transcript.
///
/// They do so whatever is still to be read.
pub fn told_begins_the_transcript()
    ensures { ToldBegins }
{}

/// States that some sessions do not see that the port has a control byte.
///
/// A session that holds only states whose control byte is 0, and whose steps never store an odd
/// byte at base+3, is served as by the machine without a control byte: with the same text and the
/// same states.
pub fn polled_sessions_stay()
    ensures { PolledSessionsStay }
{}

/// States that some transcripts do not show that the port has a control byte.
///
/// The transcript of a session from its start on, whose steps never store an odd byte at base+3, is
/// that of the machine without a control byte.
pub fn polled_transcripts_stay()
    ensures { PolledTranscriptsStay }
{}
