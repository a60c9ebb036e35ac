//! What the word `trace` does.

ghost use Rattle.std.specs.Prelude.{◌≡◌, ◌≤◌, ◌⊎◌, ⊤, [], ◌∷◌, ◌++◌, ℕ, List, None, IfErr, IfOk};
ghost use Rattle.std.specs.Prelude.{OnErr, OnOk, Some, false, option_map};
ghost use Rattle.accesses.specs.Writing.{or_everywhere};
ghost use Rattle.arguments.specs.Statuses.{status_of};
ghost use Rattle.arguments.specs.Words.{Fits, Refuses, texts};
ghost use Rattle.console.specs.Playing.{begun, played};
ghost use Rattle.console.specs.Taking.{Waits};
ghost use Rattle.console.specs.Written.{AreBytesOf, RanAs};
ghost use Rattle.loading.specs.Place.{names_of};
ghost use Rattle.model.specs.State.{input_waits, is_map};
ghost use Rattle.model.specs.Writers.{AppendsFront, Writes};
ghost use Rattle.word_run.specs.Places.{place_asked};
ghost use Rattle.word_run.specs.Runs.{heard_of, streams_of};
ghost use Rattle.trace_rows.specs.declared.sites.Sites.{Sites};
ghost use Rattle.arguments_play.specs.Trace.{TraceAsked, trace, trace_view, words_in};
ghost use Rattle.word_trace.specs.Beginnings.{AreSites, HasPlaces, first_written};
ghost use Rattle.word_trace.specs.Gathered.{Gathers, gathered, none_gathered};
ghost use Rattle.word_trace.specs.Texts.{GotFront, GotText, Noted, by_steps, no_text, note_step};
ghost use Rattle.word_trace.specs.Texts.{noted_in, pass_step};
ghost use Rattle.word_trace.specs.Traces.{CutIn, EndsAt, GathersFront, IsApart, IsDone, IsOfStreams};
ghost use Rattle.word_trace.specs.Traces.{TracedIfFound, TracedTo, WasCut, WentOn, WroteFront};
ghost use Rattle.word_trace.specs.Traces.{TracedDebugged, WroteNotes};
ghost use Rattle.word_trace.specs.Traces.{begin_view, cut_line, gathered_at, has_begun, is_begun};
ghost use Rattle.word_trace.specs.Traces.{play_of, reached, trace_noted, traced, unbegun_text};

use crate::lines::{check_lines, write_lines};
use crate::tracer::Tracer;
use crate::turns::{noted_turn, passed_turn};
use crate::wording::NOT_BEGUN;
use accesses::Written;
use arguments::{Refusal, put_two, refuse, refuse_file, refused_words};
use arguments_play::{TraceWords, read_trace_words};
use console::{Ending, Played, Player, begin, ending_after, is_at};
use debug_files::tell_changed;
use debugger::Session;
use loading::{Loaded, load_machine, tell_left_out};
use source_map::Places;
use std::alloc::Global;
use std::io::{Read, Write};
use std::rt::Files;
use trace_rows::Sites;
use word_run::{Known, load_debug, place_named, status_of_ending, tell_ending};

/// Where a trace begins and ends, if such places are named, and the most steps that it has.
#[derive(Clone, Copy)]
struct Span {
    from: Option<u16>,
    to: Option<u16>,
    limit: u64,
}

/// Returns whether the trace begins here: no place is named, or the program is at it.
fn is_begun(from: Option<u16>, session: &Session) -> bool
    ensures { result ≡ is_begun from session.now.current }
{
    match from {
        None => true,
        Some(_) => is_at(from, session),
    }
}

/// Runs a program until a step leads to a place.
fn run_to_place<R: Read, E: Write>(
    tracer: &mut Tracer<'_>,
    session: &mut Session,
    player: &mut Player,
    place: Option<u16>,
    input: &mut R,
    errors: &mut E,
) -> Result<Played, Refusal>
    requires waits { Waits session.old.current player.old.waiting }
    requires over { EndsAt player.old.is_over (R.remaining input.old) }
    ensures ok { IfOk result (λ end. WentOn (played place 18446744073709551615)
        (λ p. by_steps pass_step place 18446744073709551615 p (gathered tracer.old))
        session.old player.old (R.remaining input.old) (R.remaining input.new)
        end session.new player.new (gathered tracer.new)) }
    ensures err { OnErr result (WasCut (played place 18446744073709551615) (λ p. p) (λ _. ⊤)
        session.old player.old (R.remaining input.old) (R.remaining input.new) session.new
        player.new.is_over) }
    ensures fault { IfErr result IsOfStreams }
    ensures sheet { tracer.new.sheet ≡ tracer.old.sheet }
    ensures waits { OnOk result (Waits session.new.current player.new.waiting) }
    ensures over { EndsAt player.new.is_over (R.remaining input.new) }
    ensures output { (text : List ℕ)
        × (session.new.current.bus.out ≡ session.old.current.bus.out ++ text)
        × Writes (E.contents errors.old) (E.contents errors.new) text result }
{
    for steps in 0..u64::MAX {
        match passed_turn(tracer, session, player, input, errors) {
            Ok(None) => {}
            Ok(Some(ending)) => return Ok(Played { steps, ending }),
            Err(fault) => return Err(fault),
        }
        if is_at(place, session) {
            return Ok(Played {
                steps: steps + 1,
                ending: Ending::Until,
            });
        }
    }
    Ok(Played {
        steps: u64::MAX,
        ending: ending_after(session, player),
    })
}

/// Runs a program up to the place where the trace begins, if one is named and the program is not
/// there. The run ends with `Until` if the place is reached.
fn run_to_start<R: Read, E: Write>(
    tracer: &mut Tracer<'_>,
    session: &mut Session,
    player: &mut Player,
    from: Option<u16>,
    input: &mut R,
    errors: &mut E,
) -> Result<Played, Refusal>
    requires waits { Waits session.old.current player.old.waiting }
    requires over { EndsAt player.old.is_over (R.remaining input.old) }
    ensures ok { IfOk result (λ end. WentOn (reached from) (gathered_at from (gathered tracer.old))
        session.old player.old (R.remaining input.old) (R.remaining input.new)
        end session.new player.new (gathered tracer.new)) }
    ensures err { OnErr result (WasCut (reached from) (λ p. p) (λ _. ⊤)
        session.old player.old (R.remaining input.old) (R.remaining input.new) session.new
        player.new.is_over) }
    ensures fault { IfErr result IsOfStreams }
    ensures sheet { tracer.new.sheet ≡ tracer.old.sheet }
    ensures waits { OnOk result (Waits session.new.current player.new.waiting) }
    ensures over { EndsAt player.new.is_over (R.remaining input.new) }
    ensures output { (text : List ℕ)
        × (session.new.current.bus.out ≡ session.old.current.bus.out ++ text)
        × Writes (E.contents errors.old) (E.contents errors.new) text result }
{
    if is_begun(from, session) {
        return Ok(Played {
            steps: 0,
            ending: Ending::Until,
        });
    }
    run_to_place(tracer, session, player, from, input, errors)
}

/// Makes the steps of the trace, and notes each. Returns how many were made, and why it ended.
fn run_noting<R: Read, O: Write, E: Write>(
    tracer: &mut Tracer<'_>,
    session: &mut Session,
    player: &mut Player,
    to: Option<u16>,
    limit: u64,
    input: &mut R,
    output: &mut O,
    errors: &mut E,
) -> Result<Played, Refusal>
    requires waits { Waits session.old.current player.old.waiting }
    requires over { EndsAt player.old.is_over (R.remaining input.old) }
    // What the steps have noted: all that was gathered, and a text.
    ensures ok { IfOk result (λ end. (text : List ℕ) × WentOn (played to limit)
        (λ p. by_steps note_step to limit p (no_text (gathered tracer.old)))
        session.old player.old (R.remaining input.old) (R.remaining input.new)
        end session.new player.new (noted_in tracer.new text)
        × Gathers (O.contents output.old) (O.contents output.new)
        tracer.old.sheet.text.items tracer.new.sheet.text.items text) }
    // At an error a front of a text was gathered that the trace's begins with.
    ensures err { OnErr result ((text : List ℕ) × WasCut (played to limit)
        (λ p. by_steps note_step to limit p (no_text (gathered tracer.old)))
        (λ n. (more : List ℕ) × (n.text ≡ text ++ more))
        session.old player.old (R.remaining input.old) (R.remaining input.new) session.new
        player.new.is_over
        × GathersFront (O.contents output.old) (O.contents output.new)
        tracer.old.sheet.text.items tracer.new.sheet.text.items text) }
    ensures fault { IfErr result IsOfStreams }
    ensures over { EndsAt player.new.is_over (R.remaining input.new) }
    ensures output { (text : List ℕ)
        × (session.new.current.bus.out ≡ session.old.current.bus.out ++ text)
        × Writes (E.contents errors.old) (E.contents errors.new) text result }
{
    for steps in 0..limit {
        match noted_turn(tracer, session, player, input, output, errors) {
            Ok(None) => {}
            Ok(Some(ending)) => return Ok(Played { steps, ending }),
            Err(fault) => return Err(fault),
        }
        if is_at(to, session) {
            return Ok(Played {
                steps: steps + 1,
                ending: Ending::Until,
            });
        }
    }
    Ok(Played {
        steps: limit,
        ending: ending_after(session, player),
    })
}

/// Returns some addresses once more.
///
/// Errors: `OutOfMemory` if an allocation fails.
fn copied(alloc: Global, written: &Written) -> Result<Written, Refusal>
    ensures copied { IfOk result (λ copy. copy ≡ written.now) }
    ensures fault { IfErr result (λ refusal. refusal ≡ Refusal.OutOfMemory) }
{
    written.copied(alloc).map_err(|_| Refusal::OutOfMemory)
}

/// Returns the addresses at which the file has a byte, if reads of others are asked for.
///
/// Errors: `OutOfMemory` if an allocation fails.
fn first_written(
    alloc: Global,
    words: &TraceWords<'_>,
    written: &Written,
) -> Result<Option<Written>, Refusal>
    ensures first { IfOk result
        (λ first. first ≡ first_written words.now.finds_unwritten written.now) }
    ensures fault { IfErr result (λ refusal. refusal ≡ Refusal.OutOfMemory) }
{
    if !words.finds_unwritten {
        return Ok(None);
    }
    Ok(Some(copied(alloc, written)?))
}

/// Returns the labels and the lines of the source of what was loaded, if it has one.
///
/// Errors: `OutOfMemory` if an allocation fails.
fn source_sites(alloc: Global, loaded: &Loaded) -> Result<Sites, Refusal>
    ensures sites { IfOk result (AreSites loaded.now.assembly None) }
    ensures fault { IfErr result (λ refusal. refusal ≡ Refusal.OutOfMemory) }
{
    match &loaded.assembly {
        None => Ok(Sites::new(alloc)),
        Some(assembly) => Sites::of_source(alloc, assembly).map_err(|_| Refusal::OutOfMemory),
    }
}

/// Returns the labels of what was loaded, and the lines of debug information.
///
/// Errors: `OutOfMemory` if an allocation fails.
#[tactic(auto, using(crate::proofs::Sites::has_places))]
fn debug_sites(alloc: Global, loaded: &Loaded, debug: &Places) -> Result<Sites, Refusal>
    ensures sites { IfOk result (HasPlaces loaded.now.assembly debug.now) }
    ensures fault { IfErr result (λ refusal. refusal ≡ Refusal.OutOfMemory) }
{
    let names = loaded.assembly.as_ref();
    match Sites::of_places(alloc, names, debug) {
        Ok(sites) => Ok(sites),
        Err(_) => Err(Refusal::OutOfMemory),
    }
}

/// Returns the labels of what was loaded, and its lines: those of debug information, if there is
/// some, and otherwise those of its source.
///
/// Errors: `OutOfMemory` if an allocation fails.
fn sites_of(alloc: Global, loaded: &Loaded, debug: Option<&Places>) -> Result<Sites, Refusal>
    ensures sites { IfOk result
        (AreSites loaded.now.assembly (option_map (λ p. p.now) debug.entry)) }
    ensures fault { IfErr result (λ refusal. refusal ≡ Refusal.OutOfMemory) }
{
    match debug {
        Some(debug) => debug_sites(alloc, loaded, debug),
        None => source_sites(alloc, loaded),
    }
}

/// Makes the tracer of the words.
///
/// Errors: `OutOfMemory` if an allocation fails.
fn make_tracer<'a>(
    alloc: Global,
    words: &'a TraceWords<'a>,
    loaded: &Loaded,
    debug: Option<&Places>,
) -> Result<Tracer<'a>, Refusal>
    ensures nothing { IfOk result (λ t. (sites : Sites)
        × AreSites loaded.now.assembly (option_map (λ p. p.now) debug.entry) sites
        × (gathered t ≡ none_gathered (trace_view words.now) sites
        (first_written words.now.finds_unwritten loaded.now.written))) }
    ensures sheet { IfOk result (λ t. t.sheet.text.items ≡ []) }
    ensures fault { IfErr result (λ refusal. refusal ≡ Refusal.OutOfMemory) }
{
    let sites = sites_of(alloc, loaded, debug)?;
    let written = first_written(alloc, words, &loaded.written)?;
    Ok(Tracer::new(alloc, words, sites, written)?)
}

/// Makes the steps of the trace from where it begins, and writes what was gathered.
fn trace_on<R: Read, O: Write, E: Write>(
    alloc: Global,
    tracer: &mut Tracer<'_>,
    session: &mut Session,
    player: &mut Player,
    span: Span,
    input: &mut R,
    output: &mut O,
    errors: &mut E,
) -> Result<Played, Refusal>
    requires waits { Waits session.old.current player.old.waiting }
    requires over { EndsAt player.old.is_over (R.remaining input.old) }
    requires sheet { tracer.old.sheet.text.items ≡ [] }
    ensures ok { IfOk result (λ end. (noted : Noted) × WentOn (played span.to span.limit)
        (λ p. by_steps note_step span.to span.limit p (no_text (gathered tracer.old)))
        session.old player.old (R.remaining input.old) (R.remaining input.new)
        end session.new player.new noted
        × GotText (Some noted) (O.contents output.old) (O.contents output.new)) }
    ensures err { OnErr result (WasCut (played span.to span.limit)
        (λ p. by_steps note_step span.to span.limit p (no_text (gathered tracer.old)))
        (λ n. GotFront (Some n) (O.contents output.old) (O.contents output.new))
        session.old player.old (R.remaining input.old) (R.remaining input.new) session.new
        player.new.is_over) }
    ensures fault { IfErr result IsOfStreams }
    ensures over { EndsAt player.new.is_over (R.remaining input.new) }
    ensures output { (text : List ℕ)
        × (session.new.current.bus.out ≡ session.old.current.bus.out ++ text)
        × Writes (E.contents errors.old) (E.contents errors.new) text result }
{
    let run = run_noting(
        tracer, session, player, span.to, span.limit, input, output, errors,
    );
    match run {
        Ok(played) => match tracer.finish(alloc, output) {
            Ok(()) => Ok(played),
            Err(fault) => Err(fault),
        },
        Err(fault) => {
            tracer.write_cut(output);
            Err(fault)
        }
    }
}

/// How a trace ended, and whether its run came to the place where it begins.
#[derive(Clone, Copy)]
struct Traced {
    played: Played,
    has_begun: bool,
}

/// Runs a session, and traces it from one place to another.
fn trace_between<R: Read, O: Write, E: Write>(
    alloc: Global,
    tracer: &mut Tracer<'_>,
    session: &mut Session,
    written: Written,
    span: Span,
    input: &mut R,
    output: &mut O,
    errors: &mut E,
) -> Result<Traced, Refusal>
    requires waits { input_waits session.old.current.bus ≡ false }
    requires sheet { tracer.old.sheet.text.items ≡ [] }
    // The trace is the definition's over some input, which is the reader's if its bytes are known;
    // what it did not ask for is left. The writer got what the definition notes.
    ensures ok { IfOk result (λ end. (told : List ℕ) × (left : List ℕ)
        × AreBytesOf (R.remaining input.old) told × AreBytesOf (R.remaining input.new) left
        × RanAs (traced span.from span.to span.limit (begun session.old written told)) end.played
        session.new left × GotText (trace_noted span.from span.to span.limit (gathered tracer.old)
        (begun session.old written told)) (O.contents output.old) (O.contents output.new)
        × (end.has_begun ≡ has_begun (reached span.from (begun session.old written told)).ending)) }
    // At an error a beginning of such a trace was made, and a beginning of its text was written.
    ensures err { OnErr result ((told : List ℕ) × AreBytesOf (R.remaining input.old) told
        × CutIn (traced span.from span.to span.limit (begun session.old written told)) session.new
        × GotFront (trace_noted span.from span.to span.limit (gathered tracer.old)
        (begun session.old written told)) (O.contents output.old) (O.contents output.new)) }
    ensures fault { IfErr result IsOfStreams }
    ensures output { (text : List ℕ)
        × (session.new.current.bus.out ≡ session.old.current.bus.out ++ text)
        × Writes (E.contents errors.old) (E.contents errors.new) text result }
{
    let mut player = begin(session, written);
    let reached = match run_to_start(tracer, session, &mut player, span.from, input, errors) {
        Ok(reached) => reached,
        Err(fault) => return Err(fault),
    };
    match reached.ending {
        Ending::Until => {
            match trace_on(
                alloc,
                tracer,
                session,
                &mut player,
                span,
                input,
                output,
                errors,
            ) {
                Ok(played) => Ok(Traced {
                    played,
                    has_begun: true,
                }),
                Err(fault) => Err(fault),
            }
        }
        ending => Ok(Traced {
            played: Played { steps: 0, ending },
            has_begun: false,
        }),
    }
}

/// Traces what was loaded, and writes how often each line was run, if that is asked for.
fn trace_span<H: Files + AllocGlobal, R: Read, O: Write, E: Write>(
    rt: &H,
    words: &TraceWords<'_>,
    loaded: &mut Loaded,
    debug: Option<&Places>,
    span: Span,
    input: &mut R,
    output: &mut O,
    errors: &mut E,
) -> Result<Traced, Refusal>
    requires { input_waits loaded.old.session.current.bus ≡ false }
    ensures ok { IfOk result (λ end. (told : List ℕ) × (left : List ℕ)
        × AreBytesOf (R.remaining input.old) told × AreBytesOf (R.remaining input.new) left
        × RanAs (traced span.from span.to span.limit
        (play_of (trace_view words.now) (begin_view loaded.old debug.entry) told)) end.played
        loaded.new.session left
        × WroteNotes (trace_view words.now) (begin_view loaded.old debug.entry)
        (λ g. trace_noted span.from span.to span.limit g
        (play_of (trace_view words.now) (begin_view loaded.old debug.entry) told))
        (O.contents output.old) (O.contents output.new)
        × (end.has_begun ≡ has_begun (reached span.from
        (play_of (trace_view words.now) (begin_view loaded.old debug.entry) told)).ending)) }
    ensures err { OnErr result ((told : List ℕ) × AreBytesOf (R.remaining input.old) told
        × CutIn (traced span.from span.to span.limit
        (play_of (trace_view words.now) (begin_view loaded.old debug.entry) told))
        loaded.new.session
        × WroteFront (trace_view words.now) (begin_view loaded.old debug.entry)
        (λ g. trace_noted span.from span.to span.limit g
        (play_of (trace_view words.now) (begin_view loaded.old debug.entry) told))
        (O.contents output.old) (O.contents output.new)) }
    ensures apart { IfOk result
        (λ _. IsApart (trace_view words.now) (option_map (λ p. p.now) debug.entry)) }
    ensures fault { IfErr result IsOfStreams }
    ensures assembly { loaded.new.assembly ≡ loaded.old.assembly }
    ensures output { (text : List ℕ) × (loaded.new.session.current.bus.out
        ≡ loaded.old.session.current.bus.out ++ text)
        × Writes (E.contents errors.old) (E.contents errors.new) text result }
{
    let alloc = rt.alloc();
    check_lines(rt, words, debug)?;
    let mut tracer = make_tracer(alloc, words, loaded, debug)?;
    let written = copied(alloc, &loaded.written)?.or_everywhere(words.is_free);
    let session = &mut loaded.session;
    let traced = trace_between(
        alloc,
        &mut tracer,
        session,
        written,
        span,
        input,
        output,
        errors,
    )?;
    write_lines(rt, words, loaded.assembly.as_ref(), debug, tracer.tally())?;
    Ok(traced)
}

/// Writes that the program ended before its trace began, if it did.
fn tell_unbegun<E: Write>(has_begun: bool, errors: &mut E)
    ensures { AppendsFront (E.contents errors.old) (E.contents errors.new)
        (unbegun_text has_begun) }
{
    if !has_begun {
        put_two(NOT_BEGUN.as_bytes(), b"\n", errors);
    }
}

/// Writes why a trace was cut short, and returns the exit status. The file for lcov is named.
fn tell_cut<E: Write>(refusal: Refusal, lcov: Option<&str>, errors: &mut E) -> u8
    ensures status { result ≡ status_of refusal }
    ensures told { AppendsFront (E.contents errors.old) (E.contents errors.new)
        (cut_line (option_map (λ s. s.now) lcov.entry) refusal) }
{
    match lcov {
        Some(file) => match refusal {
            Refusal::WriteFile(_) => refuse_file(refusal, file, errors),
            Refusal::Words
            | Refusal::Map(_)
            | Refusal::Source(_)
            | Refusal::Tape(_)
            | Refusal::Session(_)
            | Refusal::OutOfMemory
            | Refusal::Read(_)
            | Refusal::Write => refuse(refusal, errors),
        },
        None => refuse(refusal, errors),
    }
}

/// Traces what was loaded, tells how that ended, and returns the exit status.
fn trace_told<H: Files + AllocGlobal, R: Read, O: Write, E: Write>(
    rt: &H,
    words: &TraceWords<'_>,
    loaded: &mut Loaded,
    debug: Option<&Places>,
    span: Span,
    input: &mut R,
    output: &mut O,
    errors: &mut E,
) -> u8
    requires idle { input_waits loaded.old.session.current.bus ≡ false }
    requires silent { loaded.old.session.current.bus.out ≡ [] }
    requires limit { span.limit ≡ words.now.steps }
    ensures { TracedTo (trace_view words.now) (begin_view loaded.old debug.entry) span.from span.to
        (streams_of (R.remaining input.old) (R.remaining input.new) (O.contents output.old)
        (O.contents output.new)) (heard_of (E.contents errors.old) (E.contents errors.new))
        result }
{
    match trace_span(rt, words, loaded, debug, span, input, output, errors) {
        Ok(traced) => {
            tell_unbegun(traced.has_begun, errors);
            let alloc = rt.alloc();
            let pc = loaded.session.regs().pc;
            let assembly = loaded.assembly.as_ref();
            let known = Known {
                file: words.file.file,
                assembly,
                debug,
            };
            tell_ending(alloc, known, traced.played, pc, errors);
            status_of_ending(traced.played.ending, 0)
        }
        Err(refusal) => tell_cut(refusal, words.lcov, errors),
    }
}

/// Traces what was loaded between the places of the words, and returns the exit status.
fn trace_loaded<H: Files + AllocGlobal, R: Read, O: Write, E: Write>(
    rt: &H,
    words: &TraceWords<'_>,
    loaded: &mut Loaded,
    debug: Option<&Places>,
    input: &mut R,
    output: &mut O,
    errors: &mut E,
) -> u8
    requires idle { input_waits loaded.old.session.current.bus ≡ false }
    requires silent { loaded.old.session.current.bus.out ≡ [] }
    ensures { TracedIfFound (trace_view words.now) (begin_view loaded.old debug.entry)
        (place_asked (names_of loaded.old.assembly) (option_map (λ p. p.now) debug.entry)
        (trace_view words.now).from)
        (place_asked (names_of loaded.old.assembly) (option_map (λ p. p.now) debug.entry)
        (trace_view words.now).to)
        (streams_of (R.remaining input.old) (R.remaining input.new) (O.contents output.old)
        (O.contents output.new)) (heard_of (E.contents errors.old) (E.contents errors.new))
        result ((input.new ≡ input.old) × (output.new ≡ output.old)) }
{
    let from = match place_named(loaded, debug, words.from, errors) {
        Ok(from) => from,
        Err(status) => return status,
    };
    let to = match place_named(loaded, debug, words.to, errors) {
        Ok(to) => to,
        Err(status) => return status,
    };
    let span = Span {
        from,
        to,
        limit: words.steps,
    };
    trace_told(rt, words, loaded, debug, span, input, output, errors)
}

/// Traces what was loaded between the places of the words, with the debug information that they
/// name, and returns the exit status.
fn trace_debugged<H: Files + AllocGlobal, R: Read, O: Write, E: Write>(
    rt: &H,
    words: &TraceWords<'_>,
    loaded: &mut Loaded,
    input: &mut R,
    output: &mut O,
    errors: &mut E,
) -> u8
    requires idle { input_waits loaded.old.session.current.bus ≡ false }
    requires silent { loaded.old.session.current.bus.out ≡ [] }
    ensures { TracedDebugged (trace_view words.now) loaded.old.assembly loaded.old.session
        loaded.old.written
        (streams_of (R.remaining input.old) (R.remaining input.new) (O.contents output.old)
        (O.contents output.new)) (heard_of (E.contents errors.old) (E.contents errors.new))
        result ((input.new ≡ input.old) × (output.new ≡ output.old)) }
{
    match load_debug(rt, words.debug_info, words.source_root, loaded) {
        Ok(debug) => {
            tell_changed(words.debug_info, &debug.sought, errors);
            let places = debug.places.as_ref();
            trace_loaded(rt, words, loaded, places, input, output, errors)
        }
        Err(fault) => fault.tell(words.debug_info.unwrap_or(words.file.file), errors),
    }
}

/// Loads the file of the words, tells what was left out of it and of its names, traces it, and
/// returns the exit status.
fn trace_words<H: Files + AllocGlobal, R: Read, O: Write, E: Write>(
    rt: &H,
    words: &TraceWords<'_>,
    input: &mut R,
    output: &mut O,
    errors: &mut E,
) -> u8
    ensures done { IsDone (trace_view words.now)
        (streams_of (R.remaining input.old) (R.remaining input.new) (O.contents output.old)
        (O.contents output.new)) (heard_of (E.contents errors.old) (E.contents errors.new))
        result ((input.new ≡ input.old) × (output.new ≡ output.old)) }
    ensures bad_map { is_map words.now.file.rom words.now.file.port ≡ false → result ≡ 2 }
{
    match load_machine(rt, &words.file, words.others, words.symbols) {
        Ok(mut loaded) => {
            tell_left_out(loaded.lost, loaded.fill, errors);
            trace_debugged(rt, words, &mut loaded, input, output, errors)
        }
        Err(fault) => fault.tell(words.file.file, words.symbols, errors),
    }
}

/// Does what the words of `trace` ask for, its own name left out, and returns the exit status.
///
/// The statuses are those of `run`, and 10 if `--steps` ended the trace. Rows, or what was counted
/// or found, go to `output`, and the program's own output to `errors`. How often each line was run
/// goes to its file when the trace has ended; the status is 4 where that cannot be written, or is
/// the file to run, the file of names, that of debug information or a source that this names.
pub fn trace_program<H: Files + AllocGlobal, R: Read, O: Write, E: Write>(
    rt: &H,
    words: &[&str],
    input: &mut R,
    output: &mut O,
    errors: &mut E,
) -> u8
    // Words that fit the command line, with right values: their file was loaded and traced by the
    // definition of a trace, and what that notes was written; or it was not and the streams are
    // unchanged, as the status says. Where a stream or memory failed, a beginning of what such a
    // trace notes was written. The error stream gets how many names were left out, the program's
    // output, and why it ended.
    ensures done { (a : TraceAsked) → words_in (texts words.entry.now) ≡ Some a
        → Fits trace (texts words.entry.now) → IsDone a
        (streams_of (R.remaining input.old) (R.remaining input.new) (O.contents output.old)
        (O.contents output.new)) (heard_of (E.contents errors.old) (E.contents errors.new))
        result ((input.new ≡ input.old) × (output.new ≡ output.old)) }
    // Other words read nothing, and write nothing on the output but help.
    ensures refused { Refuses trace (texts words.entry.now)
        (words_in (texts words.entry.now) ≡ None) result (input.new ≡ input.old)
        (output.new ≡ output.old) }
    // A port and a ROM that make no map have the status 2, unless memory runs out.
    ensures bad_map { (a : TraceAsked) → words_in (texts words.entry.now) ≡ Some a
        → Fits trace (texts words.entry.now)
        → is_map a.file.rom a.file.port ≡ false → (result ≡ 2) ⊎ (result ≡ 3) }
{
    match read_trace_words(rt.alloc(), words) {
        Ok(words) => trace_words(rt, &words, input, output, errors),
        Err(fault) => refused_words(fault, output, errors),
    }
}
