//! What is done with a request of a session.

ghost use Rattle.std.specs.Prelude.{◌≡◌, IfErr, IfOk, Ok, OnOk, map as each, true};
ghost use Rattle.dap_messages.specs.SeenAnswers.{answer_view};
ghost use Rattle.dap_messages.specs.Messages.{said_of};
ghost use Rattle.dap_messages.specs.declared.answer.Answer.{Answer};
ghost use Rattle.dap_session.specs.Answered.{AreAnswers, AreOpenAnswers, AreScopes, Begins};
ghost use Rattle.dap_session.specs.Answered.{BeginsFirst};
ghost use Rattle.dap_session.specs.Answered.{HasChangedBy, IsShown, KeepsMade};
ghost use Rattle.dap_session.specs.Answered.{ListsAddresses, ListsBytes, ListsFunctions};
ghost use Rattle.dap_session.specs.Answered.{Moves};
ghost use Rattle.dap_session.specs.Answered.{SetsAgain, SetsAllAgain, SetsFileAgain, SetsFilesAgain};
ghost use Rattle.dap_session.specs.Answered.{SetsListed, begun_fault};
ghost use Rattle.dap_session.specs.Answered.{begun_reason, begun_stand, begun_words, go_answer};
ghost use Rattle.dap_session.specs.Answered.{goes_on};
ghost use Rattle.dap_session.specs.Answered.{Restarts, Shows, is_first_frame, lets_run};
ghost use Rattle.dap_session.specs.Console.{ShowsIfRefused};
ghost use Rattle.dap_session.specs.Passes.{Makes};
ghost use Rattle.dap_session.specs.Refusals.{IfRefused, MayRefuse, MayRefuseAt, MayRefuseChange};
ghost use Rattle.dap_session.specs.Refusals.{cannot_show, is_known};
ghost use Rattle.dap_session.specs.Stands.{KeepsProgram};
ghost use Rattle.dap_desk.specs.Moves.{KeepsWatches, stand_of};

use crate::changing::{go_to, write_memory};
use crate::client::{Client, begin_session, source_of};
use crate::completion::completions;
use crate::console::{evaluate, set_variable, with_terminated};
use crate::fault::{Fault, or_memory, refused};
use crate::files::path_at;
use crate::launching::steps_of;
use crate::passing::{Further, further_of, go, go_on};
use crate::stands::{all_done, with_halt_at};
use crate::telling::answered;
use crate::wording::NOT_BEGUN;
use dap_desk::make_move;
use dap_messages::{
    AddressList, Answer, Breakpoints, Change, Counting, DataBreakpoint, FileLines, FunctionList,
    Halt, Listed, Message, Move, Query, Reason, SessionRequest, exception, number_addresses,
    number_functions, number_lines, stand_by,
};
use dap_views::{
    FilePath, breakpoint_locations, data_shown, disassembled, frames_shown, goto_targets, is_frame,
    local_scope, memory_shown, set_addresses, set_data, set_functions, set_source, sources_shown,
    variables_shown,
};
use mon_session::MonState;
use std::alloc::{AllocError, Global};
use std::mem;
use std::rt::Files;

/// Makes a move, and tells why the machine stands then.
fn go_first(alloc: Global, client: &mut Client, way: Move) -> Result<Vec<Message>, AllocError>
    ensures { IfOk result
        (λ ms. Makes way go_answer client.old client.new (each said_of ms.items)) }
{
    go(alloc, client, way, answered(alloc, Ok(Answer::Continued)))
}

/// Makes a move, which goes on past log points, and tells why the machine stands then.
fn make(alloc: Global, client: &mut Client, way: Move) -> Result<Vec<Message>, AllocError>
    ensures { IfOk result (λ ms. Moves way client.old client.new (each said_of ms.items)) }
{
    let further = further_of(&client.mon, way);
    let said = go_first(alloc, client, way)?;
    go_on(alloc, client, further, said)
}

/// Runs to a stop, unless the machine is to stand before the first instruction, and returns why it
/// stands.
fn first_halt(alloc: Global, client: &mut Client) -> Result<Halt, AllocError>
    ensures stand { OnOk result (stand_of client.new.mon ≡ begun_stand client.old) }
    ensures watches { KeepsWatches client.old.mon client.new.mon }
    ensures program { KeepsProgram client.old client.new }
    ensures told { client.new.told ≡ client.old.told }
    ensures reason { IfOk result (λ halt. halt.reason ≡ begun_reason client.old) }
    ensures words { IfOk result (λ halt. halt.words.now ≡ begun_words client.old) }
    ensures fault { IfOk result (λ halt. halt.fault ≡ begun_fault client.old) }
{
    if client.launch.stop_on_entry {
        return Ok(stand_by(Reason::Entry, NOT_BEGUN));
    }
    make_move(alloc, &mut client.mon, steps_of(&client.launch), Move::Go)
}

/// Runs to a stop, unless the machine is to stand before the first instruction, and tells why it
/// stands.
fn begun(alloc: Global, client: &mut Client) -> Result<Vec<Message>, AllocError>
    ensures { IfOk result (λ ms. BeginsFirst client.old client.new (each said_of ms.items)) }
{
    let halt = first_halt(alloc, client)?;
    with_halt_at(alloc, all_done(alloc), client, halt)
}

/// Runs to a stop, past log points, unless the machine is to stand before the first instruction,
/// and tells why it stands.
fn configured(alloc: Global, client: &mut Client) -> Result<Vec<Message>, AllocError>
    ensures { IfOk result (λ ms. Begins client.old client.new (each said_of ms.items)) }
{
    let said = begun(alloc, client)?;
    go_on(alloc, client, Further::Again(Move::Go), said)
}

/// Sets the breakpoints that a client wants, and returns what is told of them.
fn set_listed<H: Files + AllocGlobal>(
    rt: &H,
    client: &mut Client,
    counting: Counting,
    listed: Breakpoints<'_>,
) -> Result<Answer, AllocError>
    ensures { IfOk result
        (λ v. SetsListed listed.entry counting client.old client.new (answer_view v)) }
{
    let alloc = rt.alloc();
    match listed {
        Breakpoints::Source { path, listed } => {
            let wanted = number_lines(&mut client.listed, listed);
            let source = source_of(&client.files, counting);
            set_source(
                rt,
                &mut client.mon,
                &mut client.listed,
                &source,
                path,
                wanted,
            )
        }
        Breakpoints::Instruction(listed) => {
            let wanted = number_addresses(&mut client.listed, listed);
            set_addresses(alloc, &mut client.mon, &mut client.listed, counting, wanted)
        }
        Breakpoints::Function(listed) => {
            let wanted = number_functions(&mut client.listed, listed);
            set_functions(alloc, &mut client.mon, &mut client.listed, counting, wanted)
        }
        Breakpoints::Data(listed) => set_data(alloc, &mut client.mon, &mut client.listed, listed),
    }
}

/// Lets go of what is told. The only error is that memory ran out.
fn let_go(told: Result<Answer, AllocError>) -> Result<(), AllocError>
    ensures { OnOk result ((v : Answer) × (told ≡ Ok v)) }
{
    match told {
        Ok(value) => {
            drop(value);
            Ok(())
        }
        Err(_) => Err(AllocError),
    }
}

/// Sets the breakpoints that were listed in a file of an earlier session, in that with its path.
fn file_again<H: Files + AllocGlobal>(
    rt: &H,
    client: &mut Client,
    counting: Counting,
    files: &[FilePath],
    listed: FileLines,
) -> Result<(), AllocError>
    ensures set { OnOk result
        (SetsFileAgain counting files.now listed client.old client.new) }
    ensures kept { KeepsMade client.old.mon client.new.mon }
    ensures launch { client.new.launch ≡ client.old.launch }
{
    let FileLines { file, lines } = listed;
    let source = source_of(&client.files, counting);
    let path = path_at(files, file);
    let_go(set_source(
        rt,
        &mut client.mon,
        &mut client.listed,
        &source,
        path,
        lines,
    ))
}

/// Sets the breakpoints that were listed in files of an earlier session, in their order.
fn files_again<H: Files + AllocGlobal>(
    rt: &H,
    client: &mut Client,
    counting: Counting,
    files: &[FilePath],
    lists: Vec<FileLines>,
) -> Result<(), AllocError>
    ensures set { OnOk result
        (SetsFilesAgain counting files.now lists.items client.old client.new) }
    ensures kept { KeepsMade client.old.mon client.new.mon }
    ensures launch { client.new.launch ≡ client.old.launch }
{
    for listed in lists {
        file_again(rt, client, counting, files, listed)?;
    }
    Ok(())
}

/// Sets the breakpoints at addresses that were listed last in an earlier session, if some were.
fn addresses_again(
    alloc: Global,
    client: &mut Client,
    counting: Counting,
    listed: Option<AddressList>,
) -> Result<(), AllocError>
    ensures set { OnOk result (SetsAgain (ListsAddresses counting) listed client.old client.new) }
    ensures kept { KeepsMade client.old.mon client.new.mon }
    ensures launch { client.new.launch ≡ client.old.launch }
{
    let Some(listed) = listed else {
        return Ok(());
    };
    let_go(set_addresses(alloc, &mut client.mon, &mut client.listed, counting, listed))
}

/// Sets the breakpoints at names that were listed last in an earlier session, if some were.
fn functions_again(
    alloc: Global,
    client: &mut Client,
    counting: Counting,
    listed: Option<FunctionList>,
) -> Result<(), AllocError>
    ensures set { OnOk result (SetsAgain (ListsFunctions counting) listed client.old client.new) }
    ensures kept { KeepsMade client.old.mon client.new.mon }
    ensures launch { client.new.launch ≡ client.old.launch }
{
    let Some(listed) = listed else {
        return Ok(());
    };
    let_go(set_functions(alloc, &mut client.mon, &mut client.listed, counting, listed))
}

/// Sets the watches that were listed last in an earlier session, if some were.
fn bytes_again(
    alloc: Global,
    client: &mut Client,
    listed: Option<Vec<DataBreakpoint>>,
) -> Result<(), AllocError>
    ensures set { OnOk result (SetsAgain ListsBytes listed client.old client.new) }
    ensures kept { KeepsMade client.old.mon client.new.mon }
    ensures launch { client.new.launch ≡ client.old.launch }
{
    let Some(listed) = listed else {
        return Ok(());
    };
    let_go(set_data(alloc, &mut client.mon, &mut client.listed, listed))
}

/// Sets the breakpoints and the watches of a session in one that has begun again, under the numbers
/// that they had.
fn set_all_again<H: Files + AllocGlobal>(
    rt: &H,
    client: &mut Client,
    counting: Counting,
    files: &[FilePath],
    old: Listed,
) -> Result<(), AllocError>
    ensures set { OnOk result (SetsAllAgain old files.now counting client.old client.new) }
    ensures kept { OnOk result (KeepsMade client.old.mon client.new.mon) }
    ensures launch { client.new.launch ≡ client.old.launch }
{
    let Listed {
        lines: _,
        addresses: _,
        functions: _,
        last_lines,
        last_addresses,
        last_functions,
        last_bytes,
        next,
    } = old;
    client.listed.next = next;
    let alloc = rt.alloc();
    files_again(rt, client, counting, files, last_lines)?;
    addresses_again(alloc, client, counting, last_addresses)?;
    functions_again(alloc, client, counting, last_functions)?;
    bytes_again(alloc, client, last_bytes)
}

/// Begins the session again by its launch, with the breakpoints that it has.
#[tactic(auto, using(crate::proofs::Stays::shows_same))]
fn restart<H: Files + AllocGlobal>(
    rt: &H,
    client: &mut Client,
    counting: Counting,
) -> Result<Vec<Message>, Fault>
    ensures done { IfOk result
        (λ ms. Restarts counting client.old client.new (each said_of ms.items)) }
    ensures refused { IfErr result (λ f. ShowsIfRefused f client.old.mon client.new.mon) }
{
    let mut old = begin_session(rt, &client.launch)?;
    mem::swap(client, &mut old);
    let Client {
        launch: _,
        mon: _,
        files,
        listed,
        told: _,
    } = old;
    let set = set_all_again(rt, client, counting, files.as_slice(), listed);
    match set {
        Ok(()) => or_memory(configured(rt.alloc(), client)),
        Err(_) => Err(Fault::OutOfMemory),
    }
}

/// Returns whether a frame is the first.
fn is_first_frame(id: Option<u64>) -> bool
    ensures { result ≡ is_first_frame id }
{
    match id {
        Some(id) => id == 1,
        None => false,
    }
}

/// Returns the scopes of a frame.
fn scopes_shown(alloc: Global, mon: &MonState, frame: Option<u64>) -> Result<Answer, AllocError>
    ensures { IfOk result (λ v. AreScopes frame mon.now (answer_view v)) }
{
    let locals = local_scope(alloc, mon, frame)?;
    Ok(Answer::Scopes {
        is_first: is_first_frame(frame),
        locals,
    })
}

/// Returns what is shown of a session, if the question names what there is.
fn shown<H: Files + AllocGlobal>(
    rt: &H,
    client: &Client,
    counting: Counting,
    query: Query<'_>,
) -> Result<Answer, AllocError>
    ensures { IfOk result (λ v. IsShown query.entry counting client.now (answer_view v)) }
{
    let alloc = rt.alloc();
    let source = source_of(&client.files, counting);
    let mon = &client.mon;
    match query {
        Query::Threads => Ok(Answer::Threads),
        Query::StackTrace(page) => frames_shown(alloc, mon, &source, page),
        Query::Scopes(frame) => scopes_shown(alloc, mon, frame),
        Query::Variables { scope, page } => variables_shown(alloc, mon, scope, page),
        Query::ReadMemory { address, count } => memory_shown(alloc, mon, address, count),
        Query::Disassemble {
            address,
            offset,
            count,
        } => disassembled(alloc, mon, &source, address, offset, count),
        Query::GotoTargets { path, line } => goto_targets(rt, &mon.places, &source, path, line),
        Query::BreakpointLocations { path, line, end } => {
            breakpoint_locations(rt, &mon.places, &source, path, line, end)
        }
        Query::LoadedSources => sources_shown(alloc, client.files.as_slice()),
        Query::DataBreakpointInfo {
            scope,
            name,
            count,
            is_address,
        } => data_shown(alloc, mon, scope, name, count, is_address),
        Query::Completions { text, column } => completions(alloc, mon, counting, text, column),
        Query::ExceptionInfo => exception(alloc, client.told.words.as_str()),
        Query::SetExceptionBreakpoints => Ok(Answer::Breakpoints(Vec::new(alloc))),
        Query::Pause => Ok(Answer::Nothing),
        Query::Cancel => Ok(Answer::Nothing),
    }
}

/// Returns whether there is a frame of a number, if one is named.
fn is_known(alloc: Global, mon: &MonState, id: Option<u64>) -> Result<bool, AllocError>
    ensures { IfOk result (λ known. known ≡ is_known id mon.now) }
{
    match id {
        Some(id) => is_frame(alloc, mon, id),
        None => Ok(false),
    }
}

/// The most rows of a disassembly that are shown at once.
const MOST_ROWS: u32 = 16384;

/// Returns whether a question names what there is not, wants too much, or is about a step that was
/// not refused.
fn cannot_show(alloc: Global, client: &Client, query: &Query<'_>) -> Result<bool, AllocError>
    ensures { IfOk result (λ cannot. cannot ≡ cannot_show query.now client.now) }
{
    match query {
        Query::Scopes(frame) => {
            let known = is_known(alloc, &client.mon, *frame)?;
            Ok(!known)
        }
        Query::Variables { scope: None, .. } => Ok(true),
        Query::ReadMemory { address: None, .. } => Ok(true),
        Query::Disassemble { address: None, .. } => Ok(true),
        Query::Disassemble {
            address: Some(_),
            count,
            ..
        } => Ok(*count > MOST_ROWS),
        Query::ExceptionInfo => Ok(!matches!(client.told.reason, Reason::Exception)),
        Query::Variables { scope: Some(_), .. } => Ok(false),
        Query::ReadMemory {
            address: Some(_),
            ..
        } => Ok(false),
        Query::Threads | Query::StackTrace(_) | Query::GotoTargets { .. } => Ok(false),
        Query::BreakpointLocations { .. } | Query::LoadedSources => Ok(false),
        Query::DataBreakpointInfo { .. } | Query::Completions { .. } => Ok(false),
        Query::SetExceptionBreakpoints | Query::Pause | Query::Cancel => Ok(false),
    }
}

/// Returns words for a question that is refused.
fn why_not(query: &Query<'_>) -> &'static str {
    match query {
        Query::Scopes(_) => "there is no frame of this frameId",
        Query::Variables { .. } => "there are no variables of this variablesReference",
        Query::Disassemble {
            address: Some(_),
            ..
        } => "at most 16384 instructions are shown at once",
        Query::ExceptionInfo => "no step was refused",
        _ => "this memoryReference is no address",
    }
}

/// Returns what is answered to a question.
///
/// Errors: `Refused` if it names a frame, a scope or an address that there is not, wants more than
/// 16,384 rows, or is about a step that was not refused.
#[tactic(auto, using(crate::proofs::Stays::refused_so))]
fn shows<H: Files + AllocGlobal>(
    rt: &H,
    client: &Client,
    counting: Counting,
    query: Query<'_>,
) -> Result<Vec<Message>, Fault>
    ensures done { IfOk result
        (λ ms. Shows query.entry counting client.now (each said_of ms.items)) }
    ensures why { IfErr result
        (λ f. IfRefused f (cannot_show query.entry client.now ≡ true)) }
{
    let alloc = rt.alloc();
    if cannot_show(alloc, client, &query)? {
        return Err(refused(alloc, why_not(&query)));
    }
    let told = shown(rt, client, counting, query);
    or_memory(answered(alloc, told))
}

/// Makes a change, and returns the messages to the client.
///
/// Errors: as those of `answer`.
fn changed(
    alloc: Global,
    client: &mut Client,
    counting: Counting,
    change: Change<'_>,
) -> Result<Vec<Message>, Fault>
    ensures done { IfOk result
        (λ ms. HasChangedBy change.entry counting client.old client.new
        (each said_of ms.items)) }
    ensures refused { IfErr result (λ f. ShowsIfRefused f client.old.mon client.new.mon) }
    ensures why { IfErr result
        (λ f. IfRefused f (MayRefuseChange change.entry client.old.mon)) }
{
    match change {
        Change::Evaluate {
            text,
            is_console,
            frame,
        } => evaluate(alloc, client, counting, text, is_console, frame),
        Change::SetVariable { scope, name, value } => {
            set_variable(alloc, &mut client.mon, counting, scope, name, value)
        }
        Change::Goto(target) => go_to(alloc, client, target),
        Change::WriteMemory {
            address,
            data: text,
            is_partial,
        } => write_memory(alloc, client, counting, address, text, is_partial),
    }
}

/// Does what a request asks for of a session that has not ended, and returns the messages to the
/// client.
///
/// Errors: `Refused` if it cannot be done, as `specs/Refusals.antt` says. Nothing but the text said
/// last is changed then.
#[tactic(auto, using(crate::proofs::Stays::shows_same, crate::proofs::Stays::refused_so), unfolding(crate::specs::Answered::AreAnswers))]
fn answer_open<H: Files + AllocGlobal>(
    rt: &H,
    client: &mut Client,
    counting: Counting,
    asked: SessionRequest<'_>,
) -> Result<Vec<Message>, Fault>
    ensures done { IfOk result
        (λ ms. AreAnswers asked.entry counting client.old client.new (each said_of ms.items)) }
    ensures refused { IfErr result (λ f. ShowsIfRefused f client.old.mon client.new.mon) }
    ensures why { IfErr result (λ f. IfRefused f (MayRefuse asked.entry client.old)) }
{
    let alloc = rt.alloc();
    match asked {
        SessionRequest::Moves(way) => or_memory(make(alloc, client, way)),
        SessionRequest::Sets(listed) => {
            let told = set_listed(rt, client, counting, listed);
            or_memory(answered(alloc, told))
        }
        SessionRequest::Changes(change) => changed(alloc, client, counting, change),
        SessionRequest::Shows(query) => shows(rt, client, counting, query),
        SessionRequest::ConfigurationDone => or_memory(configured(alloc, client)),
        SessionRequest::Restart => restart(rt, client, counting),
        SessionRequest::Terminate => {
            client.told.is_over = true;
            or_memory(with_terminated(all_done(alloc)))
        }
        SessionRequest::NoThread => Err(refused(alloc, "there is no thread of this threadId")),
        SessionRequest::Other => Err(refused(alloc, "this request is not served")),
    }
}

/// Does what a request of a session asks for, and returns the messages to the client.
///
/// Errors: `Refused` if it cannot be done, as `specs/Refusals.antt` says: any is refused once the
/// program has ended. Nothing but the text said last is changed then.
#[tactic(auto, using(crate::proofs::Stays::shows_same, crate::proofs::Stays::refused_so))]
pub fn answer<H: Files + AllocGlobal>(
    rt: &H,
    client: &mut Client,
    counting: Counting,
    asked: SessionRequest<'_>,
) -> Result<Vec<Message>, Fault>
    ensures done { IfOk result (λ ms. AreOpenAnswers asked.entry counting client.old client.new
        (each said_of ms.items)) }
    ensures refused { IfErr result (λ f. ShowsIfRefused f client.old.mon client.new.mon) }
    ensures why { IfErr result (λ f. IfRefused f (MayRefuseAt asked.entry client.old)) }
{
    if client.told.is_over {
        drop(asked);
        return Err(refused(rt.alloc(), "the program has ended"));
    }
    answer_open(rt, client, counting, asked)
}

/// Returns whether a request lets the machine run, as `continue` and `configurationDone` do.
pub fn lets_run(asked: &SessionRequest<'_>) -> bool
    ensures { result ≡ lets_run asked.now }
{
    match asked {
        SessionRequest::Moves(way) => matches!(way, Move::Go),
        SessionRequest::ConfigurationDone => true,
        _ => false,
    }
}

/// Returns whether a run goes on: a request has let the machine run, and nothing has stopped it so
/// far.
pub fn goes_on(is_run: bool, client: &Client) -> bool
    ensures { result ≡ goes_on is_run client.now }
{
    is_run && matches!(client.told.reason, Reason::NoStop)
}
