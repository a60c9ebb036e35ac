//! What is done with a request: which comes when, and what it does to an adapter.

ghost use Rattle.std.specs.Prelude.{◌≡◌, ◌∷◌, ◌&&◌, [], IfErr, IfOk, OnErr, Some, is_none};
ghost use Rattle.std.specs.Prelude.{map as each, string_bytes};
ghost use Rattle.dap_session.specs.declared.client.Client.{Client};
ghost use Rattle.dap_messages.specs.Messages.{refused, said_of};
ghost use Rattle.dap_messages.specs.Seen.{launch_view};
ghost use Rattle.word_dap.specs.Adapter.{Begins, CountsIfRefused, IsRefused, Launches, ObeysAdapter};
ghost use Rattle.word_dap.specs.Adapter.{MayRefuseBegun, MayRefuseBy, MayRefuseFirst, ObeysBegun};
ghost use Rattle.word_dap.specs.Adapter.{ObeysFirst, RestsIfRefused, Serves, StaysIfRefused, is_launch};
ghost use Rattle.word_dap.specs.Adapter.{launched};
ghost use Rattle.dap_session.specs.Refusals.{IfRefused};

use dap_messages::{Answer, ClientEvent, Counting, Launch, Message, Request};
use dap_session::{
    Client, Fault, all_done, answer, answered, begin_session, or_memory, put_client, refused,
    with_event, with_terminated,
};
use std::alloc::{AllocError, Global};
use std::rt::Files;

/// What is said of a request to attach.
const NO_ATTACH: &str = "attach is not served: each program runs in the adapter, so launch it";

/// An adapter: how its client counts, and the session, if one has begun.
#[derive(Drop)]
pub struct Adapter {
    pub counting: Option<Counting>,
    pub client: Option<Client>,
}

/// Returns the answer to a launch, after which breakpoints may be set.
fn launched(alloc: Global) -> Result<Vec<Message>, AllocError>
    ensures { IfOk result (λ ms. each said_of ms.items ≡ launched) }
{
    with_event(all_done(alloc), ClientEvent::Initialized)
}

/// Returns nothing, as the answer to what is no request.
fn unanswered(alloc: Global) -> Result<Vec<Message>, AllocError>
    ensures { IfOk result (λ ms. each said_of ms.items ≡ []) }
{
    Ok(Vec::new(alloc))
}

/// Begins a session, and returns the answer to its launch.
fn begin_first<H: Files + AllocGlobal>(
    rt: &H,
    client: &mut Option<Client>,
    launch: &Launch,
) -> Result<Vec<Message>, Fault>
    ensures done { IfOk result (λ ms. (begun : Client) × (client.new ≡ Some begun)
        × Begins (launch_view launch.now) begun (each said_of ms.items)) }
    ensures refused { OnErr result (client.new ≡ client.old) }
{
    let messages = launched(rt.alloc())?;
    let begun = begin_session(rt, launch)?;
    put_client(client, begun);
    Ok(messages)
}

/// Begins a session, if none has begun.
#[tactic(auto, using(crate::proofs::Refusals::stays_same))]
fn launch<H: Files + AllocGlobal>(
    rt: &H,
    client: &mut Option<Client>,
    launch: &Launch,
) -> Result<Vec<Message>, Fault>
    ensures done { IfOk result
        (λ ms. Launches (launch_view launch.now) client.old client.new (each said_of ms.items)) }
    ensures refused { IfErr result (λ f. StaysIfRefused f client.old client.new) }
{
    if client.is_some() {
        return Err(refused(rt.alloc(), "launch comes once"));
    }
    begin_first(rt, client, launch)
}

/// Serves a request of a client that has said how it counts.
#[tactic(auto, using(crate::proofs::Refusals::stays_same, dap_session::proofs::Stays::refused_so))]
fn serve_begun<H: Files + AllocGlobal>(
    rt: &H,
    client: &mut Option<Client>,
    counting: Counting,
    asked: Request<'_>,
) -> Result<Vec<Message>, Fault>
    ensures done { IfOk result
        (λ ms. ObeysBegun asked.entry counting client.old client.new (each said_of ms.items)) }
    ensures refused { IfErr result (λ f. StaysIfRefused f client.old client.new) }
    ensures why { IfErr result (λ f. IfRefused f (MayRefuseBegun asked.entry client.old)) }
{
    match asked {
        Request::Initialize(_) => Err(refused(rt.alloc(), "initialize comes once")),
        Request::Launch(asked) => launch(rt, client, &asked),
        Request::WrongLaunch(member) => Err(refused(rt.alloc(), member.words())),
        Request::Attach => Err(refused(rt.alloc(), NO_ATTACH)),
        Request::Disconnect => or_memory(all_done(rt.alloc())),
        Request::InSession(asked) => match client {
            Some(client) => answer(rt, client, counting, asked),
            None => {
                drop(asked);
                Err(refused(rt.alloc(), "no program was launched"))
            }
        },
        Request::NoRequest => or_memory(unanswered(rt.alloc())),
    }
}

/// Serves a request of a client that has not said how it counts: notes how it does, and answers
/// what the adapter can do.
#[tactic(auto, using(crate::proofs::Refusals::counts_same, dap_session::proofs::Stays::refused_so))]
fn serve_first(
    alloc: Global,
    counting: &mut Option<Counting>,
    asked: Request<'_>,
) -> Result<Vec<Message>, Fault>
    ensures done { IfOk result
        (λ ms. ObeysFirst asked.entry counting.old counting.new (each said_of ms.items)) }
    ensures refused { IfErr result (λ f. CountsIfRefused f counting.old counting.new) }
    ensures why { IfErr result (λ f. IfRefused f (MayRefuseFirst asked.entry)) }
{
    match asked {
        Request::Initialize(said) => {
            *counting = Some(said);
            or_memory(answered(alloc, Ok(Answer::Capabilities)))
        }
        Request::NoRequest => or_memory(unanswered(alloc)),
        other => {
            drop(other);
            Err(refused(alloc, "initialize comes first"))
        }
    }
}

/// Serves a request.
#[tactic(auto, using(crate::proofs::Refusals::counts_same, crate::proofs::Refusals::stays_same))]
fn serve_asked<H: Files + AllocGlobal>(
    rt: &H,
    adapter: &mut Adapter,
    asked: Request<'_>,
) -> Result<Vec<Message>, Fault>
    ensures done { IfOk result
        (λ ms. ObeysAdapter asked.entry adapter.old adapter.new (each said_of ms.items)) }
    ensures refused { IfErr result (λ f. RestsIfRefused f adapter.old adapter.new) }
    ensures why { IfErr result (λ f. IfRefused f
        (MayRefuseBy adapter.old.counting asked.entry adapter.old.client)) }
{
    match adapter.counting {
        Some(counting) => serve_begun(rt, &mut adapter.client, counting, asked),
        None => serve_first(rt.alloc(), &mut adapter.counting, asked),
    }
}

/// Returns the refusal of a request.
fn refusal(alloc: Global, words: String) -> Result<Vec<Message>, AllocError>
    ensures { IfOk result (λ ms. each said_of ms.items ≡ refused (string_bytes words) ∷ []) }
{
    let mut messages = Vec::new(alloc);
    messages.push(Message::Refused(words))?;
    Ok(messages)
}

/// Returns whether a request is a launch.
fn is_launch(asked: &Request<'_>) -> bool
    ensures { result ≡ is_launch asked.now }
{
    matches!(asked, Request::Launch(_) | Request::WrongLaunch(_))
}

/// Returns whether the session ends where a request is refused: at a launch that leaves none.
fn ends(launches: bool, client: &Option<Client>) -> bool
    ensures { result ≡ (launches && is_none client.now) }
{
    launches && client.is_none()
}

/// Returns the refusal of a request, and that the session has ended, if it has.
fn ended_by(alloc: Global, words: String, is_end: bool) -> Result<Vec<Message>, AllocError>
    ensures { IfOk result (λ ms. IsRefused is_end (each said_of ms.items)) }
{
    if is_end {
        with_terminated(refusal(alloc, words))
    } else {
        refusal(alloc, words)
    }
}

/// Serves a request, and returns its answer and events. The only error is a failed allocation.
pub fn serve<H: Files + AllocGlobal>(
    rt: &H,
    adapter: &mut Adapter,
    asked: Request<'_>,
) -> Result<Vec<Message>, AllocError>
    ensures { IfOk result
        (λ ms. Serves asked.entry adapter.old adapter.new (each said_of ms.items)) }
{
    let launches = is_launch(&asked);
    match serve_asked(rt, adapter, asked) {
        Ok(messages) => Ok(messages),
        Err(Fault::Refused(words)) => {
            let is_end = ends(launches, &adapter.client);
            ended_by(rt.alloc(), words, is_end)
        }
        Err(Fault::OutOfMemory) => Err(AllocError),
    }
}
