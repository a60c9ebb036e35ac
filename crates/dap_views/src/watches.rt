//! Bytes that are watched: each list of them replaces the one before.

ghost use Rattle.std.specs.Prelude.{◌≡◌, ◌&&◌, IfOk, OnOk, Some, map as each};
ghost use Rattle.dap_messages.specs.SeenAnswers.{breakpoints_body};
ghost use Rattle.dap_views.specs.Locals.{IsData, local_frame};
ghost use Rattle.dap_views.specs.Watches.{KeepsBreaks, SetsWatches, TellsWatches, all_unset};
ghost use Rattle.dap_views.specs.Watches.{all_watched, data_by, data_shown, has_bytes, is_watched, place_if};
ghost use Rattle.dap_views.specs.Watches.{place_meant, range_from, told_of};
ghost use Rattle.dap_views.specs.Watches.{watched_of, watches_of, with_all};
ghost use Rattle.dap_messages.specs.SeenAnswers.{answer_view, item_view};
ghost use Rattle.mon_runs.specs.Stops.{has_access};

use crate::locals::{frame_of, local_data};
use crate::looks::place_named;
use dap_messages::{
    Access, Answer, ByteRange, DataBreakpoint, Item, ItemList, Listed, Scope, address_of,
    breakpoints_body, data_unwatched, no_data, range_of,
};
use mon_lines::{Stretch, WatchKind};
use mon_runs::{Session, Stops, Watch};
use mon_session::MonState;
use mon_settings::set_watch;
use std::alloc::{AllocError, Global};

/// What is said of a name that stands for no byte.
pub const NO_DATA: &str = "this is no byte of memory";

/// What is said of bytes that cannot be watched.
pub const NOT_WATCHED: &str = "these bytes cannot be watched";

/// Returns whether the variables of a scope can be bytes. Without a scope a name is a place.
fn has_bytes(scope: Option<Scope>) -> bool
    ensures { result ≡ has_bytes scope }
{
    match scope {
        Some(Scope::Registers | Scope::Flags | Scope::Machine | Scope::Locals(_)) => false,
        _ => true,
    }
}

/// Returns the address of the byte that a name of a scope stands for, if it stands for one.
fn byte_named(mon: &MonState, scope: Option<Scope>, name: &str) -> Option<u16>
    ensures { result ≡ place_if (has_bytes scope) mon.now name.now }
{
    if has_bytes(scope) {
        place_named(mon, name)
    } else {
        None
    }
}

/// Returns the address that a name is, or else that of the byte that it stands for.
fn place_meant(mon: &MonState, scope: Option<Scope>, name: &str, is_address: bool) -> Option<u16>
    ensures { result ≡ place_meant mon.now scope name.now is_address }
{
    if is_address {
        address_of(name.as_bytes())
    } else {
        byte_named(mon, scope, name)
    }
}

/// Returns so many bytes from an address on: one where no number is named.
fn range_from(address: Option<u16>, count: Option<u64>) -> Option<ByteRange>
    ensures { result ≡ range_from address count }
{
    match address {
        Some(address) => range_of(address, count.unwrap_or(1)),
        None => None,
    }
}

/// Returns what can be watched of some bytes, if there are some.
pub fn data_of(alloc: Global, range: Option<ByteRange>) -> Result<Answer, AllocError>
    ensures { IfOk result (λ v. answer_view v ≡ data_by range) }
{
    match range {
        Some(range) => Ok(Answer::DataAt(range)),
        None => no_data(alloc, NO_DATA),
    }
}

/// Returns the frame of whose locals a name of a scope is one, if it is of some and is no address.
fn local_frame(scope: Option<Scope>, is_address: bool) -> Option<u16>
    ensures { result ≡ local_frame scope is_address }
{
    if is_address { None } else { frame_of(scope) }
}

/// Returns what can be watched of the bytes that a name of a scope stands for, or that begin at the
/// address that it is.
pub fn data_shown(
    alloc: Global,
    mon: &MonState,
    scope: Option<Scope>,
    name: &str,
    count: Option<u64>,
    is_address: bool,
) -> Result<Answer, AllocError>
    ensures { IfOk result
        (λ v. IsData mon.now scope name.now count is_address (answer_view v)) }
{
    match local_frame(scope, is_address) {
        Some(frame) => local_data(alloc, mon, frame, name, count),
        None => place_data(alloc, mon, scope, name, count, is_address),
    }
}

/// Returns what can be watched of the bytes at the place that a name of a scope stands for, or that
/// begin at the address that it is.
fn place_data(
    alloc: Global,
    mon: &MonState,
    scope: Option<Scope>,
    name: &str,
    count: Option<u64>,
    is_address: bool,
) -> Result<Answer, AllocError>
    ensures { IfOk result
        (λ v. answer_view v ≡ data_shown mon.now scope name.now count is_address) }
{
    data_of(
        alloc,
        range_from(place_meant(mon, scope, name, is_address), count),
    )
}

/// Ends the watch of changes in the session at some addresses.
fn unset_all(session: &mut Session, addresses: &[u16])
    ensures { session.new ≡ all_unset addresses.now session.old }
{
    for address in addresses {
        let _ = session.clear_watch(*address);
    }
}

/// Sets the watches that a client wants of some bytes, if it names some. Those that cannot be set
/// are not.
fn set_wanted(mon: &mut MonState, wanted: &DataBreakpoint) -> Result<(), AllocError>
    ensures watched { OnOk result
        (watched_of mon.new ≡ with_all (watches_of wanted.now) (watched_of mon.old)) }
    ensures kept { KeepsBreaks mon.old mon.new }
{
    let Some(range) = wanted.range else {
        return Ok(());
    };
    let stretch = Stretch {
        first: range.first,
        last: range.last,
    };
    let kind = match wanted.access {
        Access::Read => WatchKind::Read,
        Access::ReadWrite => {
            let kind = WatchKind::Read;
            set_watch(mon, Watch::Bytes { stretch, kind })?;
            WatchKind::Write
        }
        Access::Write => WatchKind::Change,
    };
    set_watch(mon, Watch::Bytes { stretch, kind })
}

/// Returns whether all holds that held so far, and an access of a kind at an address stops a run.
fn and_access(all: bool, stops: &Stops, kind: WatchKind, address: u16) -> bool
    ensures { result ≡ (all && has_access kind address stops.now.watches.items) }
{
    all && stops.has_access(kind, address)
}

/// Returns whether an access of a kind to each of some bytes stops a run.
fn has_all(stops: &Stops, kind: WatchKind, range: ByteRange) -> bool
    ensures { result ≡ all_watched stops.now.watches.items range kind }
{
    let mut all = stops.has_access(kind, range.last);
    for address in range.first..range.last {
        all = and_access(all, stops, kind, address);
    }
    all
}

/// Returns whether bytes are watched for an access.
fn is_watched(stops: &Stops, range: ByteRange, access: Access) -> bool
    ensures { result ≡ is_watched stops.now.watches.items range access }
{
    match access {
        Access::Read => has_all(stops, WatchKind::Read, range),
        Access::ReadWrite => {
            if has_all(stops, WatchKind::Read, range) {
                has_all(stops, WatchKind::Write, range)
            } else {
                false
            }
        }
        Access::Write => has_all(stops, WatchKind::Change, range),
    }
}

/// Returns what is answered of bytes that a client wants watched together.
fn told(alloc: Global, stops: &Stops, wanted: &DataBreakpoint) -> Result<Item, AllocError>
    ensures { IfOk result (λ v. item_view v ≡ told_of stops.now.watches.items wanted.now) }
{
    match wanted.range {
        Some(range) => {
            if is_watched(stops, range, wanted.access) {
                Ok(Item::Watched)
            } else {
                data_unwatched(alloc, NOT_WATCHED)
            }
        }
        None => data_unwatched(alloc, NO_DATA),
    }
}

/// Returns what is answered of bytes that a client wants watched.
fn all_told(alloc: Global, stops: &Stops, listed: &[DataBreakpoint]) -> Result<Answer, AllocError>
    ensures { IfOk result (λ v. answer_view v
        ≡ breakpoints_body (each (told_of stops.now.watches.items) listed.now)) }
{
    let mut list = ItemList::new(alloc);
    for wanted in listed {
        list = list.with(told(alloc, stops, wanted));
    }
    breakpoints_body(list)
}

/// Watches the bytes that a client wants watched, in place of all that were watched, and returns
/// what is answered.
///
/// Errors: `AllocError` if an allocation fails; the old watches are cleared then, and some of the
/// new ones may be set.
pub fn set_data(
    alloc: Global,
    mon: &mut MonState,
    listed: &mut Listed,
    wanted: Vec<DataBreakpoint>,
) -> Result<Answer, AllocError>
    ensures sets { OnOk result (SetsWatches wanted.items mon.old mon.new) }
    ensures kept { KeepsBreaks mon.old mon.new }
    ensures lines { listed.new.lines ≡ listed.old.lines }
    ensures addresses { listed.new.addresses ≡ listed.old.addresses }
    ensures functions { listed.new.functions ≡ listed.old.functions }
    ensures answer { IfOk result
        (λ v. TellsWatches wanted.items mon.new.stops.watches.items (answer_view v)) }
    ensures held { OnOk result (listed.new.last_bytes ≡ Some wanted) }
    ensures others { (listed.new.last_lines ≡ listed.old.last_lines)
        × (listed.new.last_addresses ≡ listed.old.last_addresses)
        × (listed.new.last_functions ≡ listed.old.last_functions)
        × (listed.new.next ≡ listed.old.next) }
{
    unset_all(&mut mon.session, mon.stops.changes.as_slice());
    mon.stops.watches.clear();
    mon.stops.changes.clear();
    let all = wanted.as_slice();
    for byte in all {
        set_wanted(mon, byte)?;
    }
    mon.text.clear();
    let told = all_told(alloc, &mon.stops, all);
    listed.last_bytes = Some(wanted);
    told
}
