//! Watches.

ghost use Rattle.std.specs.Prelude.{◌≡◌};
ghost use Rattle.mon_runs.specs.Stops.{changed, has, has_access, if_changes, is_change, is_for, is_of};
ghost use Rattle.mon_runs.specs.Stops.{is_same_kind, is_same_register, is_within};

use mon_lines::{Register, Stretch, WatchKind};

/// What is watched.
#[derive(Clone, Copy)]
pub enum Watch {
    /// Bytes of memory, and what stops a run there.
    Bytes { stretch: Stretch, kind: WatchKind },
    /// A register: a step that changes it stops a run.
    Register(Register),
}

/// Returns whether two kinds are the same.
fn is_same(kind: WatchKind, other: WatchKind) -> bool
    ensures { result ≡ is_same_kind kind other }
{
    match kind {
        WatchKind::Change => matches!(other, WatchKind::Change),
        WatchKind::Read => matches!(other, WatchKind::Read),
        WatchKind::Write => matches!(other, WatchKind::Write),
    }
}

/// Returns whether two registers are the same.
fn is_same_register(one: Register, other: Register) -> bool
    ensures { result ≡ is_same_register one other }
{
    match one {
        Register::A => matches!(other, Register::A),
        Register::X => matches!(other, Register::X),
        Register::Y => matches!(other, Register::Y),
        Register::S => matches!(other, Register::S),
        Register::P => matches!(other, Register::P),
        Register::Pc => matches!(other, Register::Pc),
    }
}

/// Returns whether an address lies in a stretch.
fn is_within(stretch: Stretch, address: u16) -> bool
    ensures { result ≡ is_within stretch address }
{
    stretch.first <= address && address <= stretch.last
}

/// Returns whether a watch is for an access of this kind at an address.
#[tactic(auto, unfolding(crate::specs::Stops::has_access))]
pub fn has_access(watches: &[Watch], kind: WatchKind, address: u16) -> bool
    ensures { result ≡ has_access kind address watches.now }
{
    watches.iter().any(|watch| watch.is_for(kind, address))
}

/// Returns a stretch, if its changes are watched.
fn if_changes(stretch: Stretch, kind: WatchKind) -> Option<Stretch>
    ensures { result ≡ if_changes stretch kind }
{
    match kind {
        WatchKind::Change => Some(stretch),
        WatchKind::Read | WatchKind::Write => None,
    }
}

impl Watch {
    /// Returns whether an address is one of those watched.
    pub fn has(&self, address: u16) -> bool
        ensures { result ≡ has self.now address }
    {
        match self {
            Watch::Bytes { stretch, .. } => is_within(*stretch, address),
            Watch::Register(_) => false,
        }
    }

    /// Returns whether an access of a kind at an address stops a run.
    fn is_for(&self, kind: WatchKind, address: u16) -> bool
        ensures { result ≡ is_for kind address self.now }
    {
        match self {
            Watch::Bytes { stretch, kind: own } => {
                is_same(*own, kind) && is_within(*stretch, address)
            }
            Watch::Register(_) => false,
        }
    }

    /// Returns whether a register is what is watched.
    pub fn is_of(&self, register: Register) -> bool
        ensures { result ≡ is_of register self.now }
    {
        match self {
            Watch::Bytes { .. } => false,
            Watch::Register(own) => is_same_register(*own, register),
        }
    }

    /// Returns the bytes whose changes are watched, if some are.
    pub fn changed(&self) -> Option<Stretch>
        ensures { result ≡ changed self.now }
    {
        match self {
            Watch::Bytes { stretch, kind } => if_changes(*stretch, *kind),
            Watch::Register(_) => None,
        }
    }

    /// Returns whether the changes of bytes are watched.
    pub fn is_change(&self) -> bool
        ensures { result ≡ is_change self.now }
    {
        self.changed().is_some()
    }
}
