//! A break.

ghost use Rattle.std.specs.Prelude.{◌≡◌};
ghost use Rattle.mon_runs.specs.Stops.{counted, is_last_visit, is_plain_break, is_stop, visited};

use crate::tests::all_hold;
use arrayvec::ArrayVec;
use debugger::Session;
use mon_lines::Test;

/// A break: it stops a run at the last of so many visits at which its tests hold.
#[derive(Drop)]
pub struct Break {
    pub address: u16,
    pub tests: ArrayVec<Test, 4>,
    pub times: u32,
    /// How often it was visited with its tests met, since it last stopped a run.
    visits: u32,
}

impl Break {
    /// Makes a break that was not visited yet.
    pub fn new(address: u16, tests: ArrayVec<Test, 4>, times: u32) -> Break
        ensures address { result.address ≡ address }
        ensures tests { result.tests ≡ tests }
        ensures times { result.times ≡ times }
        ensures visits { result.visits ≡ 0 }
    {
        Break {
            address,
            tests,
            times,
            visits: 0,
        }
    }

    /// Returns whether it stops a run at each visit.
    pub fn is_plain(&self) -> bool
        ensures { result ≡ is_plain_break self.now }
    {
        self.tests.len() == 0 && self.times <= 1
    }

    /// Counts a visit, and returns whether it is the last of as many as the break says.
    fn count(&mut self) -> bool
        ensures last { result ≡ is_last_visit self.old }
        ensures after { self.new ≡ counted self.old }
    {
        let count = self.visits.saturating_add(1);
        if count >= self.times {
            self.visits = 0;
            true
        } else {
            self.visits = count;
            false
        }
    }

    /// Visits the break, and returns whether that stops a run.
    pub(crate) fn visit(&mut self, session: &Session) -> bool
        ensures stop { result ≡ is_stop session.now.current self.old }
        ensures after { self.new ≡ visited session.now.current self.old }
    {
        all_hold(session, self.tests.as_slice()) && self.count()
    }
}
