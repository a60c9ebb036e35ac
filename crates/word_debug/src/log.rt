//! A history that only proofs read.
ghost use Rattle.std.specs.Prelude.{◌≡◌, List, [], ◌∷◌, ◌++◌};
ghost use Rattle.std.specs.Borrow.{ftrue};

use std::marker::{Model, PhantomData};

/// Values one after another, which clauses read as `items`. It takes no memory, and its calls do
/// nothing at run time.
#[derive(Drop)]
pub struct Log<A> {
    of: PhantomData<A>,
    pub ghost items: { List A },
}

impl<A> Model for Log<A> {
    ghost also_owns = { λ _. ftrue };
}

impl<A> Log<A> {
    /// Makes a log with nothing in it.
    pub fn new() -> Log<A>
        ensures { result.items ≡ [] }
    {
        Log { of: PhantomData }
    }

    /// Makes a log with one value more.
    pub fn and(&self, item: &A) -> Log<A>
        ensures { result.items ≡ self.now.items ++ item.now ∷ [] }
    {
        Log { of: PhantomData }
    }
}
