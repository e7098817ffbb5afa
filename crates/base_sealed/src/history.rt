//! A list that only proofs read. Its fields have no bytes, and its methods do nothing at run time; no clause says so.
ghost use Rattle.std.specs.Prelude.{◌≡◌, List, [], ◌∷◌, ◌++◌};
ghost use Rattle.std.specs.Borrow.{ftrue};

use std::marker::{Model, PhantomData};

/// A clause reads the list as `items`.
#[derive(Drop)]
pub struct History<T> {
    of: PhantomData<T>,
    pub ghost items: { List T },
}

impl<T> Model for History<T> {
    ghost also_owns = { λ _. ftrue };
}

// It owns nothing.
unsafe impl<T: Send> Send for History<T> {}

impl<T> History<T> {
    /// The empty list.
    pub fn new() -> History<T>
        ensures { result.items ≡ [] }
    {
        History { of: PhantomData }
    }

    /// The same, and this one behind all others.
    pub fn with(&self, last: &T) -> History<T>
        ensures { result.items ≡ self.now.items ++ last.now ∷ [] }
    {
        History { of: PhantomData }
    }
}
