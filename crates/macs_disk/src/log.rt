//! A history that only proofs read. It takes no memory, and its methods do nothing at run time.

ghost use Rattle.std.specs.Prelude.{◌≡◌, List, [], ◌∷◌, ◌++◌};
ghost use Rattle.std.specs.Borrow.{ftrue};

use std::marker::{Model, PhantomData};

/// In contracts the logged values are `items`, earliest first.
#[derive(Drop)]
pub(crate) struct Log<T> {
    of: PhantomData<T>,
    pub ghost items: { List T },
}

impl<T> Model for Log<T> {
    ghost also_owns = { λ _. ftrue };
}

impl<T> Log<T> {
    /// An empty log.
    pub(crate) fn new() -> Log<T>
        ensures { result.items ≡ [] }
    {
        Log { of: PhantomData }
    }

    /// The log with one more value at its end.
    pub(crate) fn and(&self, next: &T) -> Log<T>
        ensures { result.items ≡ self.now.items ++ next.now ∷ [] }
    {
        Log { of: PhantomData }
    }
}
