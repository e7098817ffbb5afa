//! A list that is closed while a world runs: it lends no allocator, and doesn't grow.

ghost use Rattle.std.specs.Prelude.{◌≡◌, ◌<◌, length, slice_index_or, vec_capacity};
ghost use Rattle.std.specs.Borrow.{sem};

use std::alloc::Global;
use std::marker::Model;
use std::ops::{Index, IndexMut};

/// A list of a world. Only the opening of a world makes one, since that takes a list of the library. A world that ends gives it back as one, and
/// a step can't: it is lent the world, and has no other list to leave in this one's place.
#[derive(Drop)]
pub(crate) struct Closed<T> {
    values: Vec<T, Global>,
}

impl<T> Model for Closed<T> {
    ghost use Rattle.base_sealed.specs.Views.{SealedView, view_code};

    ghost Value = { SealedView T };

    ghost coded = { view_code T.code };

    ghost use Rattle.std.specs.Prelude.{vec_capacity};

    ghost view = { λ v. record { items = v.values.items; cap = vec_capacity v.values } };
}

impl<T> Closed<T> {
    /// The same list, which is closed from here on.
    pub(crate) fn of(values: Vec<T, Global>) -> Self
        ensures items { result.items ≡ values.items }
        ensures capacity { result.cap ≡ vec_capacity values }
    {
        Closed { values }
    }

    /// The list, at the end of its world.
    pub(crate) fn opened(self) -> Vec<T, Global>
        ensures items { result.items ≡ self.items }
        ensures capacity { vec_capacity result ≡ self.cap }
    {
        self.values
    }
}

impl<T> Index<usize> for Closed<T> {
    type Output = T;

    ghost can_index = { λ v i. i < length v.items };

    ghost index_gives = { λ v i x. x ≡ slice_index_or v.items i x };

    fn index(&self, index: usize) -> &T
        requires { index < length self.now.items }
        ensures { result.now ≡ slice_index_or self.now.items index result.now }
    {
        &self.values[index]
    }
}

impl<T> IndexMut<usize> for Closed<T> {
    ghost use Rattle.model_world.specs.Lending.{lends_item};

    fn index_mut(&mut self, index: usize) -> &mut T
        requires { index < length self.old.items }
        ensures* writes_back { sem 𝓛 (lends_item T.row self.entry index result) }
        ensures value { result.now ≡ slice_index_or self.old.items index result.now }
    {
        &mut self.values[index]
    }
}
