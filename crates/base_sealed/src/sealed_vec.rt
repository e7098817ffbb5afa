//! A vector that asks for no memory any more.
ghost use Rattle.std.specs.Prelude.{◌≡◌, ◌<◌, ◌≤◌, [], ◌∷◌, ◌++◌, length, slice_index_or, vec_capacity, IfOk, IsSome, MatchOption};
ghost use Rattle.std.specs.Borrow.{sem};

use std::alloc::{AllocError, Allocator};
use std::marker::Model;
use std::ops::{Index, IndexMut};

/// A vector with the room that it has for good. No call asks for memory, gives any back or lends the allocator.
#[derive(Drop)]
pub struct SealedVec<T, A: Allocator> {
    values: Vec<T, A>,
}

impl<T, A: Allocator> Model for SealedVec<T, A> {
    ghost use Rattle.base_sealed.specs.Views.{SealedView, view_code};

    ghost Value = { SealedView T };

    ghost coded = { view_code T.code };

    ghost use Rattle.std.specs.Prelude.{vec_capacity};

    ghost view = { λ v. record { items = v.values.items; cap = vec_capacity v.values } };
}

impl<T, A: Allocator> SealedVec<T, A> {
    /// The same values and the same room, with no way to more.
    pub fn sealed(values: Vec<T, A>) -> Self
        ensures items { result.items ≡ values.items }
        ensures capacity { result.cap ≡ vec_capacity values }
    {
        SealedVec { values }
    }

    /// How many values there are.
    pub fn len(&self) -> usize
        ensures { result ≡ length self.now.items }
    {
        self.values.len()
    }

    /// Appends a value. There has to be room.
    pub fn push_reserved(&mut self, value: T)
        requires { length self.old.items < self.old.cap }
        ensures items { self.new.items ≡ self.old.items ++ value ∷ [] }
        ensures capacity { self.new.cap ≡ self.old.cap }
    {
        self.values.push_reserved(value);
    }

    /// Takes the last value out.
    pub fn pop(&mut self) -> Option<T>
        ensures cases { MatchOption result (self.new ≡ self.old) (λ value. self.old ≡ record self.new { items = self.new.items ++ value ∷ [] }) }
        ensures there { 0 < length self.old.items → IsSome result }
    {
        self.values.pop()
    }

    /// All values.
    pub fn as_slice(&self) -> &[T]
        ensures { result.now ≡ self.now.items }
    {
        self.values.as_slice()
    }
}

impl<T: Copy, A: Allocator> SealedVec<T, A> {
    /// Takes all values away. Their room stays.
    pub fn clear(&mut self)
        ensures { self.new ≡ record self.old { items = [] } }
    {
        self.values.clear();
    }

    /// Writes a value to all room that is left, and takes it away again, so that nobody else is the first to touch this memory.
    pub fn prefault(&mut self, value: T)
        ensures items { self.new.items ≡ self.old.items }
        ensures capacity { self.old.cap ≤ self.new.cap }
    {
        let count = self.len();
        let Ok(()) = self.values.resize(self.values.capacity(), value) else {
            unreachable!()
        };
        self.values.truncate(count);
    }

    /// The same values in memory of their own, with room for this many.
    pub fn with_more_room(&self, alloc: A, room: usize) -> Result<Self, AllocError>
        requires { length self.now.items ≤ room }
        ensures items { IfOk result (λ more. more.items ≡ self.now.items) }
        ensures capacity { IfOk result (λ more. room ≤ more.cap) }
    {
        let mut values = Vec::with_capacity(alloc, room)?;
        values.extend_from_slice(self.as_slice())?;
        Ok(Self::sealed(values))
    }
}

impl<T, A: Allocator> Index<usize> for SealedVec<T, A> {
    type Output = T;

    ghost can_index = { λ v i. i < length v.items };

    ghost index_gives = { λ v i x. x ≡ slice_index_or v.items i x };

    fn index(&self, index: usize) -> &T
        requires { index < length self.now.items }
        ensures { result.now ≡ slice_index_or self.now.items index result.now }
    {
        &self.values[index]
    }
}

impl<T, A: Allocator> IndexMut<usize> for SealedVec<T, A> {
    ghost use Rattle.base_sealed.specs.Lending.{lends_item};

    fn index_mut(&mut self, index: usize) -> &mut T
        requires { index < length self.old.items }
        ensures* writes_back { sem 𝓛 (lends_item T.row A.row A.Allocator self.entry index result) }
        ensures value { result.now ≡ slice_index_or self.old.items index result.now }
    {
        &mut self.values[index]
    }
}
