//! A slab that asks for no memory any more.
ghost use Rattle.std.specs.Prelude.{◌≡◌, ◌+◌, ◌<◌, None, Some};
ghost use Rattle.std.specs.Borrow.{sem};
ghost use Rattle.slab.specs.Slab.{ContainsKey, HasRoomFor, Updates, get, slab_len};

use slab::Slab;
use std::alloc::Allocator;
use std::marker::Model;
use std::ops::{Index, IndexMut};

/// A slab with the room that it has for good. No call asks for memory, gives any back or lends the allocator.
#[derive(Drop)]
pub struct SealedSlab<T, A: Allocator> {
    slab: Slab<T, A>,
}

impl<T, A: Allocator> Model for SealedSlab<T, A> {
    ghost use Rattle.slab.specs.Slab.{Slab as Slots, slab_code};

    ghost Value = { Slots T };

    ghost coded = { slab_code T.code };

    ghost view = { λ s. s.slab };
}

impl<T, A: Allocator> SealedSlab<T, A> {
    /// The same values under the same keys, and the same room, with no way to more.
    pub fn sealed(slab: Slab<T, A>) -> Self
        ensures { result ≡ slab }
    {
        SealedSlab { slab }
    }

    /// How many values there are.
    pub fn len(&self) -> usize
        ensures { result ≡ slab_len self.now }
    {
        self.slab.len()
    }

    /// Stores a value under a vacant key, and answers the key. There has to be room.
    pub fn insert_reserved(&mut self, value: T) -> usize
        requires { HasRoomFor self.old 1 }
        ensures was_vacant { get self.old result ≡ None }
        ensures updates { Updates self.old self.new result (Some value) }
        ensures len { slab_len self.new ≡ slab_len self.old + 1 }
        ensures key_in_range { result < self.new.capacity }
        ensures capacity { self.new.capacity ≡ self.old.capacity }
    {
        self.slab.insert_reserved(value)
    }

    /// Takes the value out that this key has.
    pub fn remove(&mut self, key: usize) -> T
        requires { ContainsKey self.old key }
        ensures value { get self.old key ≡ Some result }
        ensures updates { Updates self.old self.new key None }
        ensures len { slab_len self.new + 1 ≡ slab_len self.old }
        ensures capacity { self.new.capacity ≡ self.old.capacity }
    {
        self.slab.remove(key)
    }
}

impl<T, A: Allocator> Index<usize> for SealedSlab<T, A> {
    type Output = T;

    ghost can_index = { ContainsKey };

    ghost index_gives = { λ s key value. get s key ≡ Some value };

    fn index(&self, key: usize) -> &T {
        &self.slab[key]
    }
}

impl<T, A: Allocator> IndexMut<usize> for SealedSlab<T, A> {
    ghost use Rattle.base_sealed.specs.Lending.{lends_value};

    fn index_mut(&mut self, key: usize) -> &mut T
        requires { ContainsKey self.old key }
        ensures* writes_back { sem 𝓛 (lends_value T.row A.row A.Allocator self.entry key result) }
        ensures value { get self.old key ≡ Some result.now }
    {
        &mut self.slab[key]
    }
}
