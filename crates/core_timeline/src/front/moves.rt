//! What moves the nodes of a front from place to place: each goes into the free place beside it, which leaves its own free.
ghost use Rattle.std.specs.Prelude.{◌≡◌, ◌+◌, ◌-◌, ◌<◌, ◌≤◌, [], ◌∷◌, ◌++◌, true, false, length, Some, None, slice_index, slice_index_or, IfSome, IfNone, is_some};
ghost use Rattle.core_timeline.specs.Rising.{EachKey, IsRising, inserted, removed, has_key, has_queue, same_key};
ghost use Rattle.core_timeline.specs.Front.{front_keys, keys_at, IsTaken, IsFront, HasGap};
ghost use Rattle.core_timeline.specs.Nodes.{key_of, IsLoose};

use super::places::Places;
use crate::tree::Node;
use base_words::{Key, QueueNo};
use std::alloc::Allocator;

impl<A: Allocator> Places<A> {
    /// Puts a node behind all others.
    #[inline(always)]
    pub(super) fn push(&mut self, node: Box<Node<A>, A>, vr: u128)
        requires front { IsFront self.old.vrs.items self.old.nodes.items self.old.begin self.old.end }
        requires loose { IsLoose node.value }
        requires room { length (front_keys self.old.vrs.items self.old.nodes.items) < 32 }
        ensures front { IsFront self.new.vrs.items self.new.nodes.items self.new.begin self.new.end }
        ensures keys { front_keys self.new.vrs.items self.new.nodes.items ≡ front_keys self.old.vrs.items self.old.nodes.items ++ key_of vr node.value ∷ [] }
    {
        self.make_room();
        self.put(self.end, node, vr);
        self.end += 1;
    }

    /// Puts a node in the place of its key.
    #[inline(never)]
    pub(super) fn insert(&mut self, node: Box<Node<A>, A>, vr: u128)
        requires front { IsFront self.old.vrs.items self.old.nodes.items self.old.begin self.old.end }
        requires loose { IsLoose node.value }
        requires rising { IsRising (front_keys self.old.vrs.items self.old.nodes.items) }
        requires room { length (front_keys self.old.vrs.items self.old.nodes.items) < 32 }
        ensures front { IsFront self.new.vrs.items self.new.nodes.items self.new.begin self.new.end }
        ensures keys { front_keys self.new.vrs.items self.new.nodes.items ≡ inserted (key_of vr node.value) (front_keys self.old.vrs.items self.old.nodes.items) }
    {
        self.make_room();
        let queue = node.queue;
        let mut at = self.end;
        while self.goes_before(at, vr, queue) {
            self.shift(at - 1, at);
            at -= 1;
        }
        self.put(at, node, vr);
        self.end += 1;
    }

    /// Takes the first node out. Its virtual runtime is written to `vr`.
    #[inline]
    pub(super) fn take_first(&mut self, vr: &mut u128) -> Box<Node<A>, A>
        requires front { IsFront self.old.vrs.items self.old.nodes.items self.old.begin self.old.end }
        requires some { self.old.begin < self.old.end }
        ensures front { IsFront self.new.vrs.items self.new.nodes.items self.new.begin self.new.end }
        ensures keys { front_keys self.old.vrs.items self.old.nodes.items ≡ key_of vr.new result.value ∷ front_keys self.new.vrs.items self.new.nodes.items }
        ensures loose { IsLoose result.value }
    {
        let first = self.begin;
        let node = self.take(first, vr);
        if first + 1 == self.end {
            self.begin = 0;
            self.end = 0;
            return node;
        }
        self.begin = first + 1;
        node
    }

    /// Takes the last node out. Its virtual runtime is written to `vr`.
    pub(super) fn take_last(&mut self, vr: &mut u128) -> Box<Node<A>, A>
        requires front { IsFront self.old.vrs.items self.old.nodes.items self.old.begin self.old.end }
        requires some { self.old.begin < self.old.end }
        ensures front { IsFront self.new.vrs.items self.new.nodes.items self.new.begin self.new.end }
        ensures keys { front_keys self.old.vrs.items self.old.nodes.items ≡ front_keys self.new.vrs.items self.new.nodes.items ++ key_of vr.new result.value ∷ [] }
        ensures loose { IsLoose result.value }
    {
        let last = self.end - 1;
        let node = self.take(last, vr);
        self.end = last;
        node
    }

    /// The place of this key, if it is there.
    fn find(&self, key: &Key) -> Option<usize>
        requires front { IsFront self.now.vrs.items self.now.nodes.items self.now.begin self.now.end }
        ensures from_begin { IfSome result (λ at. self.now.begin ≤ at) }
        ensures to_end { IfSome result (λ at. at < self.now.end) }
        ensures here { IfSome result (λ at. EachKey (λ there. same_key key.now there ≡ true) (keys_at (slice_index self.now.vrs.items at) (slice_index_or self.now.nodes.items at None))) }
        ensures nowhere { IfNone result (has_key key.now (front_keys self.now.vrs.items self.now.nodes.items) ≡ false) }
    {
        for at in self.begin..self.end {
            if self.is_key(at, key) {
                return Some(at);
            }
        }
        None
    }

    /// Moves the nodes behind a free place down by one.
    fn close_gap(&mut self, gap: usize)
        requires gap { HasGap self.old.vrs.items self.old.nodes.items self.old.begin gap (self.old.end - 1) }
        requires some { self.old.begin < self.old.end }
        ensures front { IsFront self.new.vrs.items self.new.nodes.items self.new.begin self.new.end }
        ensures keys { front_keys self.new.vrs.items self.new.nodes.items ≡ front_keys self.old.vrs.items self.old.nodes.items }
    {
        let last = self.end - 1;
        for at in gap..last {
            self.shift(at + 1, at);
        }
        self.end = last;
    }

    /// Takes the node of this key out, if it is there.
    pub(super) fn remove(&mut self, key: &Key) -> Option<Box<Node<A>, A>>
        requires front { IsFront self.old.vrs.items self.old.nodes.items self.old.begin self.old.end }
        requires rising { IsRising (front_keys self.old.vrs.items self.old.nodes.items) }
        ensures front { IsFront self.new.vrs.items self.new.nodes.items self.new.begin self.new.end }
        ensures found { is_some result ≡ has_key key.now (front_keys self.old.vrs.items self.old.nodes.items) }
        ensures unchanged { IfNone result (self.new ≡ self.old) }
        ensures keys { front_keys self.new.vrs.items self.new.nodes.items ≡ removed key.now (front_keys self.old.vrs.items self.old.nodes.items) }
        ensures same_queue { IfSome result (λ node. node.value.queue ≡ key.now.queue) }
        ensures loose { IfSome result (λ node. IsLoose node.value) }
    {
        let at = self.find(key)?;
        let mut vr = 0;
        let node = self.take(at, &mut vr);
        self.close_gap(at);
        Some(node)
    }

    /// Whether one of the keys is of this queue.
    pub(super) fn has_queue(&self, queue: QueueNo) -> bool
        requires front { IsFront self.now.vrs.items self.now.nodes.items self.now.begin self.now.end }
        ensures { result ≡ has_queue queue (front_keys self.now.vrs.items self.now.nodes.items) }
    {
        for at in self.begin..self.end {
            if self.is_of(at, queue) {
                return true;
            }
        }
        false
    }
}
