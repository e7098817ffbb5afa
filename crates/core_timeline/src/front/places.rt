//! The places of a front, and what takes and moves the nodes in them.
//!
//! The taken places lie side by side, from `begin` to `end`, with their keys in rising order. The least node leaves without a move of any
//! other. A node that comes moves those behind its place by one, and where the last place is taken, all move to the first places before.
ghost use Rattle.std.specs.Prelude.{◌≡◌, ℕ, ◌+◌, ◌-◌, ◌<◌, ◌==◌, [], ◌∷◌, None, Some, true, false, length, slice_index, slice_index_or, slice_set, IfOk};
ghost use Rattle.core_timeline.specs.Rising.{stands_before, same_key, EachKey};
ghost use Rattle.core_timeline.specs.Front.{front_keys, keys_at, IsTaken, IsFront, HasGap};
ghost use Rattle.core_timeline.specs.Nodes.{IsLoose};

use super::PLACES;
use crate::tree::Node;
use base_sealed::SealedVec;
use base_words::{Key, QueueNo};
use std::alloc::{AllocError, Allocator};
use std::mem;

/// Nodes, each with its virtual runtime, in the places from `begin` to `end`. All others are free.
///
/// No invariant says so, since a place between them is free while a node comes or goes.
#[derive(Drop)]
pub(super) struct Places<A: Allocator> {
    pub(super) vrs: SealedVec<u128, A>,
    pub(super) nodes: SealedVec<Option<Box<Node<A>, A>>, A>,
    pub(super) begin: usize,
    pub(super) end: usize,
}

impl<A: Allocator + Clone> Places<A> {
    /// Free places alone.
    pub(super) fn free(alloc: A) -> Result<Self, AllocError>
        ensures front { IfOk result (λ places. IsFront places.vrs.items places.nodes.items places.begin places.end) }
        ensures keys { IfOk result (λ places. front_keys places.vrs.items places.nodes.items ≡ []) }
    {
        let vrs = Vec::from_elem(alloc.clone()?, 0, PLACES)?;
        let nodes = without_nodes(alloc)?;
        Ok(Places {
            vrs: SealedVec::sealed(vrs),
            nodes,
            begin: 0,
            end: 0,
        })
    }
}

/// The nodes of free places.
fn without_nodes<A: Allocator>(
    alloc: A,
) -> Result<SealedVec<Option<Box<Node<A>, A>>, A>, AllocError>
    ensures long { IfOk result (λ nodes. length nodes.items ≡ 64) }
    ensures free { IfOk result (λ nodes. (k : ℕ) → slice_index_or nodes.items k None ≡ None) }
{
    let mut nodes = Vec::with_capacity(alloc, PLACES)?;
    for _ in 0..PLACES {
        nodes.push_reserved(None);
    }
    Ok(SealedVec::sealed(nodes))
}

impl<A: Allocator> Places<A> {
    /// The queue of the node in this place.
    #[inline]
    pub(super) fn queue_at(&self, at: usize) -> QueueNo
        requires nodes { length self.now.nodes.items ≡ 64 }
        requires within { at < 64 }
        requires taken { IsTaken (slice_index_or self.now.nodes.items at None) }
        ensures { (vr : ℕ) → keys_at vr (slice_index_or self.now.nodes.items at None) ≡ (record { vr = vr; queue = result }) ∷ [] }
    {
        match &self.nodes[at] {
            Some(node) => node.queue,
            None => unreachable!(),
        }
    }

    /// Whether the key of this place stands before another one. The queue is behind a pointer, and only asked for where the virtual
    /// runtimes are the same.
    #[inline]
    pub(super) fn is_before(&self, at: usize, vr: u128, queue: QueueNo) -> bool
        requires vrs { length self.now.vrs.items ≡ 64 }
        requires nodes { length self.now.nodes.items ≡ 64 }
        requires within { at < 64 }
        requires taken { IsTaken (slice_index_or self.now.nodes.items at None) }
        ensures { EachKey (λ there. result ≡ stands_before there (record { vr = vr; queue = queue })) (keys_at (slice_index self.now.vrs.items at) (slice_index_or self.now.nodes.items at None)) }
    {
        let there = self.vrs[at];
        there < vr || (there == vr && self.queue_at(at).0 < queue.0)
    }

    /// Whether the key of this place stands behind another one.
    #[inline]
    pub(super) fn is_behind(&self, at: usize, vr: u128, queue: QueueNo) -> bool
        requires vrs { length self.now.vrs.items ≡ 64 }
        requires nodes { length self.now.nodes.items ≡ 64 }
        requires within { at < 64 }
        requires taken { IsTaken (slice_index_or self.now.nodes.items at None) }
        ensures { EachKey (λ there. result ≡ stands_before (record { vr = vr; queue = queue }) there) (keys_at (slice_index self.now.vrs.items at) (slice_index_or self.now.nodes.items at None)) }
    {
        let there = self.vrs[at];
        vr < there || (vr == there && queue.0 < self.queue_at(at).0)
    }

    /// Whether this is the key of this place.
    pub(super) fn is_key(&self, at: usize, key: &Key) -> bool
        requires vrs { length self.now.vrs.items ≡ 64 }
        requires nodes { length self.now.nodes.items ≡ 64 }
        requires within { at < 64 }
        requires taken { IsTaken (slice_index_or self.now.nodes.items at None) }
        ensures { EachKey (λ there. result ≡ same_key key.now there) (keys_at (slice_index self.now.vrs.items at) (slice_index_or self.now.nodes.items at None)) }
    {
        key.vr == self.vrs[at] && key.queue == self.queue_at(at)
    }

    /// Whether the key of this place is of this queue.
    pub(super) fn is_of(&self, at: usize, queue: QueueNo) -> bool
        requires nodes { length self.now.nodes.items ≡ 64 }
        requires within { at < 64 }
        requires taken { IsTaken (slice_index_or self.now.nodes.items at None) }
        ensures { EachKey (λ there. result ≡ (there.queue == queue)) (keys_at (slice_index self.now.vrs.items at) (slice_index_or self.now.nodes.items at None)) }
    {
        self.queue_at(at) == queue
    }

    /// Puts a node into a free place.
    #[inline]
    pub(super) fn put(&mut self, at: usize, node: Box<Node<A>, A>, vr: u128)
        requires vrs { length self.old.vrs.items ≡ 64 }
        requires nodes { length self.old.nodes.items ≡ 64 }
        requires within { at < 64 }
        ensures vrs { self.new.vrs.items ≡ slice_set self.old.vrs.items at vr }
        ensures nodes { self.new.nodes.items ≡ slice_set self.old.nodes.items at (Some node) }
        ensures begin { self.new.begin ≡ self.old.begin }
        ensures end { self.new.end ≡ self.old.end }
    {
        self.vrs[at] = vr;
        mem::forget(mem::replace(&mut self.nodes[at], Some(node)));
    }

    /// Takes the node out of a place. Its virtual runtime is written to `vr`.
    #[inline]
    pub(super) fn take(&mut self, at: usize, vr: &mut u128) -> Box<Node<A>, A>
        requires vrs { length self.old.vrs.items ≡ 64 }
        requires nodes { length self.old.nodes.items ≡ 64 }
        requires within { at < 64 }
        requires taken { IsTaken (slice_index_or self.old.nodes.items at None) }
        ensures here { slice_index_or self.old.nodes.items at None ≡ Some result }
        ensures vr { vr.new ≡ slice_index self.old.vrs.items at }
        ensures loose { IsLoose result.value }
        ensures vrs { self.new.vrs.items ≡ self.old.vrs.items }
        ensures nodes { self.new.nodes.items ≡ slice_set self.old.nodes.items at None }
        ensures begin { self.new.begin ≡ self.old.begin }
        ensures end { self.new.end ≡ self.old.end }
    {
        *vr = self.vrs[at];
        match self.nodes[at].take() {
            Some(node) => node,
            None => unreachable!(),
        }
    }

    /// Moves the node of a place into a free one. Nothing has to be dropped.
    #[inline]
    pub(super) fn shift(&mut self, from: usize, to: usize)
        requires vrs { length self.old.vrs.items ≡ 64 }
        requires nodes { length self.old.nodes.items ≡ 64 }
        requires from { from < 64 }
        requires to { to < 64 }
        ensures vrs { self.new.vrs.items ≡ slice_set self.old.vrs.items to (slice_index self.old.vrs.items from) }
        ensures nodes { self.new.nodes.items ≡ slice_set (slice_set self.old.nodes.items from None) to (slice_index_or self.old.nodes.items from None) }
        ensures begin { self.new.begin ≡ self.old.begin }
        ensures end { self.new.end ≡ self.old.end }
    {
        self.vrs[to] = self.vrs[from];
        let node = self.nodes[from].take();
        mem::forget(mem::replace(&mut self.nodes[to], node));
    }

    /// Whether the place in front of a free one is taken by a key that stands behind this one.
    #[inline]
    pub(super) fn goes_before(&self, at: usize, vr: u128, queue: QueueNo) -> bool
        requires gap { HasGap self.now.vrs.items self.now.nodes.items self.now.begin at self.now.end }
        ensures before { result ≡ true → (self.now.begin < at) × EachKey (λ there. stands_before (record { vr = vr; queue = queue }) there ≡ true) (keys_at (slice_index self.now.vrs.items (at - 1)) (slice_index_or self.now.nodes.items (at - 1) None)) }
        ensures here { result ≡ false → self.now.begin < at → EachKey (λ there. stands_before (record { vr = vr; queue = queue }) there ≡ false) (keys_at (slice_index self.now.vrs.items (at - 1)) (slice_index_or self.now.nodes.items (at - 1) None)) }
    {
        if at == self.begin {
            return false;
        }
        self.is_behind(at - 1, vr, queue)
    }

    /// Moves all nodes to the first places.
    #[cold]
    fn compact(&mut self)
        requires front { IsFront self.old.vrs.items self.old.nodes.items self.old.begin self.old.end }
        requires moved { 0 < self.old.begin }
        ensures front { IsFront self.new.vrs.items self.new.nodes.items self.new.begin self.new.end }
        ensures keys { front_keys self.new.vrs.items self.new.nodes.items ≡ front_keys self.old.vrs.items self.old.nodes.items }
        ensures begin { self.new.begin ≡ 0 }
        ensures end { self.new.end + self.old.begin ≡ self.old.end }
    {
        let begin = self.begin;
        let count = self.end - begin;
        for at in 0..count {
            self.shift(begin + at, at);
        }
        self.begin = 0;
        self.end = count;
    }

    /// Sees to it that the place behind the last node is there.
    #[inline]
    pub(super) fn make_room(&mut self)
        requires front { IsFront self.old.vrs.items self.old.nodes.items self.old.begin self.old.end }
        requires room { length (front_keys self.old.vrs.items self.old.nodes.items) < 32 }
        ensures gap { HasGap self.new.vrs.items self.new.nodes.items self.new.begin self.new.end self.new.end }
        ensures keys { front_keys self.new.vrs.items self.new.nodes.items ≡ front_keys self.old.vrs.items self.old.nodes.items }
        ensures few { self.new.end < self.new.begin + 32 }
    {
        if self.end == PLACES {
            self.compact();
        }
    }
}
