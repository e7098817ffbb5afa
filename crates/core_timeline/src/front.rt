//! The front of a timeline: its least nodes in rising order, before the tree of the later ones.
//!
//! Most cores have few queues. As long as these fit the front, a turn moves two or three of them by a place, and goes down no tree.
ghost use Rattle.std.specs.Prelude.{◌≡◌, ◌≢◌, ◌+◌, ◌<◌, ◌≤◌, ◌↔◌, true, false, [], ◌∷◌, ◌++◌, length, is_some, IsTrue, IfSome, IfNone, IfOk};
ghost use Rattle.core_timeline.specs.Rising.{IsRising, LastStandsBefore, has_key, has_queue, inserted, removed, first_key};
ghost use Rattle.core_timeline.specs.Nodes.{key_of, IsLoose};

mod moves;
mod places;

use crate::tree::Node;
use base_words::{Key, QueueNo};
use places::Places;
use std::alloc::{AllocError, Allocator};
use std::marker::Model;

/// How many nodes the front holds at most.
pub(crate) const MOST: usize = 32;

/// How many places it has. Those of nodes that left lie before the others, so nodes move to the first places once in so many turns.
const PLACES: usize = 64;

/// The least nodes, each with its virtual runtime. It is seen as their keys.
#[derive(Drop)]
pub(crate) struct Front<A: Allocator> {
    places: Places<A>,
}

impl<A: Allocator> Model for Front<A> {
    ghost use Rattle.std.specs.Prelude.{List};
    ghost use Rattle.base_words.specs.declared.names.Key.{Key};
    ghost use Rattle.core_timeline.specs.Front.{front_keys, IsFront};

    ghost Value = { List Key };

    ghost view = { λ f. front_keys f.places.vrs.items f.places.nodes.items };

    ghost invariant = { λ f. IsFront f.places.vrs.items f.places.nodes.items f.places.begin f.places.end };
}

impl<A: Allocator + Clone> Front<A> {
    /// A front of no node, with all its places.
    pub(crate) fn with_places(alloc: A) -> Result<Self, AllocError>
        ensures { IfOk result (λ front. front ≡ []) }
    {
        Ok(Front {
            places: Places::free(alloc)?,
        })
    }
}

impl<A: Allocator> Front<A> {
    /// How many nodes it holds.
    #[inline]
    pub(crate) fn len(&self) -> usize
        ensures value { result ≡ length self.now }
        ensures few { result ≤ 32 }
    {
        self.places.end - self.places.begin
    }

    #[inline]
    pub(crate) fn is_empty(&self) -> bool
        ensures { IsTrue result ↔ (self.now ≡ []) }
    {
        self.len() == 0
    }

    /// Whether it has room for no further node.
    #[inline]
    pub(crate) fn is_full(&self) -> bool
        ensures full { result ≡ false → length self.now < 32 }
        ensures some { result ≡ true → self.now ≢ [] }
        ensures few { length self.now ≤ 32 }
    {
        self.len() == MOST
    }

    /// The least key.
    #[inline]
    pub(crate) fn least(&self) -> Option<Key>
        ensures { result ≡ first_key self.now }
    {
        let first = self.places.begin;
        if first == self.places.end {
            return None;
        }
        Some(Key {
            vr: self.places.vrs[first],
            queue: self.places.queue_at(first),
        })
    }

    /// Whether its last node stands before this key.
    #[inline]
    pub(crate) fn stands_before(&self, vr: u128, queue: QueueNo) -> bool
        requires { self.now ≢ [] }
        ensures { IsTrue result ↔ LastStandsBefore self.now (record { vr = vr; queue = queue }) }
    {
        self.places.is_before(self.places.end - 1, vr, queue)
    }

    /// Puts a node behind all others.
    #[inline(always)]
    pub(crate) fn push(&mut self, node: Box<Node<A>, A>, vr: u128)
        requires loose { IsLoose node.value }
        requires room { length self.old < 32 }
        ensures { self.new ≡ self.old ++ key_of vr node.value ∷ [] }
    {
        self.places.push(node, vr);
    }

    /// Puts a node in the place of its key. A core of one ready queue has no other key, so that way stands inline.
    #[inline(always)]
    pub(crate) fn insert(&mut self, node: Box<Node<A>, A>, vr: u128)
        requires loose { IsLoose node.value }
        requires rising { IsRising self.old }
        requires room { length self.old < 32 }
        ensures { self.new ≡ inserted (key_of vr node.value) self.old }
    {
        if self.is_empty() {
            self.push(node, vr);
        } else {
            self.places.insert(node, vr);
        }
    }

    /// Gives the only node another virtual runtime.
    #[inline]
    pub(crate) fn move_only(&mut self, vr: u128)
        requires { length self.old ≡ 1 }
        ensures { (key : Key) → self.old ≡ key ∷ [] → self.new ≡ (record { vr = vr; queue = key.queue }) ∷ [] }
    {
        let first = self.places.begin;
        self.places.vrs[first] = vr;
    }

    /// Takes the first node out. Its virtual runtime is written to `vr`.
    #[inline]
    pub(crate) fn take_first(&mut self, vr: &mut u128) -> Box<Node<A>, A>
        requires { self.old ≢ [] }
        ensures keys { self.old ≡ key_of vr.new result.value ∷ self.new }
        ensures loose { IsLoose result.value }
    {
        self.places.take_first(vr)
    }

    /// Takes the last node out. Its virtual runtime is written to `vr`.
    pub(crate) fn take_last(&mut self, vr: &mut u128) -> Box<Node<A>, A>
        requires { self.old ≢ [] }
        ensures keys { self.old ≡ self.new ++ key_of vr.new result.value ∷ [] }
        ensures loose { IsLoose result.value }
    {
        self.places.take_last(vr)
    }

    /// Takes the node of this key out, if it is there.
    pub(crate) fn remove(&mut self, key: &Key) -> Option<Box<Node<A>, A>>
        requires { IsRising self.old }
        ensures found { is_some result ≡ has_key key.now self.old }
        ensures unchanged { IfNone result (self.new ≡ self.old) }
        ensures keys { self.new ≡ removed key.now self.old }
        ensures same_queue { IfSome result (λ node. node.value.queue ≡ key.now.queue) }
        ensures loose { IfSome result (λ node. IsLoose node.value) }
    {
        self.places.remove(key)
    }

    /// Whether one of the keys is of this queue.
    pub(crate) fn has_queue(&self, queue: QueueNo) -> bool
        ensures { result ≡ has_queue queue self.now }
    {
        self.places.has_queue(queue)
    }
}
