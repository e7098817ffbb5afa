//! The keys of the active queues, least first.
//!
//! - A key comes and goes with the slip of its queue, which is its node. `move_least` alone changes a key and asks for no slip.
//! - `first` is a front for the least keys, if there is one. `later` has a key only while `first` has one too.
//! - `len` counts both, so that a look at the count goes through neither.
ghost use Rattle.std.specs.Prelude.{◌≡◌, ◌≢◌, ◌≤◌, ◌↔◌, false, List, [], ◌∷◌, length, IsTrue, IsNone, IsSome, IfSome, IfNone, IfOk, Contains};
ghost use Rattle.core_timeline.specs.Rising.{LacksQueue, IsRising, HasDistinctQueues, has_queue, inserted, removed, first_key};
ghost use Rattle.core_timeline.specs.Tree.{empty_tree, IsLow};
ghost use Rattle.core_timeline.specs.Led.{levels};

use crate::front::Front;
use crate::slip::Slip;
use crate::slips::Slips;
use crate::tree::{Tree, detach, enter, front_len, has_front_queue, leave};
use base_words::{Key, QueueNo};
use std::alloc::{AllocError, Allocator};
use std::marker::Model;

/// The keys of the active queues, at most one of each queue: the least ones in a front of few places, if it has one, and the others in a
/// balanced tree.
///
/// The front's places lie behind pointers. An array in each type that holds a timeline would make every proof about such a type longer.
pub struct Timeline<A: Allocator> {
    first: Option<Front<A>>,
    later: Tree<A>,
    len: usize,
}

impl<A: Allocator> Model for Timeline<A> {
    ghost use Rattle.std.specs.Prelude.{◌≡◌, length};
    ghost use Rattle.core_timeline.specs.Tree.{KeyTree};
    ghost use Rattle.core_timeline.specs.Rising.{IsOfQueues};
    ghost use Rattle.core_timeline.specs.Led.{led, led_keys, front_of, IsFronted};

    ghost Value = { KeyTree };

    ghost view = { λ t. led (front_of t.first) t.later };

    ghost invariant = { λ t. IsOfQueues (led_keys (front_of t.first) t.later) × (t.len ≡ length (led_keys (front_of t.first) t.later)) × IsFronted t.first t.later };
}

// Written out: a derived drop is proved again in each crate above.
impl<A: Allocator> Drop for Timeline<A> {
    fn drop(self) {
        let Timeline {
            first,
            later,
            len: _,
        } = self;
        drop(first);
        drop(later);
    }
}

impl<A: Allocator + Clone> Timeline<A> {
    /// A timeline of no queue, with a front. It asks the allocator for that, and for nothing later.
    ///
    /// # Errors
    ///
    /// If the allocator has no room for the places of the front, 2 kB.
    pub fn with_front(alloc: A) -> Result<Self, AllocError>
        ensures { IfOk result (λ timeline. timeline ≡ empty_tree) }
    {
        Ok(Timeline {
            first: Some(Front::with_places(alloc)?),
            later: Tree::new(),
            len: 0,
        })
    }
}

impl<A: Allocator> Timeline<A> {
    /// A timeline of no queue, and without a front: all keys are in the tree.
    pub fn new() -> Self
        ensures { result ≡ empty_tree }
    {
        Timeline {
            first: None,
            later: Tree::new(),
            len: 0,
        }
    }

    /// Puts the slip's queue into the timeline at this virtual runtime.
    #[inline(always)]
    pub fn insert(&mut self, slip: Slip<A>, vr: u128)
        requires absent { LacksQueue slip self.old.keys }
        ensures keys { self.new.keys ≡ inserted (record { vr = vr; queue = slip }) self.old.keys }
    {
        enter(&mut self.first, &mut self.later, slip.into_node(), vr);
        self.len += 1;
    }

    /// The least key.
    #[inline(always)]
    pub fn least(&self) -> Option<Key>
        ensures { result ≡ first_key self.now.keys }
    {
        match &self.first {
            Some(front) => front.least(),
            None => self.later.least(),
        }
    }

    /// Takes the queue of the least key out, with its slip.
    pub fn take_least(&mut self) -> Option<(Key, Slip<A>)>
        ensures empty { IsNone result ↔ (self.old.keys ≡ []) }
        ensures unchanged { IfNone result (self.new ≡ self.old) }
        ensures least { IfSome result (λ taken. self.old.keys ≡ taken.0 ∷ self.new.keys) }
        ensures slip { IfSome result (λ taken. taken.1 ≡ taken.0.queue) }
        ensures absent { IfSome result (λ taken. LacksQueue taken.0.queue self.new.keys) }
        ensures rising { IsRising self.old.keys }
    {
        if self.len == 0 {
            return None;
        }
        let mut vr = 0;
        let node = leave(&mut self.first, &mut self.later, &mut vr);
        self.len -= 1;
        Some((node.key(vr), Slip::from_node(node)))
    }

    /// Gives the queue of the least key another virtual runtime. Its node stays in its place if it is the only one.
    #[inline(always)]
    pub fn move_least(&mut self, vr: u128)
        requires { self.old.keys ≢ [] }
        ensures { (least : Key) → (later : List Key) → self.old.keys ≡ least ∷ later → self.new.keys ≡ inserted (record { vr = vr; queue = least.queue }) later }
    {
        if self.len != 1 {
            self.move_along(vr);
            return;
        }
        match &mut self.first {
            Some(front) => front.move_only(vr),
            None => self.move_along(vr),
        }
    }

    /// The same: its node is taken out, and put into the place of its key.
    #[inline(never)]
    fn move_along(&mut self, vr: u128)
        requires { self.old.keys ≢ [] }
        ensures { (least : Key) → (later : List Key) → self.old.keys ≡ least ∷ later → self.new.keys ≡ inserted (record { vr = vr; queue = least.queue }) later }
    {
        let Some((_key, slip)) = self.take_least() else {
            unreachable!()
        };
        self.insert(slip, vr);
    }

    /// Takes the queue of this key out, if the key is there, and gives its slip.
    pub fn remove(&mut self, key: Key) -> Option<Slip<A>>
        ensures found { IsSome result ↔ Contains self.old.keys key }
        ensures unchanged { IfNone result (self.new ≡ self.old) }
        ensures keys { self.new.keys ≡ removed key self.old.keys }
        ensures slip { IfSome result (λ slip. slip ≡ key.queue) }
        ensures absent { IfSome result (λ slip. LacksQueue slip self.new.keys) }
    {
        let node = detach(&mut self.first, &mut self.later, &key)?;
        self.len -= 1;
        Some(Slip::from_node(node))
    }

    /// How many queues are in the timeline: at most 256.
    pub fn len(&self) -> usize
        ensures value { result ≡ length self.now.keys }
        ensures few { result ≤ 256 }
        ensures rising { IsRising self.now.keys }
        ensures distinct { HasDistinctQueues self.now.keys }
    {
        self.len
    }

    /// Whether no queue is in the timeline.
    pub fn is_empty(&self) -> bool
        ensures { IsTrue result ↔ (self.now.keys ≡ []) }
    {
        self.len() == 0
    }

    /// Whether this queue is in the timeline. It looks at each of them.
    pub fn has_queue(&self, queue: QueueNo) -> bool
        ensures value { result ≡ has_queue queue self.now.keys }
        ensures absent { result ≡ false → LacksQueue queue self.now.keys }
    {
        has_front_queue(&self.first, queue) || self.later.has_queue(queue)
    }

    /// How many levels the tree has, or a tree of the front's keys alone if that has more: what a search goes through at most.
    pub fn height(&self) -> usize
        ensures value { result ≡ self.now.height }
        ensures low { IsLow self.now }
    {
        self.later.know_filled();
        levels(front_len(&self.first)).max(self.later.height())
    }

    /// All slips, by rising key.
    pub fn into_slips(self) -> Slips<A>
        ensures { result ≡ self.keys }
    {
        Slips::new(self)
    }
}

/// How many levels a balanced tree of so few keys has at least.
fn levels(count: usize) -> usize
    ensures { result ≡ levels count }
{
    match count {
        0 => 0,
        1 => 1,
        2..=3 => 2,
        4..=7 => 3,
        8..=15 => 4,
        16..=31 => 5,
        _ => 6,
    }
}
