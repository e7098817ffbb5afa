//! The front of a timeline with the tree of the later nodes.
//!
//! A turn of a core looks at the least key, takes it out, and puts it back behind others. A look at the front takes no way down, and a
//! timeline of few queues has no tree to go through.
ghost use Rattle.std.specs.Prelude.{◌≡◌, ◌≢◌, ◌<◌, ◌≤◌, [], ◌∷◌, length, is_some, IfSome, IfNone};
ghost use Rattle.core_timeline.specs.Rising.{IsRising, LacksQueue, has_key, has_queue, inserted, removed};
ghost use Rattle.core_timeline.specs.Nodes.{key_of, IsLoose};
ghost use Rattle.core_timeline.specs.Led.{led_keys, front_of, IsLed, IsFronted};

use super::{Node, Tree};
use crate::front::Front;
use base_words::{Key, QueueNo};
use std::alloc::Allocator;

/// How many keys the front has, if there is one.
pub(crate) fn front_len<A: Allocator>(first: &Option<Front<A>>) -> usize
    ensures { result ≡ length (front_of first.now) }
{
    match first {
        Some(front) => front.len(),
        None => 0,
    }
}

/// Whether one of the front's keys is of this queue.
pub(crate) fn has_front_queue<A: Allocator>(first: &Option<Front<A>>, queue: QueueNo) -> bool
    ensures { result ≡ has_queue queue (front_of first.now) }
{
    match first {
        Some(front) => front.has_queue(queue),
        None => false,
    }
}

/// Puts a node in the place of its key: into the tree, if there is no front.
#[inline(always)]
pub(crate) fn enter<A: Allocator>(
    first: &mut Option<Front<A>>,
    later: &mut Tree<A>,
    node: Box<Node<A>, A>,
    vr: u128,
)
    requires loose { IsLoose node.value }
    requires fronted { IsFronted first.old later.old }
    requires rising { IsRising (led_keys (front_of first.old) later.old) }
    requires absent { LacksQueue node.value.queue (led_keys (front_of first.old) later.old) }
    ensures keys { led_keys (front_of first.new) later.new ≡ inserted (key_of vr node.value) (led_keys (front_of first.old) later.old) }
    ensures fronted { IsFronted first.new later.new }
{
    match first {
        Some(front) => enter_front(front, later, node, vr),
        None => {
            later.insert(node, vr);
        }
    }
}

/// Puts a node in the place of its key: into the front, if that has room and all that is there, or else if the key stands before its last.
#[inline(always)]
fn enter_front<A: Allocator>(
    first: &mut Front<A>,
    later: &mut Tree<A>,
    node: Box<Node<A>, A>,
    vr: u128,
)
    requires loose { IsLoose node.value }
    requires led { IsLed first.old later.old }
    requires rising { IsRising (led_keys first.old later.old) }
    requires absent { LacksQueue node.value.queue (led_keys first.old later.old) }
    ensures keys { led_keys first.new later.new ≡ inserted (key_of vr node.value) (led_keys first.old later.old) }
    ensures led { IsLed first.new later.new }
{
    if later.is_empty() && !first.is_full() {
        first.insert(node, vr);
    } else {
        enter_either(first, later, node, vr);
    }
}

/// Puts a node into the tree, if its key stands behind all of the front, and else into the front, whose last node gives way if it is full.
#[inline(never)]
fn enter_either<A: Allocator>(
    first: &mut Front<A>,
    later: &mut Tree<A>,
    node: Box<Node<A>, A>,
    vr: u128,
)
    requires loose { IsLoose node.value }
    requires some { first.old ≢ [] }
    requires rising { IsRising (led_keys first.old later.old) }
    requires absent { LacksQueue node.value.queue (led_keys first.old later.old) }
    ensures keys { led_keys first.new later.new ≡ inserted (key_of vr node.value) (led_keys first.old later.old) }
    ensures some { first.new ≢ [] }
{
    if first.stands_before(vr, node.queue) {
        later.insert(node, vr);
        return;
    }
    if !first.is_full() {
        first.insert(node, vr);
        return;
    }
    let mut at = 0;
    let last = first.take_last(&mut at);
    later.insert(last, at);
    first.insert(node, vr);
}

/// Fills the front from the tree if the front is empty.
#[inline(always)]
fn follow<A: Allocator>(first: &mut Front<A>, later: &mut Tree<A>)
    requires few { length later.old.keys ≤ 256 }
    ensures keys { led_keys first.new later.new ≡ led_keys first.old later.old }
    ensures led { IsLed first.new later.new }
{
    if first.is_empty() && !later.is_empty() {
        refill(first, later);
    }
}

/// Takes some of the least nodes from the tree to the front.
#[inline(never)]
fn refill<A: Allocator>(first: &mut Front<A>, later: &mut Tree<A>)
    requires free { first.old ≡ [] }
    requires some { 0 < length later.old.keys }
    requires few { length later.old.keys ≤ 256 }
    ensures keys { led_keys first.new later.new ≡ later.old.keys }
    ensures some { first.new ≢ [] }
{
    later.know_filled();
    let height = later.height();
    let mut vr = 0;
    let (some, node, _lower) = later.take_some(height, &mut vr);
    some.pour(first);
    first.push(node, vr);
}

/// Takes the least node, of which there has to be one. Its virtual runtime is written to `vr`.
#[inline(always)]
pub(crate) fn leave<A: Allocator>(
    first: &mut Option<Front<A>>,
    later: &mut Tree<A>,
    vr: &mut u128,
) -> Box<Node<A>, A>
    requires some { 0 < length (led_keys (front_of first.old) later.old) }
    requires fronted { IsFronted first.old later.old }
    requires few { length later.old.keys ≤ 256 }
    ensures keys { led_keys (front_of first.old) later.old ≡ key_of vr.new result.value ∷ led_keys (front_of first.new) later.new }
    ensures loose { IsLoose result.value }
    ensures fronted { IsFronted first.new later.new }
{
    match first {
        Some(front) => leave_front(front, later, vr),
        None => {
            let (node, _lower) = later.take_first(vr);
            node
        }
    }
}

/// Takes the first node of the front. Its virtual runtime is written to `vr`.
#[inline(always)]
fn leave_front<A: Allocator>(
    first: &mut Front<A>,
    later: &mut Tree<A>,
    vr: &mut u128,
) -> Box<Node<A>, A>
    requires some { first.old ≢ [] }
    requires few { length later.old.keys ≤ 256 }
    ensures keys { led_keys first.old later.old ≡ key_of vr.new result.value ∷ led_keys first.new later.new }
    ensures loose { IsLoose result.value }
    ensures led { IsLed first.new later.new }
{
    let node = first.take_first(vr);
    follow(first, later);
    node
}

/// Takes the node of this key out, if it is there.
pub(crate) fn detach<A: Allocator>(
    first: &mut Option<Front<A>>,
    later: &mut Tree<A>,
    key: &Key,
) -> Option<Box<Node<A>, A>>
    requires fronted { IsFronted first.old later.old }
    requires few { length later.old.keys ≤ 256 }
    requires rising { IsRising (led_keys (front_of first.old) later.old) }
    ensures found { is_some result ≡ has_key key.now (led_keys (front_of first.old) later.old) }
    ensures unchanged { IfNone result ((front_of first.new ≡ front_of first.old) × (later.new ≡ later.old)) }
    ensures keys { led_keys (front_of first.new) later.new ≡ removed key.now (led_keys (front_of first.old) later.old) }
    ensures same_queue { IfSome result (λ node. node.value.queue ≡ key.now.queue) }
    ensures loose { IfSome result (λ node. IsLoose node.value) }
    ensures fronted { IsFronted first.new later.new }
{
    match first {
        Some(front) => detach_fronted(front, later, key),
        None => {
            let (node, _lower) = later.remove(key)?;
            Some(node)
        }
    }
}

/// Takes the node of this key out of the front or of the tree, if it is there.
#[tactic(auto, using(crate::proofs::Leading::of_both))]
fn detach_fronted<A: Allocator>(
    first: &mut Front<A>,
    later: &mut Tree<A>,
    key: &Key,
) -> Option<Box<Node<A>, A>>
    requires led { IsLed first.old later.old }
    requires few { length later.old.keys ≤ 256 }
    requires rising { IsRising (led_keys first.old later.old) }
    ensures found { is_some result ≡ has_key key.now (led_keys first.old later.old) }
    ensures unchanged { IfNone result ((first.new ≡ first.old) × (later.new ≡ later.old)) }
    ensures keys { led_keys first.new later.new ≡ removed key.now (led_keys first.old later.old) }
    ensures same_queue { IfSome result (λ node. node.value.queue ≡ key.now.queue) }
    ensures loose { IfSome result (λ node. IsLoose node.value) }
    ensures led { IsLed first.new later.new }
{
    if let Some(node) = first.remove(key) {
        follow(first, later);
        return Some(node);
    }
    let (node, _lower) = later.remove(key)?;
    Some(node)
}
