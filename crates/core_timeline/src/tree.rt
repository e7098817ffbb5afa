//! The tree behind the timeline: balanced nodes, each seen with what hangs on it as keys and a height.
//!
//! A node owns what hangs on it, so a call goes down by borrows and mends the balance on its way back. No side is more than one level
//! higher than the other (AVL). `balance` has the turns, `lead` joins the tree with the front before it.
ghost use Rattle.std.specs.Prelude.{◌≡◌, ◌+◌, ◌^◌, ◌<◌, ◌↔◌, ◌∷◌, true, false, length, Some, is_some, IfSome, IfNone, IsTrue};
ghost use Rattle.core_timeline.specs.Rising.{IsRising, stands_before, first_key, has_key, has_queue, removed};
ghost use Rattle.core_timeline.specs.Tree.{empty_tree, IsFilled};
ghost use Rattle.core_timeline.specs.Nodes.{seen, key_of, keys_of, IsBalanced, IsLoose};

use base_words::{Key, QueueNo};
use std::alloc::Allocator;
use std::marker::Model;
use std::mem;

mod balance;
mod lead;
mod levels;
mod some;

use balance::{parted, tilt};
pub(crate) use lead::{detach, enter, front_len, has_front_queue, leave};

/// A side of a node, or the whole: balanced at every level.
#[cycle(tree)]
#[derive(Drop)]
pub(crate) struct Tree<A: Allocator> {
    root: Link<A>,
}

/// What leads to a node, with that node's virtual runtime.
///
/// The number stands here and not in the node, so that a search compares while the node is still on its way to the processor, and it
/// stands behind the pointer, since before it the number's alignment would make the link half as large again.
#[cycle(tree)]
#[derive(Drop)]
pub(crate) enum Link<A: Allocator> {
    Empty,
    Top(Box<Node<A>, A>, u128),
}

/// Which side of a node is one level higher.
#[derive(Clone, Copy, Drop)]
pub(crate) enum Lean {
    Left,
    Even,
    Right,
}

#[cycle(tree)]
#[derive(Drop)]
pub(crate) struct Node<A: Allocator> {
    left: Tree<A>,
    pub(crate) queue: QueueNo,
    lean: Lean,
    right: Tree<A>,
}

impl<A: Allocator> Model for Tree<A> {
    ghost use Rattle.core_timeline.specs.Tree.{KeyTree};

    ghost Value = { KeyTree };

    ghost use Rattle.std.specs.Prelude.{length};
    ghost use Rattle.core_timeline.specs.Nodes.{seen, IsBalanced};

    ghost view = { λ t. seen t.root };

    ghost invariant = { λ t. IsBalanced t.root };

    ghost size = { λ t. length t.keys };

    ghost use Rattle.std.proofs.Common.{arith, length-append};

    ghost size_decreases = { λ t h. Prim.grind (arith, length-append) };
}

impl<A: Allocator> Tree<A> {
    pub(crate) fn new() -> Self
        ensures { result ≡ empty_tree }
    {
        Tree { root: Link::Empty }
    }

    /// How many levels the tree has. It goes down the higher side.
    pub(crate) fn height(&self) -> usize
        requires { self.now.height < 2 ^ 16 }
        ensures { result ≡ self.now.height }
    {
        match &self.root {
            Link::Empty => 0,
            Link::Top(node, _) => match node.lean {
                Lean::Right => node.right.height() + 1,
                Lean::Left | Lean::Even => node.left.height() + 1,
            },
        }
    }

    /// The least key. It goes down the left side.
    pub(crate) fn least(&self) -> Option<Key>
        ensures { result ≡ first_key self.now.keys }
    {
        match &self.root {
            Link::Empty => None,
            Link::Top(node, vr) => match node.left.least() {
                Some(key) => Some(key),
                None => Some(node.key(*vr)),
            },
        }
    }

    /// For the proofs alone: a tree has as many keys as its height asks for.
    pub(crate) fn know_filled(&self)
        ensures { IsFilled self.now }
    {
        // To look inside is to know the tree's invariant.
        let _root = &self.root;
    }

    pub(crate) fn is_empty(&self) -> bool
        ensures empty { IsTrue result ↔ (self.now ≡ empty_tree) }
        ensures some { result ≡ false → 0 < length self.now.keys }
    {
        match &self.root {
            Link::Empty => true,
            Link::Top(_, _) => false,
        }
    }
}

impl<A: Allocator> Node<A> {
    /// A node with nothing on its sides.
    pub(crate) fn loose(queue: QueueNo) -> Self
        ensures queue { result.queue ≡ queue }
        ensures loose { IsLoose result }
    {
        Node {
            left: Tree::new(),
            queue,
            lean: Lean::Even,
            right: Tree::new(),
        }
    }

    /// The key of the node, which stands at this virtual runtime.
    pub(crate) fn key(&self, vr: u128) -> Key
        ensures { result ≡ key_of vr self.now }
    {
        Key {
            vr,
            queue: self.queue,
        }
    }
}

/// Whether the one key stands before the other. By hand, since a derived comparison asks for an order first.
fn is_before(one: &Key, other: &Key) -> bool
    ensures { result ≡ stands_before one.now other.now }
{
    one.vr < other.vr || (one.vr == other.vr && one.queue.0 < other.queue.0)
}

impl<A: Allocator> Tree<A> {
    fn open(self) -> Link<A>
        ensures same_view { seen result ≡ self }
        ensures balanced { IsBalanced result }
    {
        self.root
    }

    fn close(root: Link<A>) -> Self
        requires { IsBalanced root }
        ensures same_view { result ≡ seen root }
    {
        Tree { root }
    }
}

impl<A: Allocator> Tree<A> {
    /// Whether one of the keys is of this queue.
    pub(crate) fn has_queue(&self, queue: QueueNo) -> bool
        ensures { result ≡ has_queue queue self.now.keys }
    {
        match &self.root {
            Link::Empty => false,
            Link::Top(node, _) => {
                node.queue == queue || node.left.has_queue(queue) || node.right.has_queue(queue)
            }
        }
    }

    /// Takes the node of this key out, if it is there, and tells whether the tree is one level lower.
    #[tactic(auto, using(crate::proofs::Rising::around))]
    pub(crate) fn remove(&mut self, key: &Key) -> Option<(Box<Node<A>, A>, bool)>
        requires { IsRising self.old.keys }
        ensures found { is_some result ≡ has_key key.now self.old.keys }
        ensures unchanged { IfNone result (self.new ≡ self.old) }
        ensures keys { self.new.keys ≡ removed key.now self.old.keys }
        ensures same_queue { IfSome result (λ taken. taken.0.value.queue ≡ key.now.queue) }
        ensures loose { IfSome result (λ taken. IsLoose taken.0.value) }
        ensures lower { IfSome result (λ taken. taken.1 ≡ true → self.old.height ≡ self.new.height + 1) }
        ensures as_high { IfSome result (λ taken. taken.1 ≡ false → self.old.height ≡ self.new.height) }
    {
        if let Link::Top(top, vr) = &mut self.root {
            let here = top.key(*vr);
            let behind = is_before(&here, key);
            if behind || is_before(key, &here) {
                let top: &mut Node<A> = top;
                let side = top.side_mut(behind);
                let (node, lower) = side.remove(key)?;
                side.know_filled();
                if !lower {
                    return Some((node, false));
                }
                return Some((node, tilt(&mut self.root, !behind)));
            }
        }
        match mem::replace(&mut self.root, Link::Empty) {
            Link::Top(top, _) => {
                let (node, rest, lower) = parted(top);
                self.root = rest.open();
                Some((node, lower))
            }
            Link::Empty => None,
        }
    }
}
