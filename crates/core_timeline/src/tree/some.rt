//! Many nodes at once: some of the least ones leave the tree, and go to the front of the timeline.
ghost use Rattle.std.specs.Prelude.{◌≡◌, ◌+◌, ◌<◌, ◌≤◌, ◌∷◌, ◌++◌, true, false, max, length};
ghost use Rattle.core_timeline.specs.Tree.{IsFilled};
ghost use Rattle.core_timeline.specs.Nodes.{seen, key_of, IsInBalance, IsBalanced, IsLoose, IsLowOnLeft};

use super::balance::{take, tilt};
use super::{Lean, Link, Node, Tree};
use crate::front::Front;
use std::alloc::Allocator;
use std::mem;

/// How high a tree is at most whose left side goes to the front at once. Such a side has five levels at most, and so 31 nodes. With
/// the one above them these fill a front.
const LOW: usize = 6;

/// Takes the top node out and its left side, which isn't higher than the right one, and leaves what is on its right. The node's
/// virtual runtime is written to `vr`.
fn without_left_side<A: Allocator>(root: &mut Link<A>, vr: &mut u128) -> (Tree<A>, Box<Node<A>, A>)
    requires balanced { IsBalanced root.old }
    requires low { IsLowOnLeft root.old }
    ensures balanced { IsBalanced root.new }
    ensures first { (seen root.old).keys ≡ result.0.keys ++ key_of vr.new result.1.value ∷ (seen root.new).keys }
    ensures filled { IsFilled result.0 }
    ensures loose { IsLoose result.1.value }
    ensures low { result.0.height ≤ (seen root.new).height }
    ensures one_lower { (seen root.old).height ≡ (seen root.new).height + 1 }
{
    match mem::replace(root, Link::Empty) {
        Link::Empty => unreachable!(),
        Link::Top(mut top, top_vr) => {
            let side = take(&mut top.left);
            mem::forget(mem::replace(root, take(&mut top.right).open()));
            *vr = top_vr;
            (side, top)
        }
    }
}

impl<A: Allocator> Node<A> {
    /// Whether the left side goes to the front as a whole, where the node's tree has so many levels. If the node leans left, it can't:
    /// the right side, which takes the place of both, would be two levels lower than the tree.
    fn gives_left_side(&self, height: usize) -> bool
        requires balanced { IsInBalance self.now.left self.now.right self.now.lean }
        requires height { height ≡ max self.now.left.height self.now.right.height + 1 }
        ensures few { result ≡ true → height ≤ 6 }
        ensures low { result ≡ true → self.now.left.height ≤ self.now.right.height }
        ensures some { result ≡ false → 0 < self.now.left.height }
    {
        match self.lean {
            Lean::Left => false,
            Lean::Even | Lean::Right => height <= LOW,
        }
    }

    /// How many levels the left side has, where the node's tree has so many.
    fn left_height(&self, height: usize) -> usize
        requires balanced { IsInBalance self.now.left self.now.right self.now.lean }
        requires height { height ≡ max self.now.left.height self.now.right.height + 1 }
        ensures { result ≡ self.now.left.height }
    {
        match self.lean {
            Lean::Right => height - 2,
            Lean::Left | Lean::Even => height - 1,
        }
    }
}

impl<A: Allocator> Tree<A> {
    /// Takes some of the least nodes out, of a tree of this height: a left side, and the node above it, on whose place its right side
    /// goes. The last tells whether the tree is one level lower. The node's virtual runtime is written to `vr`.
    pub(crate) fn take_some(
        &mut self,
        height: usize,
        vr: &mut u128,
    ) -> (Tree<A>, Box<Node<A>, A>, bool)
        requires some { 0 < length self.old.keys }
        requires height { height ≡ self.old.height }
        ensures first { self.old.keys ≡ result.0.keys ++ key_of vr.new result.1.value ∷ self.new.keys }
        ensures few { length result.0.keys ≤ 31 }
        ensures loose { IsLoose result.1.value }
        ensures lower { result.2 ≡ true → self.old.height ≡ self.new.height + 1 }
        ensures as_high { result.2 ≡ false → self.old.height ≡ self.new.height }
    {
        let Link::Top(top, _) = &mut self.root else {
            unreachable!()
        };
        let top: &mut Node<A> = top;
        if top.gives_left_side(height) {
            let (side, node) = without_left_side(&mut self.root, vr);
            return (side, node, true);
        }
        let below = top.left_height(height);
        let (side, node, lower) = top.left.take_some(below, vr);
        top.left.know_filled();
        if !lower {
            return (side, node, false);
        }
        (side, node, tilt(&mut self.root, true))
    }

    /// Puts all nodes behind those of the front, in their order.
    pub(crate) fn pour(self, front: &mut Front<A>)
        requires room { length front.old + length self.keys ≤ 32 }
        ensures { front.new ≡ front.old ++ self.keys }
    {
        let Link::Top(mut top, vr) = self.open() else {
            return;
        };
        if !top.left.is_empty() {
            take(&mut top.left).pour(front);
        }
        let right = take(&mut top.right);
        front.push(top, vr);
        if right.is_empty() {
            // Nothing is to be dropped.
            mem::forget(right);
            return;
        }
        right.pour(front);
    }
}
