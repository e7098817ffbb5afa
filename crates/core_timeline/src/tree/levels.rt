//! The ways down that every turn of a core takes: to the place of a key, and to the first one.
//!
//! Each is one body, which a macro writes into three functions that call each other in a ring, and two of them are inlined into the
//! third: so the compiled code goes three levels down a call. A macro can't write contracts, so each function states its own.
ghost use Rattle.std.specs.Prelude.{◌≡◌, ◌≢◌, ◌+◌, ◌<◌, ◌∷◌, ◌-◌, ◌^◌, bit_and, true, false, not, length};
ghost use Rattle.std.specs.Borrow.{sem};
ghost use Rattle.core_timeline.specs.Rising.{IsRising, stands_before, inserted};
ghost use Rattle.core_timeline.specs.Nodes.{key_of, IsLoose};
ghost use Rattle.core_timeline.specs.Sides.{side_of, LendsSide};

use super::balance::{put, tilt, without_left};
use super::{Lean, Link, Node, Tree};
use base_words::QueueNo;
use std::alloc::Allocator;

/// One level of an insertion. `$next` does the next level, and `$close` this one where the two virtual runtimes may be the same.
macro_rules! insert_by {
    ($tree:ident, $node:ident, $vr:ident, $is_behind:ident, $next:ident $(, $close:ident)?) => {
        match &mut $tree.root {
            Link::Empty => {
                $node.lean = Lean::Even;
                put(&mut $tree.root, $node, $vr);
                false
            }
            Link::Top(top, vr) => {
                $(if low_half($vr) == low_half(*vr) {
                    return $tree.$close($node, $vr);
                })?
                let behind = $is_behind($vr, $node.queue, *vr, top.queue);
                let top: &mut Node<A> = top;
                let side = top.side_mut(behind);
                let as_high = side.$next($node, $vr);
                side.know_filled();
                if as_high {
                    return true;
                }
                tilt(&mut $tree.root, behind)
            }
        }
    };
}

/// One level of the way to the first node. `$next` does the next level.
macro_rules! take_by {
    ($tree:ident, $vr:ident, $next:ident) => {
        match &mut $tree.root {
            Link::Empty => unreachable!(),
            Link::Top(top, _) => {
                let top: &mut Node<A> = top;
                if top.left.is_empty() {
                    return (without_left(&mut $tree.root, $vr), true);
                }
                let (first, lower) = top.left.$next($vr);
                top.left.know_filled();
                if !lower {
                    return (first, false);
                }
                (first, tilt(&mut $tree.root, true))
            }
        }
    };
}

/// The low half of a virtual runtime, which tells nearly all of them apart.
#[inline]
fn low_half(vr: u128) -> u64
    ensures { result ≡ bit_and vr (2 ^ 64 - 1) }
{
    (vr & ((1 << 64) - 1)) as u64
}

/// Whether the key of this virtual runtime and queue doesn't stand before the other.
#[inline]
pub(super) fn is_behind(vr: u128, queue: QueueNo, other_vr: u128, other_queue: QueueNo) -> bool
    ensures { result ≡ not (stands_before (record { vr = vr; queue = queue }) (record { vr = other_vr; queue = other_queue })) }
{
    vr > other_vr || (vr == other_vr && queue.0 >= other_queue.0)
}

/// The same where the virtual runtimes differ.
#[inline]
fn is_behind_apart(vr: u128, queue: QueueNo, other_vr: u128, other_queue: QueueNo) -> bool
    requires { vr ≢ other_vr }
    ensures { result ≡ not (stands_before (record { vr = vr; queue = queue }) (record { vr = other_vr; queue = other_queue })) }
{
    other_vr < vr
}

impl<A: Allocator> Node<A> {
    /// The right side, or else the left one.
    #[inline]
    pub(super) fn side_mut(&mut self, right: bool) -> &mut Tree<A>
        ensures value { result.now ≡ side_of right self.old }
        ensures* lends { sem 𝓛 (LendsSide A.row A.Allocator right self.entry result) }
    {
        if right {
            &mut self.right
        } else {
            &mut self.left
        }
    }
}

impl<A: Allocator> Tree<A> {
    /// Puts a node in the place of its key, and tells whether the tree is as high as before.
    #[cycle(insert)]
    #[tactic(auto, using(crate::proofs::Rising::around))]
    pub(crate) fn insert(&mut self, mut node: Box<Node<A>, A>, vr: u128) -> bool
        requires loose { IsLoose node.value }
        requires rising { IsRising self.old.keys }
        ensures keys { self.new.keys ≡ inserted (key_of vr node.value) self.old.keys }
        ensures as_high { result ≡ true → self.new.height ≡ self.old.height }
        ensures higher { result ≡ false → self.new.height ≡ self.old.height + 1 }
    {
        insert_by!(self, node, vr, is_behind_apart, insert_below, insert_close)
    }

    /// The same, one level on.
    #[cycle(insert)]
    #[inline(always)]
    #[tactic(auto, using(crate::proofs::Rising::around))]
    fn insert_below(&mut self, mut node: Box<Node<A>, A>, vr: u128) -> bool
        requires loose { IsLoose node.value }
        requires rising { IsRising self.old.keys }
        ensures keys { self.new.keys ≡ inserted (key_of vr node.value) self.old.keys }
        ensures as_high { result ≡ true → self.new.height ≡ self.old.height }
        ensures higher { result ≡ false → self.new.height ≡ self.old.height + 1 }
    {
        insert_by!(
            self,
            node,
            vr,
            is_behind_apart,
            insert_far_below,
            insert_close
        )
    }

    /// The same, two levels on.
    #[cycle(insert)]
    #[inline(always)]
    #[tactic(auto, using(crate::proofs::Rising::around))]
    fn insert_far_below(&mut self, mut node: Box<Node<A>, A>, vr: u128) -> bool
        requires loose { IsLoose node.value }
        requires rising { IsRising self.old.keys }
        ensures keys { self.new.keys ≡ inserted (key_of vr node.value) self.old.keys }
        ensures as_high { result ≡ true → self.new.height ≡ self.old.height }
        ensures higher { result ≡ false → self.new.height ≡ self.old.height + 1 }
    {
        insert_by!(self, node, vr, is_behind_apart, insert, insert_close)
    }

    /// The same where the low halves of the two virtual runtimes are one, which is rare: so elsewhere these are compared alone, and a
    /// side is chosen without a branch.
    #[cycle(insert)]
    #[cold]
    #[inline(never)]
    #[tactic(auto, using(crate::proofs::Rising::around))]
    fn insert_close(&mut self, mut node: Box<Node<A>, A>, vr: u128) -> bool
        requires loose { IsLoose node.value }
        requires rising { IsRising self.old.keys }
        ensures keys { self.new.keys ≡ inserted (key_of vr node.value) self.old.keys }
        ensures as_high { result ≡ true → self.new.height ≡ self.old.height }
        ensures higher { result ≡ false → self.new.height ≡ self.old.height + 1 }
    {
        insert_by!(self, node, vr, is_behind, insert)
    }

    /// Takes the node of the first key out, and tells whether the tree is one level lower. Its virtual runtime is written to `vr`,
    /// since a result of that size would go through memory at each level.
    #[cycle(take_first)]
    pub(crate) fn take_first(&mut self, vr: &mut u128) -> (Box<Node<A>, A>, bool)
        requires { 0 < length self.old.keys }
        ensures first { self.old.keys ≡ key_of vr.new result.0.value ∷ self.new.keys }
        ensures loose { IsLoose result.0.value }
        ensures lower { result.1 ≡ true → self.old.height ≡ self.new.height + 1 }
        ensures as_high { result.1 ≡ false → self.old.height ≡ self.new.height }
    {
        take_by!(self, vr, take_first_below)
    }

    /// The same, one level on.
    #[cycle(take_first)]
    #[inline(always)]
    fn take_first_below(&mut self, vr: &mut u128) -> (Box<Node<A>, A>, bool)
        requires { 0 < length self.old.keys }
        ensures first { self.old.keys ≡ key_of vr.new result.0.value ∷ self.new.keys }
        ensures loose { IsLoose result.0.value }
        ensures lower { result.1 ≡ true → self.old.height ≡ self.new.height + 1 }
        ensures as_high { result.1 ≡ false → self.old.height ≡ self.new.height }
    {
        take_by!(self, vr, take_first_far_below)
    }

    /// The same, two levels on.
    #[cycle(take_first)]
    #[inline(always)]
    fn take_first_far_below(&mut self, vr: &mut u128) -> (Box<Node<A>, A>, bool)
        requires { 0 < length self.old.keys }
        ensures first { self.old.keys ≡ key_of vr.new result.0.value ∷ self.new.keys }
        ensures loose { IsLoose result.0.value }
        ensures lower { result.1 ≡ true → self.old.height ≡ self.new.height + 1 }
        ensures as_high { result.1 ≡ false → self.old.height ≡ self.new.height }
    {
        take_by!(self, vr, take_first)
    }
}
