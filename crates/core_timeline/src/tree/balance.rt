//! Nodes whose sides change: what lifts a side, and what parts a node from both.
//!
//! A side that is two levels higher than the other gives a node to its place: `middle_lifted` puts one above two others, which share its
//! sides. Each place is emptied before a node is put in it, so that nothing is dropped on the way.
ghost use Rattle.std.specs.Prelude.{◌≡◌, ◌+◌, ◌<◌, ◌∷◌, ◌++◌, true, false, max, length};
ghost use Rattle.core_timeline.specs.Tree.{empty_tree, IsFilled};
ghost use Rattle.core_timeline.specs.Nodes.{seen, key_of, keys_of, IsInBalance, IsBalanced, IsLoose, HasOnlyRight, Tilts, IsTwoHigherOnLeft, IsTwoHigherOnRight, IsUprightLeft, IsUprightRight, IsUpright};
ghost use Rattle.core_timeline.specs.Middle.{HasSides, lean_on_left, lean_on_right};
ghost use Rattle.core_timeline.specs.declared.tree.Link.TheVariants.{Empty, Top};
ghost use Rattle.core_timeline.specs.declared.tree.Lean.TheVariants.{Left, Even, Right};

use super::{Lean, Link, Node, Tree};
use std::alloc::Allocator;
use std::mem;

/// Takes the tree out, and leaves none.
pub(super) fn take<A: Allocator>(place: &mut Tree<A>) -> Tree<A>
    ensures whole { result ≡ place.old }
    ensures none_left { place.new ≡ empty_tree }
{
    mem::replace(place, Tree::new())
}

/// Puts the tree where there is none, so that nothing has to be dropped.
fn fill<A: Allocator>(place: &mut Tree<A>, tree: Tree<A>)
    requires { place.old ≡ empty_tree }
    ensures { place.new ≡ tree }
{
    mem::forget(mem::replace(place, tree));
}

/// Puts the node where there is none, so that nothing has to be dropped.
pub(super) fn put<A: Allocator>(root: &mut Link<A>, node: Box<Node<A>, A>, vr: u128)
    requires { root.old ≡ Empty }
    ensures { root.new ≡ Top node vr }
{
    mem::forget(mem::replace(root, Link::Top(node, vr)));
}

/// Gives both sides of a middle node away, to the two nodes that go on its sides. Each of these leans as it has to then.
#[inline(always)]
fn hand_sides_out<A: Allocator>(middle: &mut Node<A>, left: &mut Node<A>, right: &mut Node<A>)
    requires left_free { left.old.right ≡ empty_tree }
    requires right_free { right.old.left ≡ empty_tree }
    ensures left { HasSides left.new left.old.left middle.old.left left.old.queue (lean_on_left middle.old.lean) }
    ensures right { HasSides right.new middle.old.right right.old.right right.old.queue (lean_on_right middle.old.lean) }
    ensures middle { HasSides middle.new empty_tree empty_tree middle.old.queue Even }
{
    (left.lean, right.lean) = match middle.lean {
        Lean::Left => (Lean::Even, Lean::Right),
        Lean::Even => (Lean::Even, Lean::Even),
        Lean::Right => (Lean::Left, Lean::Even),
    };
    middle.lean = Lean::Even;
    fill(&mut left.right, take(&mut middle.left));
    fill(&mut right.left, take(&mut middle.right));
}

/// Puts a node above two others, which get its sides, each on the side where it has none.
#[inline(always)]
fn middle_lifted<A: Allocator>(
    mut middle: Box<Node<A>, A>,
    middle_vr: u128,
    mut left: Box<Node<A>, A>,
    left_vr: u128,
    mut right: Box<Node<A>, A>,
    right_vr: u128,
) -> Link<A>
    requires balanced { IsInBalance middle.value.left middle.value.right middle.value.lean }
    requires left_free { left.value.right ≡ empty_tree }
    requires right_free { right.value.left ≡ empty_tree }
    requires left_filled { IsFilled left.value.left }
    requires right_filled { IsFilled right.value.right }
    requires left_high { left.value.left.height ≡ max middle.value.left.height middle.value.right.height }
    requires right_high { right.value.right.height ≡ max middle.value.left.height middle.value.right.height }
    ensures balanced { IsBalanced result }
    ensures keys { (seen result).keys ≡ (left.value.left.keys ++ key_of left_vr left.value ∷ middle.value.left.keys) ++ key_of middle_vr middle.value ∷ (middle.value.right.keys ++ key_of right_vr right.value ∷ right.value.right.keys) }
    ensures height { (seen result).height ≡ max middle.value.left.height middle.value.right.height + 2 }
{
    hand_sides_out(&mut middle, &mut left, &mut right);
    let left = Tree::close(Link::Top(left, left_vr));
    let right = Tree::close(Link::Top(right, right_vr));
    left.know_filled();
    right.know_filled();
    fill(&mut middle.left, left);
    fill(&mut middle.right, right);
    Link::Top(middle, middle_vr)
}

/// Joins a node and its left side, which leans right: what hangs on that side's right, in the middle, is lifted above both.
#[inline(always)]
fn left_middle_lifted<A: Allocator>(
    mut top: Box<Node<A>, A>,
    top_vr: u128,
    mut left: Box<Node<A>, A>,
    left_vr: u128,
) -> Link<A>
    requires parted { top.value.left ≡ empty_tree }
    requires balanced { IsInBalance left.value.left left.value.right left.value.lean }
    requires leans { left.value.lean ≡ Right }
    requires two_higher { left.value.right.height ≡ top.value.right.height + 1 }
    ensures balanced { IsBalanced result }
    ensures keys { (seen result).keys ≡ keys_of left_vr left.value ++ key_of top_vr top.value ∷ top.value.right.keys }
    ensures height { (seen result).height ≡ top.value.right.height + 2 }
{
    top.right.know_filled();
    let Link::Top(middle, middle_vr) = take(&mut left.right).open() else {
        unreachable!()
    };
    middle_lifted(middle, middle_vr, left, left_vr, top, top_vr)
}

/// Lifts the left side, which is two levels higher. Tells whether the sides are even then.
///
/// It stays a function of its own: so the way past a node that needs no lift is short.
#[inline(never)]
fn lift_left<A: Allocator>(root: &mut Link<A>) -> bool
    requires { IsTwoHigherOnLeft root.old }
    ensures { IsUprightLeft root.old root.new result }
{
    let Link::Top(mut top, top_vr) = mem::replace(root, Link::Empty) else {
        unreachable!()
    };
    top.right.know_filled();
    let Link::Top(mut left, left_vr) = take(&mut top.left).open() else {
        unreachable!()
    };
    if matches!(left.lean, Lean::Right) {
        let lifted = left_middle_lifted(top, top_vr, left, left_vr);
        mem::forget(mem::replace(root, lifted));
        return true;
    }
    let even = matches!(left.lean, Lean::Left);
    (left.lean, top.lean) = if even {
        (Lean::Even, Lean::Even)
    } else {
        (Lean::Right, Lean::Left)
    };
    fill(&mut top.left, take(&mut left.right));
    fill(&mut left.right, Tree::close(Link::Top(top, top_vr)));
    left.right.know_filled();
    put(root, left, left_vr);
    even
}

/// Joins a node and its right side, which leans left: what hangs on that side's left, in the middle, is lifted above both.
#[inline(always)]
fn right_middle_lifted<A: Allocator>(
    mut top: Box<Node<A>, A>,
    top_vr: u128,
    mut right: Box<Node<A>, A>,
    right_vr: u128,
) -> Link<A>
    requires parted { top.value.right ≡ empty_tree }
    requires balanced { IsInBalance right.value.left right.value.right right.value.lean }
    requires leans { right.value.lean ≡ Left }
    requires two_higher { right.value.left.height ≡ top.value.left.height + 1 }
    ensures balanced { IsBalanced result }
    ensures keys { (seen result).keys ≡ top.value.left.keys ++ key_of top_vr top.value ∷ keys_of right_vr right.value }
    ensures height { (seen result).height ≡ top.value.left.height + 2 }
{
    top.left.know_filled();
    let Link::Top(middle, middle_vr) = take(&mut right.left).open() else {
        unreachable!()
    };
    middle_lifted(middle, middle_vr, top, top_vr, right, right_vr)
}

/// Lifts the right side, which is two levels higher. Tells whether the sides are even then. By itself as `lift_left` is.
#[inline(never)]
fn lift_right<A: Allocator>(root: &mut Link<A>) -> bool
    requires { IsTwoHigherOnRight root.old }
    ensures { IsUprightRight root.old root.new result }
{
    let Link::Top(mut top, top_vr) = mem::replace(root, Link::Empty) else {
        unreachable!()
    };
    top.left.know_filled();
    let Link::Top(mut right, right_vr) = take(&mut top.right).open() else {
        unreachable!()
    };
    if matches!(right.lean, Lean::Left) {
        let lifted = right_middle_lifted(top, top_vr, right, right_vr);
        mem::forget(mem::replace(root, lifted));
        return true;
    }
    let even = matches!(right.lean, Lean::Right);
    (right.lean, top.lean) = if even {
        (Lean::Even, Lean::Even)
    } else {
        (Lean::Left, Lean::Right)
    };
    fill(&mut top.right, take(&mut right.left));
    fill(&mut right.left, Tree::close(Link::Top(top, top_vr)));
    right.left.know_filled();
    put(root, right, right_vr);
    even
}

/// Settles a node whose one side, the right or the left one, has become a level higher against the other. Tells whether the sides
/// are even then.
///
/// It looks at the lean and never branches on the side: which side it is can't be foretold.
#[inline]
pub(super) fn tilt<A: Allocator>(root: &mut Link<A>, right: bool) -> bool
    requires { Tilts right root.old }
    ensures { IsUpright right root.old root.new result }
{
    let Link::Top(top, _) = root else {
        unreachable!()
    };
    top.left.know_filled();
    top.right.know_filled();
    let lean = top.lean;
    if matches!(lean, Lean::Even) {
        top.lean = if right { Lean::Right } else { Lean::Left };
        return false;
    }
    let leans_right = matches!(lean, Lean::Right);
    if leans_right != right {
        top.lean = Lean::Even;
        return true;
    }
    match lean {
        Lean::Left => lift_left(root),
        _ => lift_right(root),
    }
}

/// Takes the top node out, which has nothing on its left, and leaves what is on its right. Its virtual runtime is written to `vr`.
pub(super) fn without_left<A: Allocator>(root: &mut Link<A>, vr: &mut u128) -> Box<Node<A>, A>
    requires balanced { IsBalanced root.old }
    requires none_left { HasOnlyRight root.old }
    ensures balanced { IsBalanced root.new }
    ensures first { (seen root.old).keys ≡ key_of vr.new result.value ∷ (seen root.new).keys }
    ensures loose { IsLoose result.value }
    ensures one_lower { (seen root.old).height ≡ (seen root.new).height + 1 }
{
    match mem::replace(root, Link::Empty) {
        Link::Empty => unreachable!(),
        Link::Top(mut top, top_vr) => {
            mem::forget(mem::replace(root, take(&mut top.right).open()));
            *vr = top_vr;
            top
        }
    }
}

/// Puts two sides on a loose node, which leans so from then on.
#[inline(always)]
fn take_sides<A: Allocator>(node: &mut Node<A>, lean: Lean, left: Tree<A>, right: Tree<A>)
    requires { IsLoose node.old }
    ensures { HasSides node.new left right node.old.queue lean }
{
    node.lean = lean;
    fill(&mut node.left, left);
    fill(&mut node.right, right);
}

/// Joins two trees to one, of which the right one isn't empty: its first node goes on top. The two stood under a node that leaned so. Tells
/// whether the joined tree is as high as the higher one of the two.
fn joined<A: Allocator>(lean: Lean, left: Tree<A>, mut right: Tree<A>) -> (Tree<A>, bool)
    requires balanced { IsInBalance left right lean }
    requires some { 0 < length right.keys }
    ensures keys { result.0.keys ≡ left.keys ++ right.keys }
    ensures lower { result.1 ≡ true → max left.height right.height + 1 ≡ result.0.height + 1 }
    ensures as_high { result.1 ≡ false → max left.height right.height + 1 ≡ result.0.height }
{
    let mut vr = 0;
    let (mut next, lower) = right.take_first(&mut vr);
    right.know_filled();
    take_sides(&mut next, lean, left, right);
    let mut whole = Link::Top(next, vr);
    if !lower {
        return (Tree::close(whole), false);
    }
    let lower = tilt(&mut whole, false);
    (Tree::close(whole), lower)
}

/// Parts a node from its sides, and joins these to one tree. The last tells whether it is one level lower.
pub(super) fn parted<A: Allocator>(mut top: Box<Node<A>, A>) -> (Box<Node<A>, A>, Tree<A>, bool)
    requires { IsInBalance top.value.left top.value.right top.value.lean }
    ensures queue { result.0.value.queue ≡ top.value.queue }
    ensures loose { IsLoose result.0.value }
    ensures keys { result.1.keys ≡ top.value.left.keys ++ top.value.right.keys }
    ensures lower { result.2 ≡ true → max top.value.left.height top.value.right.height + 1 ≡ result.1.height + 1 }
    ensures as_high { result.2 ≡ false → max top.value.left.height top.value.right.height + 1 ≡ result.1.height }
{
    let left = take(&mut top.left);
    let right = take(&mut top.right);
    if right.is_empty() {
        return (top, left, true);
    }
    let (rest, lower) = joined(top.lean, left, right);
    (top, rest, lower)
}
