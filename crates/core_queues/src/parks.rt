//! A parked job that goes to another line, a wake that is kept, and a line that goes behind another one.
ghost use Rattle.std.specs.Prelude.{◌≡◌, ◌+◌, ◌<◌, ◌^◌};
ghost use Rattle.slab.specs.Slab.{ContainsKey};
ghost use Rattle.core_queues.specs.Lines.{Skips, Follows, MovesOut, KeepsWakeOf, JoinsLines};

use crate::line::Line;
use crate::waiting::{Waiting, link, start};
use base_sealed::SealedSlab;
use std::alloc::Allocator;

/// The entry at a key leaves its line, of which it knows the keys around it. The answer: the line without it.
#[inline(always)]
pub fn skip<J, A: Allocator>(
    jobs: &mut SealedSlab<Waiting<J>, A>,
    line: Line,
    key: usize,
    before: usize,
    next: usize,
) -> Line
    requires before { (line.head ≡ key → ⊥) → ContainsKey jobs.old before }
    requires some { 0 < line.count }
    ensures { Skips jobs.old line key before next jobs.new result }
{
    let mut shorter = line;
    shorter.count = line.count - 1;
    if line.head == key {
        shorter.head = next;
        return shorter;
    }
    link(jobs, before, next);
    if line.tail == key {
        shorter.tail = before;
        return shorter;
    }
    shorter
}

/// The entry at a key comes behind the tail of a line. The answer: the line with it.
#[inline(always)]
pub fn follow<J, A: Allocator>(jobs: &mut SealedSlab<Waiting<J>, A>, line: Line, key: usize) -> Line
    requires tail { 0 < line.count → ContainsKey jobs.old line.tail }
    requires short { line.count + 1 < 2 ^ 64 }
    ensures { Follows jobs.old line key jobs.new result }
{
    let mut longer = line;
    longer.tail = key;
    longer.count = line.count + 1;
    if line.count == 0 {
        longer.head = key;
        return longer;
    }
    link(jobs, line.tail, key);
    longer
}

/// The entry at a key goes from its place in a line, right behind the one before it, to the tail of another line, as started and with
/// no wake. The answer: the key that was behind it, and both lines from then on. Only keys and marks are written.
pub fn move_out<J, A: Allocator>(
    jobs: &mut SealedSlab<Waiting<J>, A>,
    from: Line,
    key: usize,
    before: usize,
    to: Line,
) -> (usize, Line, Line)
    requires there { ContainsKey jobs.old key }
    requires before { (from.head ≡ key → ⊥) → ContainsKey jobs.old before }
    requires some { 0 < from.count }
    requires tail { 0 < to.count → ContainsKey jobs.old to.tail }
    requires short { to.count + 1 < 2 ^ 64 }
    ensures { MovesOut jobs.old from key before to jobs.new result.0 result.1 result.2 }
{
    let next = start(jobs, key, false);
    let shorter = skip(jobs, from, key, before, next);
    let longer = follow(jobs, to, key);
    (next, shorter, longer)
}

/// A wake is kept beside the job of an entry.
pub fn keep_wake<J, A: Allocator>(jobs: &mut SealedSlab<Waiting<J>, A>, key: usize)
    requires { ContainsKey jobs.old key }
    ensures { KeepsWakeOf jobs.old key jobs.new }
{
    jobs[key].woken = true;
}

/// All jobs of a line go behind the tail of another one. The answer: the one line from then on. One key is written.
pub fn join_lines<J, A: Allocator>(
    jobs: &mut SealedSlab<Waiting<J>, A>,
    front: Line,
    behind: Line,
) -> Line
    requires tail { 0 < front.count → ContainsKey jobs.old front.tail }
    requires short { front.count + behind.count < 2 ^ 64 }
    ensures { JoinsLines jobs.old front behind jobs.new result }
{
    if behind.count == 0 {
        return front;
    }
    if front.count == 0 {
        return behind;
    }
    link(jobs, front.tail, behind.head);
    Line {
        head: front.head,
        tail: behind.tail,
        count: front.count + behind.count,
    }
}
