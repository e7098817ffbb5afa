//! An entry of the slab: a job that waits, and the key of the one behind it.
ghost use Rattle.std.specs.Prelude.{◌≡◌, ◌+◌, ◌<◌, ◌^◌, IfSome};
ghost use Rattle.slab.specs.Slab.{ContainsKey, HasRoomFor, get};
ghost use Rattle.base_jobs.specs.Ready.{IsReady};
ghost use Rattle.core_queues.specs.Entries.{Relinks, Appends, StartsAt, Requeues, MovesHead};
ghost use Rattle.core_queues.specs.Fronts.{MakesCalls, PollsAt};

use crate::line::Line;
use crate::meter::Meter;
use base_jobs::{Job, Post, Step};
use base_sealed::SealedSlab;
use base_words::JobId;
use std::alloc::Allocator;

/// A job in the line of a queue.
///
/// The small fields stand at the end, so that nothing lies between a field and the next where a job is a multiple of 8 bytes.
#[derive(Drop)]
pub struct Waiting<J> {
    /// The key of the job behind this one. At the tail it says nothing.
    pub next: usize,
    pub name: JobId,
    pub job: J,
    /// Whether it was polled before.
    pub started: bool,
    /// Whether a wake of it is kept, for the next time that it asks to be parked.
    pub woken: bool,
}

/// Tells the entry at the tail of a line the key of the one that comes behind it.
#[inline(always)]
pub fn link<J, A: Allocator>(jobs: &mut SealedSlab<Waiting<J>, A>, tail: usize, next: usize)
    requires { ContainsKey jobs.old tail }
    ensures { Relinks jobs.old tail next jobs.new }
{
    jobs[tail].next = next;
}

/// A job comes behind the tail of a line. The answer: the line with it.
#[inline(always)]
pub fn append<J, A: Allocator>(
    jobs: &mut SealedSlab<Waiting<J>, A>,
    line: Line,
    last: Waiting<J>,
) -> Line
    requires room { HasRoomFor jobs.old 1 }
    requires tail { 0 < line.count → ContainsKey jobs.old line.tail }
    requires short { line.count + 1 < 2 ^ 64 }
    ensures appends { Appends jobs.old line last jobs.new result }
    ensures within { result.tail < jobs.new.capacity }
{
    let key = jobs.insert_reserved(last);
    let mut longer = line;
    longer.tail = key;
    longer.count = line.count + 1;
    if line.count == 0 {
        longer.head = key;
        return longer;
    }
    link(jobs, line.tail, key);
    longer
}

/// Marks the entry at the head of a line as started, and whether a wake of it is kept. The answer: the key of the next one.
#[inline(always)]
pub fn start<J, A: Allocator>(
    jobs: &mut SealedSlab<Waiting<J>, A>,
    head: usize,
    woken: bool,
) -> usize
    requires { ContainsKey jobs.old head }
    ensures { StartsAt jobs.old head woken jobs.new result }
{
    let front = &mut jobs[head];
    front.started = true;
    front.woken = woken;
    front.next
}

/// The head of a line goes behind its tail, as started, with this wake. The answer: the line with it there. Only keys and marks are
/// written.
#[inline(always)]
pub fn requeue<J, A: Allocator>(
    jobs: &mut SealedSlab<Waiting<J>, A>,
    line: Line,
    woken: bool,
) -> Line
    requires head { ContainsKey jobs.old line.head }
    requires tail { ContainsKey jobs.old line.tail }
    ensures { Requeues jobs.old line woken jobs.new result }
{
    let next = start(jobs, line.head, woken);
    let mut turned = line;
    turned.tail = line.head;
    if line.count == 1 {
        return turned;
    }
    turned.head = next;
    link(jobs, line.tail, line.head);
    turned
}

/// The head of a line goes behind the tail of another one, as started and with no wake. The answer: both lines from then on. Only keys
/// and marks are written.
pub fn move_head<J, A: Allocator>(
    jobs: &mut SealedSlab<Waiting<J>, A>,
    from: Line,
    to: Line,
) -> (Line, Line)
    requires head { ContainsKey jobs.old from.head }
    requires tail { 0 < to.count → ContainsKey jobs.old to.tail }
    requires some { 0 < from.count }
    requires short { to.count + 1 < 2 ^ 64 }
    ensures { MovesHead jobs.old from to jobs.new result.0 result.1 }
{
    let mut shorter = from;
    shorter.head = start(jobs, from.head, false);
    shorter.count = from.count - 1;
    let mut longer = to;
    longer.tail = from.head;
    longer.count = to.count + 1;
    if to.count == 0 {
        longer.head = from.head;
        return (shorter, longer);
    }
    link(jobs, to.tail, from.head);
    (shorter, longer)
}

/// Polls the job of an entry where it stands. The answer: what the poll came to, the time that the job told, and the time that the
/// meter told.
#[inline(always)]
pub fn poll_at<J: Job, A: Allocator, P: Post<J, J::Out>, M: Meter>(
    jobs: &mut SealedSlab<Waiting<J>, A>,
    key: usize,
    post: &mut P,
    meter: &mut M,
) -> (Step<J::Out>, Option<u64>, u64)
    requires there { ContainsKey jobs.old key }
    requires ready { IfSome (get jobs.old key) (λ waiting. IsReady J.meaning waiting.job) }
    ensures polls { MakesCalls P.Does post.old post.new (λ calls. PollsAt J.meaning jobs.old key calls result.0 result.1 jobs.new) }
    ensures tells { M.Tells meter.old result.2 meter.new }
{
    let front = &mut jobs[key];
    meter.start();
    let step = front.job.poll(post);
    let spent = meter.spent();
    let told = front.job.told();
    (step, told, spent)
}
