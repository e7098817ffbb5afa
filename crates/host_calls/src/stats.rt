//! What a core of a house tells of itself in numbers, while it runs.

ghost use Rattle.std.specs.Prelude.{◌≡◌, ◌+◌, ℕ};
ghost use Rattle.arrayvec.specs.ArrayVec.{array_vec_len};
ghost use Rattle.base_words.specs.Commands.{created_count};
ghost use Rattle.base_words.specs.Journal.{Journal};
ghost use Rattle.actor_core.specs.Stats.{TellsCore, TellsQueues};
ghost use Rattle.host_calls.specs.Members.{OnCore};
ghost use Rattle.host_calls.specs.Stats.{IfCounted, IsSeatStatsOf, IsToldOf, SeatTells, SeatTellsQueue, running_number};

use crate::code::Code;
use crate::figures::{
    CORE_SIZE, CoreFigures, QUEUE_SIZE, QueueFigures, low_and_high, number_of_mode, queue_figures,
};
use crate::member::Member;
use arrayvec::ArrayVec;
use base_words::{CoreStats, QueueStats};
use host_core::Hosted;

/// The numbers of so many queues, or of fewer, are handed on in a small place. One for 256 has 20 kB, which are written and copied each time.
const FEW: u16 = 16;

impl Member {
    /// Tells the counts of the core.
    pub fn stats(&mut self, figures: &mut CoreFigures) -> Code
        ensures { OnCore self.old (figures.new ≡ figures.old) result self.new (λ old told new. (new ≡ old) × SeatTells old figures.old told figures.new) }
    {
        match self {
            Member::Core(core) => tell_core(core, figures),
            _ => Code::Empty,
        }
    }

    /// Tells the counts of a queue.
    pub fn stats_of_queue(&mut self, queue: u32, figures: &mut QueueFigures) -> Code
        ensures { OnCore self.old (figures.new ≡ figures.old) result self.new (λ old told new. (new ≡ old) × SeatTellsQueue old queue figures.old told figures.new) }
    {
        match self {
            Member::Core(core) => tell_queue(core, queue, figures),
            _ => Code::Empty,
        }
    }
}

/// Tells the counts of a core.
fn tell_core(core: &Hosted, figures: &mut CoreFigures) -> Code
    ensures { SeatTells core.now figures.old result figures.new }
{
    if figures.size != CORE_SIZE {
        return Code::BadNumber;
    }
    let (told, queues) = core_stats(core);
    let (floor_low, floor_high) = low_and_high(told.floor);
    *figures = CoreFigures {
        size: CORE_SIZE,
        queues,
        room: core.room(),
        held: told.held,
        turns: told.turns,
        floor_low,
        floor_high,
        running: running(core),
        closed: number_of_mode(core.mode()),
    };
    Code::Ok
}

/// 1 while the host runs a job of this core, else 0.
fn running(core: &Hosted) -> u32
    ensures { result ≡ running_number core.now }
{
    if core.is_running() { 1 } else { 0 }
}

/// Tells the counts of a queue.
fn tell_queue(core: &Hosted, queue: u32, figures: &mut QueueFigures) -> Code
    ensures { SeatTellsQueue core.now queue figures.old result figures.new }
{
    if figures.size != QUEUE_SIZE {
        return Code::BadNumber;
    }
    let Some(of_queue) = stats_of(core, queue) else {
        return Code::NoQueue;
    };
    *figures = queue_figures(&of_queue);
    Code::Ok
}

/// The numbers of a core, and how many queues it has.
fn core_stats(core: &Hosted) -> (CoreStats, u32)
    ensures core { TellsCore core.now.recorded.core.cores core.now.recorded.journal.notes result.0 }
    ensures queues { IfCounted core.now (result.1 ≡ created_count core.now.recorded.journal.notes + 1) }
{
    if core.queue_count() > FEW {
        return core_of_many(core);
    }
    let (told, queues): (CoreStats, ArrayVec<QueueStats, 16>) = core.stats();
    (told, queues.len() as u32)
}

/// The same, however many queues there are. It stands apart, so that the call of a core of few has no place for so many.
#[inline(never)]
fn core_of_many(core: &Hosted) -> (CoreStats, u32)
    ensures core { TellsCore core.now.recorded.core.cores core.now.recorded.journal.notes result.0 }
    ensures queues { IfCounted core.now (result.1 ≡ created_count core.now.recorded.journal.notes + 1) }
{
    // That there are at most 256 is known once they are counted.
    let _count = core.queue_count();
    let (told, queues): (CoreStats, ArrayVec<QueueStats, 256>) = core.stats();
    (told, queues.len() as u32)
}

/// The counts of a queue, if there is one of this number.
fn stats_of(core: &Hosted, queue: u32) -> Option<QueueStats>
    ensures { IsSeatStatsOf core.now queue result }
{
    if core.queue_count() > FEW {
        return stats_among_many(core, queue);
    }
    let (_core, queues): (CoreStats, ArrayVec<QueueStats, 16>) = core.stats();
    stats_at(&queues, queue)
}

/// The same, however many queues there are.
#[inline(never)]
fn stats_among_many(core: &Hosted, queue: u32) -> Option<QueueStats>
    ensures { IsSeatStatsOf core.now queue result }
{
    let _count = core.queue_count();
    let (_core, queues): (CoreStats, ArrayVec<QueueStats, 256>) = core.stats();
    stats_at(&queues, queue)
}

/// The counts at this place, if there are some.
fn stats_at<const N: usize>(queues: &ArrayVec<QueueStats, N>, queue: u32) -> Option<QueueStats>
    ensures { (burst : ℕ) (notes : Journal ℕ) → TellsQueues burst notes (array_vec_len queues.now) queues.now.items → IsToldOf burst notes queue result }
{
    let place = queue as usize;
    if place < queues.len() {
        Some(queues[place])
    } else {
        None
    }
}
