//! Orders are carried out and noted.

ghost use Rattle.std.specs.Prelude.{◌≡◌, ◌+◌, ◌<◌, ◌≤◌};
ghost use Rattle.base_jobs.specs.Ready.{HasReadyJob};
ghost use Rattle.core_core.specs.State.{delivered_of, inside_count};
ghost use Rattle.actor_core.specs.Carried.{MayNoteAll, NotesDelivery, is_job};

use actor_desk::RecordedDesk;
use base_jobs::Task;
use base_words::{Envelope, Note, Order};
use core_core::{Core, Delivered};
use std::alloc::Allocator;

/// Whether an order is a job.
#[inline(always)]
pub(crate) fn is_of_job<J>(order: &Order<J>) -> bool
    ensures { result ≡ is_job order.now }
{
    match order {
        Order::Job(_, _) => true,
        Order::Create(_) => false,
        Order::SetShares(_, _) => false,
        Order::Close(_, _) => false,
        Order::CloseCore(_) => false,
        Order::Wake(_, _) => false,
    }
}

/// The core carries out the next order of its sender, and what became of it is noted.
#[inline(always)]
pub(crate) fn carry_out<J: Task<Out = u64>, A: Allocator + Clone>(
    core: &mut Core<J, A>,
    said: &mut RecordedDesk<J>,
    envelope: Envelope<J>,
) -> Delivered<J>
    requires room { inside_count core.old < core.old.queues.room }
    requires sender { envelope.name.from ≤ core.old.cores }
    requires next { envelope.name.number ≡ delivered_of envelope.name.from core.old + 1 }
    requires ready { HasReadyJob J.meaning envelope.order }
    requires may_note { MayNoteAll core.old envelope said.old }
    ensures { NotesDelivery core.old said.old envelope result core.new said.new }
{
    let Envelope { name, order } = envelope;
    let named = name;
    match order {
        // The note of a job is made where it is written: most orders are jobs, and a list of notes would be copied.
        Order::Job(queue, job) => match core.deliver_job(name, queue, job) {
            Delivered::Took => {
                said.write(&[Note::Took(named, queue)]);
                Delivered::Took
            }
            Delivered::Back(reason, back) => {
                said.write(&[Note::Back(named, reason)]);
                Delivered::Back(reason, back)
            }
            Delivered::Answered(_) => unreachable!(),
        },
        command => {
            let (delivered, notes) = core.deliver(Envelope {
                name,
                order: command,
            });
            said.write(notes.as_slice());
            delivered
        }
    }
}
