//! How a queue comes among those that may be picked.
ghost use Rattle.std.specs.Prelude.{◌≡◌, ◌≢◌, ◌<◌, not, true, false, List, [], ◌∷◌, IfSome};
ghost use Rattle.base_words.specs.Names.{is_number};
ghost use Rattle.base_words.specs.declared.names.Key.{Key};
ghost use Rattle.core_timeline.specs.Rising.{first_key, inserted, LacksQueue};
ghost use Rattle.core_queues.specs.Slips.{queue_count, waiting_of, has_slip, without_slip};
ghost use Rattle.core_core.specs.State.{is_any};
ghost use Rattle.core_core.specs.Bursts.{queue_open};
ghost use Rattle.core_core.specs.Relisted.{keys_after, slips_after, relisted};

use crate::bursts::Bursts;
use base_words::QueueNo;
use core_queues::Queues;
use core_timeline::{Slip, Timeline};
use std::alloc::Allocator;

/// Puts a queue into the timeline at this virtual runtime, by its slip. That can't fail.
#[inline(always)]
pub(crate) fn enter<J: Drop, A: Allocator + Clone>(
    queues: &mut Queues<J, A>,
    ready: &mut Timeline<A>,
    queue: QueueNo,
    vr: u128,
)
    requires exists { queue < queue_count queues.old }
    requires slip { has_slip queue queues.old ≡ true }
    requires absent { LacksQueue queue ready.old.keys }
    ensures keys { ready.new.keys ≡ inserted (record { vr = vr; queue = queue }) ready.old.keys }
    ensures given { queues.new ≡ without_slip queue queues.old }
{
    let Some(slip) = queues.take_slip(queue) else {
        unreachable!()
    };
    ready.insert(slip, vr);
}

/// Puts a queue that was placed into the timeline at this virtual runtime, unless its turn is open: the end of the turn does that.
#[inline(always)]
pub(crate) fn enter_placed<J: Drop, A: Allocator + Clone>(
    queues: &mut Queues<J, A>,
    ready: &mut Timeline<A>,
    bursts: &Bursts,
    queue: QueueNo,
    vr: u128,
)
    requires exists { queue < queue_count queues.old }
    requires slip { has_slip queue queues.old ≡ true }
    requires absent { LacksQueue queue ready.old.keys }
    ensures keys { ready.new.keys ≡ keys_after (not (is_number queue (queue_open bursts.now.open))) vr queue ready.old.keys }
    ensures given { queues.new ≡ record queues.old { slips = slips_after (not (is_number queue (queue_open bursts.now.open))) queue queues.old.slips } }
{
    if !bursts.is_turn_of(queue) {
        enter(queues, ready, queue, vr);
    }
}

/// The queue of the least key stands at this virtual runtime from then on if a job waits in it. Else its slip goes back to it. The head of
/// the queue has had its turn.
#[inline(always)]
pub(crate) fn relist_least<J: Drop, A: Allocator + Clone>(
    queues: &mut Queues<J, A>,
    ready: &mut Timeline<A>,
    queue: QueueNo,
    vr: u128,
)
    requires exists { queue < queue_count queues.old }
    requires out { has_slip queue queues.old ≡ false }
    requires some { ready.old.keys ≢ [] }
    requires least { IfSome (first_key ready.old.keys) (λ key. key.queue ≡ queue) }
    ensures keys { (key : Key) → (later : List Key) → ready.old.keys ≡ key ∷ later → ready.new.keys ≡ keys_after (is_any (waiting_of queue queues.old)) vr queue later }
    ensures slips { queues.new ≡ relisted (is_any (waiting_of queue queues.old)) queue queues.old }
{
    if queues.is_empty(queue) {
        let Some((_key, slip)) = ready.take_least() else {
            unreachable!()
        };
        queues.put_slip(slip);
    } else {
        ready.move_least(vr);
    }
}

/// Puts the slip of a queue into the timeline at this virtual runtime if a job waits in the queue, else back to the queue. The head of
/// the queue has had its turn.
#[inline(always)]
pub(crate) fn relist<J: Drop, A: Allocator + Clone>(
    queues: &mut Queues<J, A>,
    ready: &mut Timeline<A>,
    slip: Slip<A>,
    vr: u128,
)
    requires exists { slip < queue_count queues.old }
    requires out { has_slip slip queues.old ≡ false }
    requires absent { LacksQueue slip ready.old.keys }
    ensures keys { ready.new.keys ≡ keys_after (is_any (waiting_of slip queues.old)) vr slip ready.old.keys }
    ensures slips { queues.new ≡ relisted (is_any (waiting_of slip queues.old)) slip queues.old }
{
    if queues.is_empty(slip.queue()) {
        queues.put_slip(slip);
    } else {
        ready.insert(slip, vr);
    }
}
