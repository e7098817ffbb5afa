//! The actors of the house that aren't its judged core: of each the end on which it sends to that core.

ghost use Rattle.base_jobs.specs.Ready.{HasReadyJob};
ghost use Rattle.host_core.specs.Jobs.{host_meaning};

use base_words::{ActorNo, CoreNo, Envelope, MOST_CORES, Order, SendError};
use host_core::told::host_order;
use host_core::{HostJob, Hosted};
use host_house::Outside;
use link_ends::OutEnd;
use link_ring::{Ends, RingOut};
use std::alloc::{AllocError, Global};

/// The ends on which the other actors send to a core, by the number of their actor.
#[derive(Drop)]
pub(crate) struct Senders {
    core: CoreNo,
    cap: u16,
    ends: Vec<RingOut<HostJob>>,
}

/// The end of the link to this core. All others are given up.
fn end_to(core: CoreNo, ends: Ends<HostJob>) -> Option<RingOut<HostJob>> {
    let Ends { mut outs, .. } = ends;
    for _core in 0..MOST_CORES {
        if outs.len() > core.0 as usize + 1 {
            drop(outs.pop());
        }
    }
    outs.pop()
}

/// Collects as many outcomes as may be outstanding, so that more may be sent.
fn make_room(end: &mut RingOut<HostJob>, cap: u16) {
    for _outcome in 0..cap {
        if end.collect().is_none() {
            return;
        }
        end.credit();
    }
}

/// Sends this order. Whether it has this number.
fn sends_now(end: &mut RingOut<HostJob>, order: Order<HostJob>, number: u64) -> bool
    requires { HasReadyJob host_meaning order }
{
    match end.send(order) {
        Ok(sent) => sent == number,
        Err(_) => false,
    }
}

impl Senders {
    /// Those of the other cores and of the outside actor.
    pub(crate) fn of(
        alloc: Global,
        core: CoreNo,
        cap: u16,
        cores: Vec<Hosted>,
        outside: Outside,
    ) -> Result<Self, AllocError> {
        let mut ends = Vec::with_capacity(alloc, cores.len().saturating_add(1))?;
        for other in cores {
            if let Some(end) = end_to(core, other.into_ends()) {
                ends.push(end)?;
            }
        }
        if let Some(end) = end_to(core, outside.into_ends()) {
            ends.push(end)?;
        }
        Ok(Senders { core, cap, ends })
    }

    /// The place of a sender's end: the core itself has none.
    fn place(&self, sender: ActorNo) -> usize {
        if sender.0 < self.core.0 {
            sender.0 as usize
        } else {
            (sender.0 as usize).saturating_sub(1)
        }
    }

    /// Sends this order as the sender of its name does. Whether it has the number of the name. What the core sends to itself it has sent by then.
    pub(crate) fn sends(&mut self, envelope: Envelope<u64>) -> bool {
        let Envelope { name, order } = envelope;
        if name.from.0 == self.core.0 {
            return true;
        }
        let place = self.place(name.from);
        let Some(end) = self.ends.get_mut(place) else {
            return false;
        };
        if end.outstanding() >= u64::from(self.cap) {
            make_room(end, self.cap);
        }
        sends_now(end, host_order(order), name.number)
    }
}
