//! A turn that hands a job back. Its outcome is given at once, on the end of its sender.

ghost use Rattle.std.specs.Prelude.{◌≡◌, ◌+◌, ◌≤◌, None, Ok, Some, length};
ghost use Rattle.base_words.specs.declared.order.Outcome.TheVariants.{Returned};
ghost use Rattle.core_core.specs.declared.turn.Ahead.TheVariants as tells;
ghost use Rattle.core_core.specs.declared.turn.Turn.TheVariants.{Back};
ghost use Rattle.core_core.specs.Whole.{TellsAhead};
ghost use Rattle.actor_core.specs.Owed.{IsSentUnder};
ghost use Rattle.actor_core.specs.Turns.{IsBack};
ghost use Rattle.actor_core.specs.Beside.{AreAround, IsAtRest, PollsAsOwed, none_owed, owed_under};
ghost use Rattle.actor_core.specs.TurnPolls.{GivesOn};
ghost use Rattle.actor_core.specs.Rooms.{open_queue};
ghost use Rattle.actor_core.specs.WholeTurns.{HandsBack};

use crate::recorded::Recorded;
use base_jobs::Task;
use base_words::{CoreNo, JobId, Order, Reason};
use core_core::{PickError, Turn};
use link_ends::Around;
use std::alloc::Allocator;

// The job that the pick handed back, why, and its order.
fn back_of<J: Drop>(picked: Result<Turn<J>, PickError>) -> (JobId, Reason, Order<J>)
    requires { IsBack picked }
    ensures { picked ≡ Ok (Back result.0 result.2 result.1) }
{
    match picked {
        Ok(Turn::Back(name, order, reason)) => (name, reason, order),
        Ok(_) | Err(_) => unreachable!(),
    }
}

// Gives the outcome of a job that a pick handed back, on the end of its sender.
fn give_back_on<J: Task<Out = u64>, A: Allocator + Clone, E: Around<J>>(
    core: &Recorded<J, A>,
    around: &mut E,
    own: CoreNo,
    name: JobId,
    reason: Reason,
    order: Order<J>,
)
    requires known { name.from ≤ core.now.core.cores }
    requires sent { IsSentUnder J.meaning core.now.took name order }
    requires owing { AreAround J.meaning E.reach own (owed_under name (Some (Returned reason order))) core.now around.old }
    ensures gives { GivesOn E.reach own name.from name.number (Some (Returned reason order)) around.old around.new }
    ensures around { AreAround J.meaning E.reach own none_owed core.now around.new }
    ensures owed { PollsAsOwed J.meaning E.reach own core.now around.old → PollsAsOwed J.meaning E.reach own core.now around.new }
{
    core.give_back(around.lend_in(own, name.from), name, reason, order);
}

/// Hands back the job that the next pick hands back, and gives its outcome.
pub(crate) fn hand_back<J: Task<Out = u64>, A: Allocator + Clone, E: Around<J>>(
    core: &mut Recorded<J, A>,
    around: &mut E,
    own: CoreNo,
)
    requires ahead { TellsAhead core.old.core (Ok tells.Back) }
    requires rest { IsAtRest J.meaning E.reach own core.old around.old }
    requires room { length core.old.journal.notes + 2 ≤ core.old.journal.room }
    ensures back { HandsBack J.meaning E.reach own core.old core.new around.old around.new }
    ensures no_turn { open_queue core.new ≡ None }
    ensures owed { PollsAsOwed J.meaning E.reach own core.old around.old → PollsAsOwed J.meaning E.reach own core.new around.new }
{
    let (name, reason, order) = back_of(core.pick());
    give_back_on(core, around, own, name, reason, order);
}
