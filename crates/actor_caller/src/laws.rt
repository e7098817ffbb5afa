//! Laws over the definitions alone. Their bodies are empty: each contract is the law.

ghost use Rattle.std.specs.Prelude.{ℕ};
ghost use Rattle.link_ends.specs.Fits.{Fits};
ghost use Rattle.actor_caller.specs.Laws.{ClosedStaysClosed, RefusedOrdersComeBack};
ghost use Rattle.actor_caller.specs.WaitingLaws.{WaitsRedeemOnce, WaitsSubmitOnce};

use base_jobs::Task;

/// A send is answered `Closed` only where the gate was found shut, and from then on each send to that core is.
pub fn closed_stays_closed<J: Task<Out = u64>>()
    ensures { ClosedStaysClosed J }
{}

/// A submission that is refused gives its order back, whatever the reason: what `into_order` answers is what was handed in.
pub fn refused_orders_come_back<J: Task<Out = u64>>()
    ensures { RefusedOrdersComeBack J }
{}

/// A caller that waits for an outcome collects, and then redeems it once. It redeems, lets go and submits nothing else.
pub fn waits_redeem_once<J: Task<Out = u64>>()
    ensures { WaitsRedeemOnce (Fits J.meaning) }
{}

/// A caller that waits for a place collects, and then submits its order once. It redeems and lets go nothing.
pub fn waits_submit_once<J: Task<Out = u64>>()
    ensures { WaitsSubmitOnce J ℕ }
{}
