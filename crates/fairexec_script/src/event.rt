//! What the lines of a script let happen.

use base_jobs::ScriptJob;
use base_words::{ActorNo, CoreNo, JobId, Order};

/// What one line of a script lets happen, after its `queue` lines.
#[derive(Drop)]
pub enum ScriptEvent {
    /// The actor sends the order to the core.
    Send(ActorNo, CoreNo, Order<ScriptJob>),
    /// The core takes the next submission of the actor.
    Deliver(CoreNo, ActorNo),
    /// The core makes a turn. Script jobs tell their own time.
    Turn(CoreNo),
    /// The core shuts the gate of its link from the actor.
    Shut(CoreNo, ActorNo),
    /// The actor collects the outcomes that came back from the core.
    Collect(ActorNo, CoreNo),
    /// The sender of this name redeems its outcome.
    Redeem(JobId),
    /// The sender of this name lets go of its outcome.
    Detach(JobId),
}
