//! A runtime behind a lock, whose calls are made by handles on any threads.

ghost use Rattle.std.specs.Prelude.{◌≡◌, IfErr, IfOk};
ghost use Rattle.actor_caller.specs.Callers.{CallsMake};

use crate::runtime::{Crew, Runtime};
use actor_caller::{Callers, HandleOut};
use base_jobs::Task;
use note_journal::Sink;
use std::alloc::Global;
use std::sync::Wait;

/// A runtime behind a lock, and the handles that were given on it.
pub type RuntimeCallers<J, C, G, S> = Callers<J, S, Crew<J, C, G, S>>;

/// The calls of a runtime, from any thread.
pub type RuntimeHandle<J, C, G, S> = actor_caller::Handle<J, S, Crew<J, C, G, S>>;

impl<J: Task<Out = u64>, C: Drop, G: Drop, S: Sink> Runtime<J, C, G, S> {
    /// Puts the runtime behind a lock, so that handles on any threads make its calls.
    ///
    /// # Errors
    ///
    /// If there is no memory. The runtime comes back.
    pub fn into_callers(self, alloc: Global) -> Result<RuntimeCallers<J, C, G, S>, Self>
        ensures ok { IfOk result (λ callers. (callers.begun ≡ self) × (callers.given ≡ 0)) }
        ensures refused { IfErr result (λ back. back ≡ self) }
    {
        match self.into_caller().into_callers(alloc) {
            Ok(callers) => Ok(callers),
            Err(caller) => Err(Runtime { caller }),
        }
    }

    /// The runtime, once all handles are gone: what the calls of all of them made of it.
    ///
    /// # Errors
    ///
    /// `HandleOut` with the number of the first handle that isn't gone. The callers come back.
    pub fn from_callers<R: Wait>(
        rt: &R,
        callers: RuntimeCallers<J, C, G, S>,
    ) -> Result<Self, HandleOut<RuntimeCallers<J, C, G, S>>>
        ensures ok { IfOk result (CallsMake J.meaning callers.begun) }
        ensures refused { IfErr result (λ out. out.back ≡ callers) }
    {
        match callers.into_caller(rt) {
            Ok(caller) => Ok(Runtime { caller }),
            Err(out) => Err(out),
        }
    }
}
