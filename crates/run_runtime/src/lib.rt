//! The running threads: a worker for each core, and the outside actor whose calls the caller makes.
#![tactic(auto)]

pub mod callers;
mod calls;
pub mod error;
mod finishing;
pub mod laws;
pub mod passed;
pub mod runtime;
mod starting;
mod starts;

pub use actor_caller::{CallerTicket, HandleOut};
pub use callers::{RuntimeCallers, RuntimeHandle};
pub use error::{FinishError, StartError, SubmitError};
pub use note_journal::{Refused, Sink, Whole};
pub use passed::{ActorNotes, Passed};
pub use run_config::{Clock, Config, Gate, NoGate, SystemClock};
pub use run_watch::Watcher;
pub use run_worker::{Ended, Worker};
pub use runtime::Runtime;
