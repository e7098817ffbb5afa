//! The greatest lag of two queues of a core.

ghost use Rattle.std.specs.Prelude.{◌≡◌, ◌≤◌};
ghost use Rattle.fairview_lag.specs.Pairs as spec;

use crate::stretch::Lag;
use base_words::{CoreNo, Note, QueueNo};

/// The greatest lag of two queues of a core. The first has the lower number.
#[derive(Clone, Copy)]
pub struct PairLag {
    pub core: CoreNo,
    pub first: QueueNo,
    pub second: QueueNo,
    pub lag: Lag,
}

/// How many queues there are up to the one that a job enters.
pub(crate) fn queues_told(note: &Note<u64>) -> u32
    ensures value { result ≡ spec.queues_told note.now }
    ensures bounded { result ≤ 256 }
{
    match *note {
        Note::Took(_, queue) => queue.0 as u32 + 1,
        _ => 0,
    }
}

/// The pair, if there is a lag of it.
pub(crate) fn pair_of(
    core: CoreNo,
    first: QueueNo,
    second: QueueNo,
    lag: Option<Lag>,
) -> Option<PairLag>
    ensures { result ≡ spec.pair_of core first second lag }
{
    match lag {
        Some(lag) => Some(PairLag {
            core,
            first,
            second,
            lag,
        }),
        None => None,
    }
}
