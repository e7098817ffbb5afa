//! When two outcomes are one.

ghost use Rattle.std.specs.Prelude.{◌≡◌, IsTrue};

use base_words::{Answer, OutcomeNote};

fn same_answer(one: &Answer, other: &Answer) -> bool
    ensures right { IsTrue result → one.now ≡ other.now }
    ensures only { one.now ≡ other.now → IsTrue result }
{
    match *one {
        Answer::Created(queue) => match *other {
            Answer::Created(second) => queue.0 == second.0,
            _ => false,
        },
        Answer::TooMany => matches!(*other, Answer::TooMany),
        Answer::NoMemory => matches!(*other, Answer::NoMemory),
        Answer::CoreClosing => matches!(*other, Answer::CoreClosing),
        Answer::SharesSet => matches!(*other, Answer::SharesSet),
        Answer::NoQueue => matches!(*other, Answer::NoQueue),
        Answer::Closed => matches!(*other, Answer::Closed),
        Answer::AlreadyClosed => matches!(*other, Answer::AlreadyClosed),
        Answer::Woken => matches!(*other, Answer::Woken),
        Answer::NoJob => matches!(*other, Answer::NoJob),
    }
}

/// Whether two outcomes are one.
pub fn same_outcome(one: &OutcomeNote<u64>, other: &OutcomeNote<u64>) -> bool
    ensures right { IsTrue result → one.now ≡ other.now }
    ensures only { one.now ≡ other.now → IsTrue result }
{
    match *one {
        OutcomeNote::Finished(value) => match *other {
            OutcomeNote::Finished(second) => value == second,
            _ => false,
        },
        OutcomeNote::Returned(reason) => match *other {
            OutcomeNote::Returned(second) => reason == second,
            _ => false,
        },
        OutcomeNote::Answered(answer) => match *other {
            OutcomeNote::Answered(second) => same_answer(&answer, &second),
            _ => false,
        },
    }
}
