//! What one note tells.

ghost use Rattle.std.specs.Prelude.{◌≡◌};
ghost use Rattle.base_words.specs.Clauses as clauses;
ghost use Rattle.base_words.specs.Filters as filters;
ghost use Rattle.base_words.specs.Outstanding as outstanding;
ghost use Rattle.base_words.specs.Polls as polls;
ghost use Rattle.note_facts.specs.Told as told;

use base_words::{JobId, Note, Order, OutcomeNote, QueueNo};

/// The job that is polled for the first time.
pub fn name_started(note: &Note<u64>) -> Option<JobId>
    ensures { result ≡ filters.name_started note.now }
{
    match *note {
        Note::Start(name) => Some(name),
        _ => None,
    }
}

/// The job that is done or handed back.
pub fn name_ended(note: &Note<u64>) -> Option<JobId>
    ensures { result ≡ filters.name_ended note.now }
{
    match *note {
        Note::Done(name, _, _) | Note::Back(name, _) | Note::Returned(name, _) => Some(name),
        _ => None,
    }
}

/// The command that is answered.
pub fn name_answered(note: &Note<u64>) -> Option<JobId>
    ensures { result ≡ clauses.name_answered note.now }
{
    match *note {
        Note::Answered(name, _) => Some(name),
        _ => None,
    }
}

/// The submission whose outcome is redeemed.
pub fn name_redeemed(note: &Note<u64>) -> Option<JobId>
    ensures { result ≡ outstanding.name_redeemed note.now }
{
    match *note {
        Note::Redeemed(name, _) => Some(name),
        _ => None,
    }
}

/// The poll that is settled: its job and its time.
pub fn poll_settled(note: &Note<u64>) -> Option<(JobId, u64)>
    ensures { result ≡ polls.poll_settled note.now }
{
    match *note {
        Note::Yield(name, time) => Some((name, time)),
        Note::Park(name, time) => Some((name, time)),
        Note::Stayed(name, time) => Some((name, time)),
        Note::Done(name, time, _) => Some((name, time)),
        _ => None,
    }
}

/// The job that enters a queue.
pub fn queue_told(note: &Note<u64>) -> Option<(JobId, QueueNo)>
    ensures { result ≡ told.queue_told note.now }
{
    match *note {
        Note::Took(name, queue) => Some((name, queue)),
        _ => None,
    }
}

/// The submission that is sent, with its order.
pub fn order_told(note: &Note<u64>) -> Option<(JobId, Order<()>)>
    ensures { result ≡ told.order_told note.now }
{
    match *note {
        Note::Sent(name, order) => Some((name, order)),
        _ => None,
    }
}

/// The submission that is given an outcome.
pub fn outcome_told(note: &Note<u64>) -> Option<(JobId, OutcomeNote<u64>)>
    ensures { result ≡ told.outcome_told note.now }
{
    match *note {
        Note::Done(name, _, value) => Some((name, OutcomeNote::Finished(value))),
        Note::Back(name, reason) | Note::Returned(name, reason) => {
            Some((name, OutcomeNote::Returned(reason)))
        }
        Note::Answered(name, answer) => Some((name, OutcomeNote::Answered(answer))),
        _ => None,
    }
}

/// The submission whose outcome is collected.
pub fn collected_told(note: &Note<u64>) -> Option<(JobId, OutcomeNote<u64>)>
    ensures { result ≡ told.collected_told note.now }
{
    match *note {
        Note::Collected(name, outcome) => Some((name, outcome)),
        _ => None,
    }
}
