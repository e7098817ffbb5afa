//! Whether two notes are one.

ghost use Rattle.std.specs.Prelude.{◌≡◌, IsTrue};

use base_words::{Note, Order, OutcomeNote};
use note_facts::same::same_outcome;
use note_journal::same_name;

/// Whether two orders are one.
fn same_order(one: &Order<()>, other: &Order<()>) -> bool
    ensures { IsTrue result → one.now ≡ other.now }
{
    *one == *other
}

/// Whether two notes of what crosses a link are one.
fn same_crossing(one: &Note<u64>, other: &Note<u64>) -> bool
    ensures { IsTrue result → one.now ≡ other.now }
{
    match *one {
        Note::Sent(name, order) => match *other {
            Note::Sent(that, other) => same_name(&name, &that) && same_order(&order, &other),
            _ => false,
        },
        Note::Took(name, queue) => match *other {
            Note::Took(that, other) => same_name(&name, &that) && queue.0 == other.0,
            _ => false,
        },
        Note::Back(name, reason) => match *other {
            Note::Back(that, other) => same_name(&name, &that) && reason == other,
            _ => false,
        },
        Note::Answered(name, answer) => match *other {
            Note::Answered(that, other) => {
                same_name(&name, &that)
                    && same_outcome(
                        &OutcomeNote::Answered(answer),
                        &OutcomeNote::Answered(other),
                    )
            }
            _ => false,
        },
        Note::Collected(name, outcome) => match *other {
            Note::Collected(that, other) => same_name(&name, &that)
                && same_outcome(&outcome, &other),
            _ => false,
        },
        Note::Redeemed(name, outcome) => match *other {
            Note::Redeemed(that, other) => same_name(&name, &that)
                && same_outcome(&outcome, &other),
            _ => false,
        },
        Note::Detached(name) => match *other {
            Note::Detached(that) => same_name(&name, &that),
            _ => false,
        },
        Note::Shut(sender, count) => match *other {
            Note::Shut(that, other) => sender.0 == that.0 && count == other,
            _ => false,
        },
        _ => false,
    }
}

/// Whether two notes of what changes a core are one.
fn same_change(one: &Note<u64>, other: &Note<u64>) -> bool
    ensures { IsTrue result → one.now ≡ other.now }
{
    match *one {
        Note::Created(queue, shares) => match *other {
            Note::Created(that, other) => queue.0 == that.0 && shares.get() == other.get(),
            _ => false,
        },
        Note::SharesSet(queue, shares) => match *other {
            Note::SharesSet(that, other) => queue.0 == that.0 && shares.get() == other.get(),
            _ => false,
        },
        Note::QueueClosed(queue, mode) => match *other {
            Note::QueueClosed(that, other) => queue.0 == that.0 && mode == other,
            _ => false,
        },
        Note::CoreClosed(mode) => match *other {
            Note::CoreClosed(that) => mode == that,
            _ => false,
        },
        Note::Woken(name) => match *other {
            Note::Woken(that) => same_name(&name, &that),
            _ => false,
        },
        _ => false,
    }
}

/// Whether two notes of a turn are one.
fn same_turn(one: &Note<u64>, other: &Note<u64>) -> bool
    ensures { IsTrue result → one.now ≡ other.now }
{
    match *one {
        Note::Pick(queue, runtime) => match *other {
            Note::Pick(that, other) => queue.0 == that.0 && runtime == other,
            _ => false,
        },
        Note::Start(name) => match *other {
            Note::Start(that) => same_name(&name, &that),
            _ => false,
        },
        Note::Resume(name) => match *other {
            Note::Resume(that) => same_name(&name, &that),
            _ => false,
        },
        Note::Yield(name, time) => match *other {
            Note::Yield(that, other) => same_name(&name, &that) && time == other,
            _ => false,
        },
        Note::Park(name, time) => match *other {
            Note::Park(that, other) => same_name(&name, &that) && time == other,
            _ => false,
        },
        Note::Stayed(name, time) => match *other {
            Note::Stayed(that, other) => same_name(&name, &that) && time == other,
            _ => false,
        },
        Note::Returned(name, reason) => match *other {
            Note::Returned(that, other) => same_name(&name, &that) && reason == other,
            _ => false,
        },
        Note::Turned(queue, time) => match *other {
            Note::Turned(that, other) => queue.0 == that.0 && time == other,
            _ => false,
        },
        _ => false,
    }
}

/// Whether two polls that ended a job are one.
fn same_end(one: &Note<u64>, other: &Note<u64>) -> bool
    ensures { IsTrue result → one.now ≡ other.now }
{
    match *one {
        Note::Done(name, time, value) => match *other {
            Note::Done(that, other, answer) => same_name(&name, &that)
                && time == other
                && value == answer,
            _ => false,
        },
        _ => false,
    }
}

/// Whether two notes are one.
pub(crate) fn same_note(one: &Note<u64>, other: &Note<u64>) -> bool
    ensures { IsTrue result → one.now ≡ other.now }
{
    same_turn(one, other)
        || same_end(one, other)
        || same_crossing(one, other)
        || same_change(one, other)
}
