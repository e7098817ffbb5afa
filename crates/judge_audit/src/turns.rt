//! The turn that is open: its queue, its polls and its time, note by note.

ghost use Rattle.std.specs.Prelude.{◌≡◌, ◌<◌, ℕ, IsTrue, None, Some, is_some, true};
ghost use Rattle.judge_audit.specs.OpenTurns.{AnswersPick, FitsEnd, FitsPoll, IsEnd, IsFurther, lasted, polled_again, time_after, turn_after, turn_begun, turn_further, turn_polled, turn_settled};

use base_words::{JobId, Note, QueueNo, clamped};
use note_facts::has_bursts;

/// The time of a turn counts for less than this.
const LONGEST: u64 = (1 << 40) - 1;

/// A turn that was begun and hasn't ended: its queue, how many polls it had, and their time.
#[derive(Clone, Copy)]
pub struct OpenTurn {
    pub queue: QueueNo,
    pub polls: u8,
    pub time: u64,
}

/// The turn of a queue that was just picked, after its first poll: open, if a note of its own ends it.
fn turn_begun(burst: u8, queue: QueueNo) -> Option<OpenTurn>
    ensures { result ≡ turn_begun burst queue }
{
    if has_bursts(burst) {
        Some(OpenTurn {
            queue,
            polls: 1,
            time: 0,
        })
    } else {
        None
    }
}

/// The turn after a further poll.
fn polled_again(turn: &OpenTurn) -> OpenTurn
    ensures { result ≡ polled_again turn.now }
{
    OpenTurn {
        queue: turn.queue,
        polls: turn.polls.saturating_add(1),
        time: turn.time,
    }
}

/// The time of a turn after a settled poll. Each is cut at what counts.
fn time_after(so_far: u64, time: u64) -> u64
    ensures { result ≡ time_after so_far time }
{
    so_far.saturating_add(clamped(time)).min(LONGEST)
}

/// The turn after a settled poll.
fn lasted(time: u64, turn: &OpenTurn) -> OpenTurn
    ensures { result ≡ lasted time turn.now }
{
    OpenTurn {
        queue: turn.queue,
        polls: turn.polls,
        time: time_after(turn.time, time),
    }
}

/// The open turn after a settled poll.
fn turn_settled(time: u64, turn: Option<OpenTurn>) -> Option<OpenTurn>
    ensures { result ≡ turn_settled time turn }
{
    match turn {
        Some(turn) => Some(lasted(time, &turn)),
        None => None,
    }
}

/// The open turn after a further poll.
fn turn_further(turn: Option<OpenTurn>) -> Option<OpenTurn>
    ensures { result ≡ turn_further turn }
{
    match turn {
        Some(turn) => Some(polled_again(&turn)),
        None => None,
    }
}

/// The open turn after a poll: behind a pick a turn begins.
fn turn_polled(burst: u8, picked: Option<QueueNo>, turn: Option<OpenTurn>) -> Option<OpenTurn>
    ensures { result ≡ turn_polled burst picked turn }
{
    match picked {
        Some(queue) => turn_begun(burst, queue),
        None => turn_further(turn),
    }
}

/// The open turn after a note.
pub fn turn_after(
    burst: u8,
    picked: Option<QueueNo>,
    turn: Option<OpenTurn>,
    note: &Note<u64>,
) -> Option<OpenTurn>
    ensures { result ≡ turn_after burst picked turn note.now }
{
    match *note {
        Note::Pick(_, _) => None,
        Note::Start(_) => turn_polled(burst, picked, turn),
        Note::Resume(_) => turn_polled(burst, picked, turn),
        Note::Yield(_, time) => turn_settled(time, turn),
        Note::Park(_, time) => turn_settled(time, turn),
        Note::Stayed(_, time) => turn_settled(time, turn),
        Note::Done(_, time, _) => turn_settled(time, turn),
        Note::Turned(_, _) => None,
        _ => turn,
    }
}

/// Whether there is a queue, and it is this one.
fn is_queue(there: Option<QueueNo>, queue: QueueNo) -> bool
    ensures right { IsTrue result → there ≡ Some queue }
    ensures only { there ≡ Some queue → IsTrue result }
{
    match there {
        Some(there) => there.0 == queue.0,
        None => false,
    }
}

/// Whether the job is of the queue that was just picked.
pub fn is_of_pick(picked: Option<QueueNo>, queue: Option<QueueNo>) -> bool
    ensures right { IsTrue result → (is_some picked ≡ true) × (picked ≡ queue) }
    ensures only { is_some picked ≡ true → picked ≡ queue → IsTrue result }
{
    let Some(picked) = picked else {
        return false;
    };
    match queue {
        Some(queue) => picked.0 == queue.0,
        None => false,
    }
}

/// Whether a poll answers to the pick of its queue, or to no pick, where a turn is open.
pub fn answers_pick(turn: Option<OpenTurn>, picked: Option<QueueNo>, queue: Option<QueueNo>) -> bool
    ensures right { IsTrue result → AnswersPick turn picked queue }
    ensures only { AnswersPick turn picked queue → IsTrue result }
{
    match turn {
        Some(_) => picked.is_none(),
        None => is_of_pick(picked, queue),
    }
}

/// Whether a job of this queue may be polled further in a turn.
fn is_further(burst: u8, turn: &OpenTurn, out: Option<JobId>, queue: Option<QueueNo>) -> bool
    ensures right { IsTrue result → IsFurther burst turn.now out queue }
    ensures only { IsFurther burst turn.now out queue → IsTrue result }
{
    out.is_none() && turn.polls < burst && is_queue(queue, turn.queue)
}

/// Whether a job of this queue may be polled further in the turn that is open, if one is.
pub fn fits_poll(
    burst: u8,
    turn: Option<OpenTurn>,
    out: Option<JobId>,
    queue: Option<QueueNo>,
) -> bool
    ensures right { IsTrue result → FitsPoll burst turn out queue }
    ensures only { FitsPoll burst turn out queue → IsTrue result }
{
    match turn {
        Some(turn) => is_further(burst, &turn, out, queue),
        None => true,
    }
}

/// Whether a turn may end, as one of this queue and this time.
fn is_end(turn: &OpenTurn, out: Option<JobId>, queue: QueueNo, time: u64) -> bool
    ensures right { IsTrue result → IsEnd turn.now out queue time }
    ensures only { IsEnd turn.now out queue time → IsTrue result }
{
    out.is_none() && turn.queue.0 == queue.0 && turn.time == time
}

/// Whether a turn is open that may end, as one of this queue and this time.
pub fn fits_end(turn: Option<OpenTurn>, out: Option<JobId>, queue: QueueNo, time: u64) -> bool
    ensures right { IsTrue result → FitsEnd turn out queue time }
    ensures only { FitsEnd turn out queue time → IsTrue result }
{
    match turn {
        Some(turn) => is_end(&turn, out, queue, time),
        None => false,
    }
}
