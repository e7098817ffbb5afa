//! A whole turn with its jobs in their places, poll by poll, beside its journal. A job may submit, redeem and detach.
//!
//! The order of a poll's notes is the order of its steps: the pick, what the job posted, the settling.
//!
//! - Before the poll `ahead` tells the job. Its notes are written from what was told, so nothing is asked of the core in between.
//! - During the poll the desk and the ends to all cores are lent to the job's post. What the job sends is noted there, as it is accepted.
//! - Behind the poll its settling is noted. The outcome of a job that is done is owed to its sender from then on.
ghost use Rattle.std.specs.Prelude.{◌≡◌, ℕ, ◌+◌, ◌*◌, ◌<◌, ◌≤◌, ◌++◌, None, IfSome, length, reverse, sum_by};
ghost use Rattle.std.specs.Option.{option_map};
ghost use Rattle.core_queues.specs.Fronts.{MakesCalls};
ghost use Rattle.base_words.specs.Bursts.{polls_in_turn};
ghost use Rattle.core_core.specs.Whole.{IsAhead, TellsAhead, TurnsWhole, pick_notes, settled_of, settle_notes};
ghost use Rattle.core_core.specs.Bursts.{IsOver};
ghost use Rattle.core_core.specs.Further.{IsAheadInTurn, FollowsWhole, follow_notes};
ghost use Rattle.base_words.specs.Outcomes.{outcome_note};
ghost use Rattle.link_ends.specs.Fits.{Fits};
ghost use Rattle.actor_desk.specs.Submissions.{IsWritten, desk_with, terms_of_desk};
ghost use Rattle.actor_desk.specs.Ends.{KeepsSent};
ghost use Rattle.actor_core.specs.Recorded.{desk_of};
ghost use Rattle.actor_core.specs.Ends.{IsInOf, IsInOwing, Gives, told_under};
ghost use Rattle.actor_core.specs.Owed.{outcome_settled};
ghost use Rattle.actor_core.specs.OwedPolls.{HasOwedPolls, seen_by};
ghost use Rattle.actor_desk.specs.Posts.{AreOutsOf, lends};
ghost use Rattle.actor_desk.specs.Calls.{Does};
ghost use Rattle.actor_desk.specs.Spending.{left_of};
ghost use Rattle.actor_core.specs.Turns.{IsPick, IsFurther, NothingFollows};
ghost use Rattle.actor_core.specs.Whole.{MayAnswer, TurnsNoted};

use super::Recorded;
use crate::handed::{give_if, outcome_done};
use actor_desk::{LentDesk, RecordedDesk, RecordedPost};
use base_jobs::{Job, Step, Task};
use base_sealed::SealedVec;
use base_words::{JobId, Note};
use core_core::{Ahead, Core, Next, PickError, Settled};
use core_queues::Meter;
use link_ends::{InEnd, OutEnd};
use std::alloc::{Allocator, Global};

/// The notes of the pick of this job.
#[inline(always)]
fn picked_notes(next: &Next) -> [Note<u64>; 2]
    ensures { result ≡ pick_notes next.now.queue next.now.vr next.now.name next.now.started }
{
    if next.started {
        [Note::Pick(next.queue, next.vr), Note::Resume(next.name)]
    } else {
        [Note::Pick(next.queue, next.vr), Note::Start(next.name)]
    }
}

/// The note that begins a further poll of this job.
#[inline(always)]
fn followed_notes(next: &Next) -> [Note<u64>; 1]
    ensures { result ≡ follow_notes next.now.name next.now.started }
{
    if next.started {
        [Note::Resume(next.name)]
    } else {
        [Note::Start(next.name)]
    }
}

/// The same job, with its name copied field by field: bytes that lie between them would go through memory, and wait there.
#[inline(always)]
fn apart(told: Option<Next>) -> Option<Next>
    ensures { result ≡ told }
{
    let mut next = told?;
    let name = next.name;
    next.name = JobId {
        from: name.from,
        to: name.to,
        number: name.number,
    };
    Some(next)
}

/// The note of a settled poll. A job that asks to be parked stays if a wake of it is kept.
#[inline(always)]
fn settled_notes(name: &JobId, time: u64, step: &Step<u64>, woken: bool) -> [Note<u64>; 1]
    ensures { result ≡ settle_notes name.now time step.now woken }
{
    match step {
        Step::Yield => [Note::Yield(*name, time)],
        Step::Park => {
            if woken {
                [Note::Stayed(*name, time)]
            } else {
                [Note::Park(*name, time)]
            }
        }
        Step::Done(answer) => [Note::Done(*name, time, *answer)],
    }
}

/// What a poll of this step settles to.
#[inline(always)]
fn settled(step: &Step<u64>, woken: bool) -> Settled<u64>
    ensures { result ≡ settled_of step.now woken }
{
    match step {
        Step::Yield => Settled::Yielded,
        Step::Park => {
            if woken {
                Settled::Stayed
            } else {
                Settled::Parked
            }
        }
        Step::Done(answer) => Settled::Finished(*answer),
    }
}

/// Notes the settling of the poll of this job. What the poll came to.
#[inline(always)]
fn note_settled<J: Task<Out = u64>>(
    said: &mut RecordedDesk<J>,
    next: &Next,
    step: &Step<u64>,
    time: u64,
) -> Settled<u64>
    requires room { length said.old.journal.notes < said.old.journal.room }
    requires written { IsWritten (terms_of_desk said.old) (reverse (settle_notes next.now.name time step.now next.now.woken) ++ said.old.journal.notes) }
    requires sent { KeepsSent said.old.journal.notes (reverse (settle_notes next.now.name time step.now next.now.woken) ++ said.old.journal.notes) }
    ensures noted { said.new ≡ desk_with (reverse (settle_notes next.now.name time step.now next.now.woken)) said.old }
    ensures settled { result ≡ settled_of step.now next.now.woken }
{
    let told = settled_notes(&next.name, time, step, next.woken);
    said.write(&told);
    settled(step, next.woken)
}

/// A desk and its ends that were lent have come back. The prover knows what two borrows leave if both are used once more in one call.
#[inline(always)]
fn came_back<J: Task<Out = u64>, E>(said: &mut RecordedDesk<J>, ends: &mut E)
    ensures said { said.new ≡ said.old }
    ensures ends { ends.new ≡ ends.old }
    ensures written { IsWritten (terms_of_desk said.new) said.new.journal.notes }
{
    said.see_lanes();
    let _ends = &*ends;
}

/// Polls the job that is told ahead where it stands, and settles its poll. The desk and the ends are lent to it for that long. The
/// answer: what the poll came to, and the time that counts.
#[inline(always)]
fn turn_lent<J: Job<Out = u64>, A: Allocator + Clone, O: OutEnd<J> + Drop, M: Meter>(
    core: &mut Core<J, A>,
    said: &mut RecordedDesk<J>,
    ends: &mut SealedVec<O, Global>,
    local: &mut J::Local,
    next: &Next,
    meter: &mut M,
) -> (Step<u64>, u64)
    requires ahead { IsAhead core.old next.now.queue next.now.vr next.now.name next.now.started next.now.woken }
    requires outs { AreOutsOf (Fits J.meaning) O.out O.credited said.old ends.old.items }
    requires spare { length said.old.journal.notes + sum_by left_of said.old.lanes < said.old.journal.room }
    ensures whole { MakesCalls (Does (Fits J.meaning) O.out O.credited O.untouched) (lends said.old ends.old.items) (lends said.new ends.new.items) (λ calls.
        (spent : ℕ) × M.Tells meter.old spent meter.new × TurnsWhole J.meaning core.old spent calls next.now.name next.now.queue next.now.started
        (pick_notes next.now.queue next.now.vr next.now.name next.now.started) (settled_of result.0 next.now.woken) (settle_notes next.now.name result.1 result.0 next.now.woken) core.new) }
    ensures outs { AreOutsOf (Fits J.meaning) O.out O.credited said.new ends.new.items }
    ensures room { length said.new.journal.notes < said.new.journal.room }
    ensures written { IsWritten (terms_of_desk said.new) said.new.journal.notes }
{
    let lent = LentDesk::of(said, ends, local);
    let mut post = RecordedPost::lend(lent);
    let (step, time) = core.turn_metered(next, &mut post, meter);
    let LentDesk {
        said: desk,
        ends: lent,
        local: _,
    } = post.into_parts();
    came_back(desk, lent);
    (step, time)
}

/// The same for a further poll, of the job that is told ahead in the open turn.
#[inline(always)]
fn further_lent<J: Job<Out = u64>, A: Allocator + Clone, O: OutEnd<J> + Drop, M: Meter>(
    core: &mut Core<J, A>,
    said: &mut RecordedDesk<J>,
    ends: &mut SealedVec<O, Global>,
    local: &mut J::Local,
    next: &Next,
    meter: &mut M,
) -> (Step<u64>, u64)
    requires ahead { IsAheadInTurn core.old next.now.queue next.now.vr next.now.name next.now.started next.now.woken }
    requires outs { AreOutsOf (Fits J.meaning) O.out O.credited said.old ends.old.items }
    requires spare { length said.old.journal.notes + sum_by left_of said.old.lanes < said.old.journal.room }
    ensures whole { MakesCalls (Does (Fits J.meaning) O.out O.credited O.untouched) (lends said.old ends.old.items) (lends said.new ends.new.items) (λ calls.
        (spent : ℕ) × M.Tells meter.old spent meter.new × FollowsWhole J.meaning core.old spent calls next.now.name next.now.queue next.now.started
        (follow_notes next.now.name next.now.started) (settled_of result.0 next.now.woken) (settle_notes next.now.name result.1 result.0 next.now.woken) core.new) }
    ensures outs { AreOutsOf (Fits J.meaning) O.out O.credited said.new ends.new.items }
    ensures room { length said.new.journal.notes < said.new.journal.room }
    ensures written { IsWritten (terms_of_desk said.new) said.new.journal.notes }
{
    let lent = LentDesk::of(said, ends, local);
    let mut post = RecordedPost::lend(lent);
    let (step, time) = core.turn_further_metered(next, &mut post, meter);
    let LentDesk {
        said: desk,
        ends: lent,
        local: _,
    } = post.into_parts();
    came_back(desk, lent);
    (step, time)
}

impl<J: Task<Out = u64>, A: Allocator + Clone> Recorded<J, A> {
    /// What the next pick would come to. Nothing changes.
    ///
    /// # Errors
    ///
    /// Those of `pick`.
    #[inline(always)]
    pub fn ahead(&self) -> Result<Ahead, PickError>
        ensures { TellsAhead self.now.core result }
    {
        self.core.ahead()
    }

    /// The job of a further poll of the open turn. None where `follow` would answer None. Nothing changes.
    pub fn ahead_in_turn(&self) -> Option<Next>
        ensures ahead { IfSome result (λ next. IsAheadInTurn self.now.core next.queue next.vr next.name next.started next.woken) }
        ensures over { result ≡ None → IsOver self.now.core }
        ensures nothing { result ≡ None → NothingFollows self.now }
    {
        apart(self.core.ahead_in_turn())
    }
}

impl<J: Job<Out = u64>, A: Allocator + Clone> Recorded<J, A> {
    /// Makes the first poll of the turn of the job that `ahead` told, with the job in its place. If turns may have several polls, the turn
    /// stays open: `further_posting` makes the next poll, and `end_turn` ends the turn. The job's pick is noted, it is polled once and lent the desk and
    /// its ends for that long, what it posts is noted, and its settling. If the job told no time of its own, that of the meter counts,
    /// which is started right before the poll and asked right after it. The outcome of a job that is done is owed: `give_done` gives it.
    #[inline(always)]
    pub fn turn_posting<O: OutEnd<J> + Drop, M: Meter>(
        &mut self,
        ends: &mut SealedVec<O, Global>,
        local: &mut J::Local,
        next: &Next,
        meter: &mut M,
    ) -> Settled<u64>
        requires ahead { IsAhead self.old.core next.now.queue next.now.vr next.now.name next.now.started next.now.woken }
        requires outs { AreOutsOf (Fits J.meaning) O.out O.credited (desk_of self.old) ends.old.items }
        requires room { length self.old.journal.notes + self.old.core.cores * (3 * self.old.cap) + 3 ≤ self.old.journal.room }
        ensures turns { TurnsNoted J.meaning IsPick O.out O.credited O.untouched (λ time. M.Tells meter.old time meter.new)
            3 1 self.old ends.old.items next.now.name next.now.queue next.now.started result self.new ends.new.items }
        ensures owed { HasOwedPolls J.meaning (seen_by O.out ends.old.items) self.old → HasOwedPolls J.meaning (seen_by O.out ends.new.items) self.new }
    {
        self.said.see_lanes();
        let picked = picked_notes(next);
        self.said.write(&picked);
        let (step, time) = turn_lent(&mut self.core, &mut self.said, ends, local, next, meter);
        note_settled(&mut self.said, next, &step, time)
    }

    /// Makes a further poll of the open turn, of the job that `ahead_in_turn` told, with the job in its place. Its beginning is noted, what
    /// it posts, and its settling. The time and the outcome are as in `turn_posting`. There is room for each note that may be posted
    /// before the next outcome is collected, and for two more.
    #[inline(always)]
    pub fn further_posting<O: OutEnd<J> + Drop, M: Meter>(
        &mut self,
        ends: &mut SealedVec<O, Global>,
        local: &mut J::Local,
        next: &Next,
        meter: &mut M,
    ) -> Settled<u64>
        requires ahead { IsAheadInTurn self.old.core next.now.queue next.now.vr next.now.name next.now.started next.now.woken }
        requires outs { AreOutsOf (Fits J.meaning) O.out O.credited (desk_of self.old) ends.old.items }
        requires room { length self.old.journal.notes + sum_by left_of self.old.lanes + 2 ≤ self.old.journal.room }
        ensures turns { TurnsNoted J.meaning IsFurther O.out O.credited O.untouched (λ time. M.Tells meter.old time meter.new)
            2 (polls_in_turn self.old.journal.notes + 1) self.old ends.old.items next.now.name next.now.queue next.now.started result self.new ends.new.items }
        ensures owed { HasOwedPolls J.meaning (seen_by O.out ends.old.items) self.old → HasOwedPolls J.meaning (seen_by O.out ends.new.items) self.new }
    {
        self.said.see_lanes();
        let begun = followed_notes(next);
        self.said.write(&begun);
        let (step, time) = further_lent(&mut self.core, &mut self.said, ends, local, next, meter);
        note_settled(&mut self.said, next, &step, time)
    }

    /// Gives the outcome of a turn on the end of the job's sender, if the job is done.
    #[inline(always)]
    pub fn give_done<I: InEnd<J>>(&self, end: &mut I, name: JobId, settled: &Settled<u64>)
        requires owed { IsInOwing name.from (told_under name (option_map outcome_note (outcome_settled {J = J} settled.now)) name.from) self.now (I.inward end.old) }
        requires may_answer { MayAnswer J.meaning self.now.took name settled.now }
        ensures gives { Gives (I.inward end.old) name.number (outcome_settled settled.now) (I.inward end.new) }
        ensures beside { IsInOf name.from self.now (I.inward end.new) }
        ensures untouched { I.untouched end.new ≡ I.untouched end.old }
    {
        let _said = &self.said;
        give_if(end, name.number, outcome_done(settled));
    }
}
