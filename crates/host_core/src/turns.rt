//! How a job goes out for the host to run it.

ghost use Rattle.std.specs.Prelude.{◌≡◌, ◌+◌, ◌<◌, ◌≤◌, None, Ok, Some, IfSome, length};
ghost use Rattle.core_core.specs.Answers.{IsReadyTurn};
ghost use Rattle.actor_core.specs.Turns.{Follows};
ghost use Rattle.actor_seat.specs.Linked.{StaysLinked};
ghost use Rattle.actor_seat.specs.Seats.{IsSeated};
ghost use Rattle.host_core.specs.declared.answers.Picked.TheVariants.{Resume, Start};
ghost use Rattle.host_core.specs.Hosted.{IsHosted, IsRunOf};
ghost use Rattle.host_core.specs.Jobs.{host_meaning};
ghost use Rattle.host_core.specs.Takings.{run_of, told_taking};
ghost use Rattle.host_core.specs.Turns.{EndsIfOpen, Goes, GoesFurther, TakesOut};

use crate::answers::{Picked, Refusal};
use crate::job::HostJob;
use actor_seat::{Seat, Taken};
use base_words::{JobId, QueueNo};
use core_core::{PickError, Turn};

/// A job that the host runs, under its name.
#[derive(Drop)]
pub struct Run {
    pub name: JobId,
    pub job: HostJob,
}

/// The host is to run this job of a queue for the first time.
fn started(run: Run, queue: QueueNo) -> (Result<Picked, Refusal>, Option<Run>)
    ensures told { result.0 ≡ Ok (Start run.name queue run.job.handle) }
    ensures run { result.1 ≡ Some run }
{
    let told = Picked::Start(run.name, queue, run.job.handle);
    (Ok(told), Some(run))
}

/// The host is to run this job again.
fn resumed(run: Run, queue: QueueNo) -> (Result<Picked, Refusal>, Option<Run>)
    ensures told { result.0 ≡ Ok (Resume run.name queue run.job.handle) }
    ensures run { result.1 ≡ Some run }
{
    let told = Picked::Resume(run.name, queue, run.job.handle);
    (Ok(told), Some(run))
}

/// What the host is told of a turn, and the job that it is to run.
fn told_turn(taken: Result<Taken<HostJob>, PickError>) -> (Result<Picked, Refusal>, Option<Run>)
    ensures told { result.0 ≡ told_taking taken }
    ensures run { result.1 ≡ run_of taken }
{
    match taken {
        Ok(Taken::Start(name, queue, job)) => started(Run { name, job }, queue),
        Ok(Taken::Resume(name, queue, job)) => resumed(Run { name, job }, queue),
        Ok(Taken::Back(name, reason)) => (Ok(Picked::Back(name, reason)), None),
        Ok(Taken::Idle) => (Ok(Picked::Idle), None),
        Err(PickError::Busy) => (Err(Refusal::Busy), None),
        Err(PickError::Spent) => (Err(Refusal::Spent), None),
    }
}

/// Takes out the next job of the open turn. If none is open, or the open one may not go on and is ended, there is none.
fn follow_or_end(seat: &mut Seat<HostJob>) -> Option<Turn<HostJob>>
    requires rest { seat.old.recorded.core.out ≡ None }
    requires room { length seat.old.recorded.journal.notes < seat.old.recorded.journal.room }
    ensures follows { IfSome result (λ turn. Follows seat.old.recorded (Some turn) seat.new.recorded) }
    ensures ready { IfSome result (λ turn. IsReadyTurn host_meaning (Ok turn)) }
    ensures over { result ≡ None → EndsIfOpen seat.old.recorded seat.new.recorded }
    ensures same { seat.new.ends ≡ seat.old.ends }
    ensures few { length seat.new.recorded.journal.notes ≤ length seat.old.recorded.journal.notes + 1 }
    ensures stays { StaysLinked seat.old seat.new }
    ensures seated { IsSeated host_meaning seat.new }
{
    if !seat.recorded().has_open_turn() {
        return None;
    }
    if let Some(turn) = seat.follow() {
        return Some(turn);
    }
    seat.end_turn();
    None
}

/// Takes out the next job of the open turn, or that of the right pick once no turn is open, or hands it back.
fn take_out(seat: &mut Seat<HostJob>) -> Result<Taken<HostJob>, PickError>
    requires rest { seat.old.recorded.core.out ≡ None }
    requires room { length seat.old.recorded.journal.notes + 3 ≤ seat.old.recorded.journal.room }
    ensures { TakesOut seat.old result seat.new }
{
    match follow_or_end(seat) {
        Some(Turn::Start(name, queue, job)) => Ok(Taken::Start(name, queue, job)),
        Some(Turn::Resume(name, queue, job)) => Ok(Taken::Resume(name, queue, job)),
        Some(Turn::Back(..)) | Some(Turn::Idle) => unreachable!(),
        None => seat.pick(),
    }
}

/// Makes the next turn: what the host is told of it, and the job that it is to run.
pub(crate) fn go_on(seat: &mut Seat<HostJob>) -> (Result<Picked, Refusal>, Option<Run>)
    requires rest { seat.old.recorded.core.out ≡ None }
    requires room { length seat.old.recorded.journal.notes + 4 ≤ seat.old.recorded.journal.room }
    ensures goes { Goes seat.old result.0 seat.new }
    ensures runs { IsRunOf seat.new.recorded.core.out result.1 }
    ensures hosted { IsHosted seat.new }
    ensures stays { StaysLinked seat.old seat.new }
{
    told_turn(take_out(seat))
}

/// Goes on with the open turn, or ends it: what the host is told of the job that it is to run, and that job.
pub(crate) fn go_further(seat: &mut Seat<HostJob>) -> (Option<Picked>, Option<Run>)
    requires rest { seat.old.recorded.core.out ≡ None }
    requires room { length seat.old.recorded.journal.notes + 4 ≤ seat.old.recorded.journal.room }
    ensures goes { GoesFurther seat.old.recorded result.0 seat.new.recorded }
    ensures same { seat.new.ends ≡ seat.old.ends }
    ensures runs { IsRunOf seat.new.recorded.core.out result.1 }
    ensures hosted { IsHosted seat.new }
    ensures stays { StaysLinked seat.old seat.new }
{
    match follow_or_end(seat) {
        Some(Turn::Start(name, queue, job)) => {
            let (told, run) = started(Run { name, job }, queue);
            (told.ok(), run)
        }
        Some(Turn::Resume(name, queue, job)) => {
            let (told, run) = resumed(Run { name, job }, queue);
            (told.ok(), run)
        }
        Some(Turn::Back(..)) | Some(Turn::Idle) => unreachable!(),
        None => (None, None),
    }
}
