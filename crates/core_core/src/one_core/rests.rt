//! The job that is out asks to be parked.
ghost use Rattle.std.specs.Prelude.{◌≡◌, ℕ, IsSome, IfSome, List, [], ◌∷◌};
ghost use Rattle.base_words.specs.declared.note.Note.{Note};
ghost use Rattle.base_jobs.specs.Ready.{IsReady};
ghost use Rattle.core_core.specs.State.{IsBounded};
ghost use Rattle.core_core.specs.Settling as spec;
ghost use Rattle.core_core.specs.Steps.{RestsOut};

use super::Core;
use crate::notes::{Notes, one_note};
use crate::turn::Settled;
use base_jobs::Task;
use base_words::Note;
use std::alloc::Allocator;

impl<J: Task, A: Allocator + Clone> Core<J, A> {
    /// Whether a wake of the job that is out is kept.
    pub(super) fn is_out_woken(&self) -> bool
        requires { IsSome self.now.out }
        ensures { IfSome self.now.out (λ out. result ≡ out.woken) }
    {
        let Some(out) = &self.out else { unreachable!() };
        out.woken
    }

    /// Whether the job that is out stays in its line if it asks to be parked.
    fn is_out_staying(&self) -> bool
        requires { IsSome self.now.out }
        ensures { IfSome self.now.out (λ out. result ≡ spec.stays out self.now) }
    {
        let Some(out) = &self.out else { unreachable!() };
        out.woken || self.return_reason(out.queue).is_some()
    }

    /// The job that was out asks to be parked: it is, or goes to the tail of its queue and uses up the wake that is kept.
    #[inline(always)]
    pub(super) fn rest_out(&mut self, job: J, time: u64) -> (Settled<J::Out>, Notes<J::Out>)
    where
        J::Out: Copy,
        requires out { IsSome self.old.out }
        requires ready { IsReady J.meaning job }
        ensures rests { RestsOut self.old job time result.0 self.new result.1.items }
        ensures bounded { IsBounded self.new }
    {
        if self.is_out_staying() {
            let name = self.rejoin_out(job, time, false);
            return (Settled::Stayed, one_note(Note::Stayed(name, time)));
        }
        let name = self.park_out(job, time);
        (Settled::Parked, one_note(Note::Park(name, time)))
    }
}
