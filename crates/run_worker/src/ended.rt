//! What a worker gives back.

ghost use Rattle.std.specs.Prelude.{◌≡◌};
ghost use Rattle.run_watch.specs.Growth.{Grows};
ghost use Rattle.run_worker.specs.Ended.{HasEnded};
ghost use Rattle.run_worker.specs.Shown.{shown_of};

use actor_seat::Seat;
use base_jobs::Task;
use note_journal::{Sink, Whole};
use run_watch::{Publisher, Watcher, compare};
use std::marker::Model;

/// A drained core with its journal and ends, the sink that has the notes that were passed on, what its jobs shared, and the board on which
/// its numbers were published.
#[derive(Drop)]
pub struct Ended<J: Task<Out = u64>, S: Sink = Whole> {
    seat: Seat<J>,
    sink: S,
    local: J::Local,
    publisher: Publisher,
}

impl<J: Task<Out = u64>, S: Sink> Model for Ended<J, S> {
    ghost use Rattle.std.specs.Prelude.{ℕ};
    ghost use Rattle.run_worker.specs.Ended.{EndedView};

    ghost Value = { EndedView J ℕ S };

    ghost use Rattle.run_worker.specs.Ended.{HasEnded};
    ghost use Rattle.run_worker.specs.Shown.{shown_of};

    ghost view = { λ e. record { linked = e.seat; sink = e.sink; shown = shown_of e.publisher } };

    ghost invariant = { λ e. HasEnded J.meaning S.has S.refused (record { linked = e.seat; sink = e.sink; shown = shown_of e.publisher }) };
}

impl<J: Task<Out = u64>, S: Sink> Ended<J, S> {
    /// What a worker gives back at its end.
    pub fn of(seat: Seat<J>, sink: S, local: J::Local, publisher: Publisher) -> Self
        requires { HasEnded J.meaning S.has S.refused (record { linked = seat; sink = sink; shown = shown_of publisher }) }
        ensures { result ≡ record { linked = seat; sink = sink; shown = shown_of publisher } }
    {
        Ended {
            seat,
            sink,
            local,
            publisher,
        }
    }

    /// Tells, for proofs alone, that the core's journal begins with the notes whose numbers this watcher of its board tells.
    pub fn compare(&mut self, watcher: &mut Watcher)
        requires { watcher.old.board ≡ self.old.shown.board }
        ensures same { self.new ≡ self.old }
        ensures watcher { watcher.new ≡ watcher.old }
        ensures grows { Grows watcher.old.notes self.old.linked.recorded.journal.notes }
    {
        compare(&mut self.publisher, watcher);
    }

    /// The core with its journal and ends, the sink, and what the jobs of the core shared.
    pub fn into_all(self) -> (Seat<J>, S, J::Local)
        ensures linked { result.0 ≡ self.linked }
        ensures sink { result.1 ≡ self.sink }
        ensures ended { HasEnded J.meaning S.has S.refused self }
    {
        let Ended {
            seat,
            sink,
            local,
            ..
        } = self;
        (seat, sink, local)
    }

    /// The core with its journal and ends, and the sink.
    pub fn into_parts(self) -> (Seat<J>, S)
        ensures linked { result.0 ≡ self.linked }
        ensures sink { result.1 ≡ self.sink }
        ensures ended { HasEnded J.meaning S.has S.refused self }
    {
        let Ended { seat, sink, .. } = self;
        (seat, sink)
    }

    /// The core with its journal and ends, where the sink isn't asked for.
    pub fn into_linked(self) -> Seat<J>
        ensures same { result ≡ self.linked }
        ensures ended { HasEnded J.meaning S.has S.refused self }
    {
        let Ended { seat, .. } = self;
        seat
    }
}
