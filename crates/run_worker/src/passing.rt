//! When a worker passes on the notes that its journal keeps: before a round where the journal is low, before a rest where one is kept, and not
//! while it is at its end.

ghost use Rattle.std.specs.Prelude.{◌≡◌, ◌↔◌, IsTrue, false};
ghost use Rattle.actor_seat.specs.Linked.{IsBetweenTurns, IsLinked};
ghost use Rattle.run_worker.specs.Passing.{HandsOn, HasPlaces, IsDue, IsDueAtRest, IsLow};

use crate::served::Served;
use actor_seat::Seat;
use base_jobs::Task;
use note_journal::Sink;

/// Hands all notes that are kept to the sink. One that refuses leaves them here.
pub(crate) fn hand_on<J: Task<Out = u64>, S: Sink>(seat: &mut Seat<J>, sink: &mut S)
    requires linked { IsLinked J.meaning seat.old }
    requires between { IsBetweenTurns seat.old.recorded }
    requires passed { S.has sink.old ≡ seat.old.recorded.journal.passed }
    ensures hands { HandsOn S.Sink seat.old sink.old seat.new sink.new }
    ensures linked { IsLinked J.meaning seat.new }
    ensures between { IsBetweenTurns seat.new.recorded }
{
    let _answer = seat.pass_on(sink);
}

impl<J: Task<Out = u64>> Served<J> {
    /// Whether fewer notes are free than two rounds may write, or half the places are used.
    fn is_low(&self) -> bool
        ensures { IsTrue result ↔ IsLow self.now.linked.recorded }
    {
        let free = self.recorded().journal().free() as usize;
        free < 2 * (self.least as usize) || free <= self.journal().kept_count()
    }

    /// Whether notes are due to be passed on before a round.
    pub(crate) fn is_due(&self) -> bool
        ensures { IsTrue result ↔ IsDue self.now }
    {
        !self.ending && self.is_low()
    }

    /// Whether notes are due to be passed on before a rest.
    pub(crate) fn is_due_at_rest(&self) -> bool
        ensures { IsTrue result ↔ IsDueAtRest self.now }
    {
        !self.ending && self.journal().kept_count() > 0
    }

    /// Hands all notes that are kept to the sink, if the worker isn't at its end.
    pub(crate) fn hand_on<S: Sink>(&mut self, sink: &mut S)
        requires going { self.old.ending ≡ false }
        requires places { HasPlaces self.old.linked.recorded }
        requires passed { S.has sink.old ≡ self.old.linked.recorded.journal.passed }
        ensures hands { HandsOn S.Sink self.old.linked sink.old self.new.linked sink.new }
        ensures going { self.new.ending ≡ false }
    {
        hand_on(&mut self.seat, sink);
    }
}
