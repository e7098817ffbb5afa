//! What becomes of the outside actor's notes: its sink, and what is kept.

ghost use Rattle.std.specs.Prelude.{◌≡◌, ◌+◌, ◌<◌, ◌≤◌, ◌++◌, OnErr, OnOk, Some, [], length, slice_get, true};
ghost use Rattle.note_journal.specs.Journals.{free_notes};
ghost use Rattle.actor_desk.specs.Spending.{booked};
ghost use Rattle.actor_caller.specs.Passing.{AsksOnce, PassesHere, refused_of};
ghost use Rattle.actor_caller.specs.Sends.{MakesRoom, room_left};

use crate::caller::{Beside, Caller};
use base_jobs::Task;
use note_journal::{Journal, Refused, Sink};

impl<J: Task<Out = u64>, S: Sink, H: Beside<Job = J>> Caller<J, S, H> {
    /// The notes that are kept. The older ones are in the sink.
    pub fn kept(&self) -> &Journal<u64>
        ensures notes { result.now.notes ++ self.now.desk.journal.passed ≡ self.now.desk.journal.notes }
        ensures room { length self.now.desk.journal.passed + result.now.room ≡ self.now.desk.journal.room }
        ensures whole { self.now.desk.journal.passed ≡ [] → result.now ≡ self.now.desk.journal }
    {
        self.outside.journal().kept()
    }

    /// The sink. If it refused when it was last asked, it says so.
    pub fn sink(&self) -> &S
        ensures has { S.has result.now ≡ self.now.desk.journal.passed }
        ensures asks { S.asks result.now ≡ self.now.asks }
        ensures mark { slice_get self.now.marks (length self.now.workers) ≡ Some (S.mark result.now) }
        ensures refused { self.now.refused ≡ true → S.refused result.now (length self.now.desk.journal.passed) }
    {
        &self.sink
    }

    /// Passes on all notes that are kept, so that their places are free again. The sink is asked each time.
    ///
    /// # Errors
    ///
    /// `Refused` where the sink refuses. Nothing changes then.
    pub fn pass_on(&mut self) -> Result<(), Refused>
        ensures { PassesHere self.old result self.new }
    {
        let answer = self.outside.pass_on(&mut self.sink);
        self.refused = answer.is_err();
        answer
    }

    /// Passes on what is kept, if there is too little room for a send.
    ///
    /// # Errors
    ///
    /// `Refused` where there is too little room, and the sink refuses.
    #[inline(always)]
    pub(crate) fn make_room(&mut self, each: u8) -> Result<(), Refused>
        ensures makes { OnOk result (MakesRoom each self.old self.new) }
        ensures room { OnOk result (booked self.new.desk + 3 ≤ self.new.desk.journal.room) }
        ensures full { OnErr result (free_notes self.old.desk.journal < room_left each self.old) }
        ensures refused { OnErr result (AsksOnce self.old (refused_of self.old) self.new) }
    {
        if self.is_full(each) {
            self.pass_on()
        } else {
            Ok(())
        }
    }
}
