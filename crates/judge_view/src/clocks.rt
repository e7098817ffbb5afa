//! How far a core came.

ghost use Rattle.std.specs.Prelude.{◌≡◌, ℕ, []};
ghost use Rattle.judge_view.specs.Clocks.{clock_of, clock_run, clock_after};

use base_words::Note;
use note_facts::note_at;
use note_journal::Journal;

/// How far a core came: its turns, and the processor time of the polls that it settled, in nanoseconds.
///
/// The time of a poll counts as for its charge: at least 1 ns, at most 2^40 - 1 ns.
#[derive(Clone, Copy)]
pub struct CoreTime {
    pub turns: u64,
    pub time: u128,
}

impl CoreTime {
    /// No note was read.
    pub fn new() -> Self
        ensures { result ≡ clock_of {T = ℕ} [] }
    {
        CoreTime { turns: 0, time: 0 }
    }

    /// Reads the next note. What the types can't hold is told as the greatest number.
    pub fn add(&mut self, note: &Note<u64>)
        ensures { self.new ≡ clock_after note.now self.old }
    {
        match *note {
            Note::Pick(_, _) => self.turns = self.turns.saturating_add(1),
            Note::Yield(_, time) => self.run(time),
            Note::Park(_, time) => self.run(time),
            Note::Stayed(_, time) => self.run(time),
            Note::Done(_, time, _) => self.run(time),
            _ => {}
        }
    }

    /// A poll of this time is settled.
    fn run(&mut self, time: u64)
        ensures { self.new ≡ clock_run time self.old }
    {
        self.time = self.time.saturating_add(base_words::clamped(time) as u128);
    }
}

/// How far a core came, by its journal.
pub fn clock_of(journal: &Journal<u64>) -> CoreTime
    ensures { result ≡ clock_of journal.now.notes }
{
    let mut clock = CoreTime::new();
    for place in 0..journal.len() {
        let note = note_at(journal, place);
        clock.add(&note);
    }
    clock
}
