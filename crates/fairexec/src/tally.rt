//! What the notes come to that were read of journals.

ghost use Rattle.std.specs.Prelude.{◌≡◌};

use base_words::Note;

/// How many notes were read, how many jobs ended, how long the polls took, and how many submissions were sent and their outcomes collected.
/// None of these goes beyond 2^64 - 1.
#[derive(Clone, Copy)]
pub(crate) struct Tally {
    pub(crate) notes: u64,
    pub(crate) jobs: u64,
    pub(crate) busy: u64,
    pub(crate) sent: u64,
    pub(crate) collected: u64,
}

impl Tally {
    /// Nothing was read.
    pub(crate) fn new() -> Self {
        Tally {
            notes: 0,
            jobs: 0,
            busy: 0,
            sent: 0,
            collected: 0,
        }
    }

    /// Counts a note.
    pub(crate) fn add(&mut self, note: &Note<u64>) {
        self.notes = self.notes.saturating_add(1);
        match *note {
            Note::Sent(..) => self.sent = self.sent.saturating_add(1),
            Note::Collected(..) => self.collected = self.collected.saturating_add(1),
            Note::Returned(..) => self.jobs = self.jobs.saturating_add(1),
            Note::Done(_, time, _) => {
                self.jobs = self.jobs.saturating_add(1);
                self.busy = self.busy.saturating_add(time);
            }
            Note::Yield(_, time) | Note::Park(_, time) | Note::Stayed(_, time) => {
                self.busy = self.busy.saturating_add(time);
            }
            _ => {}
        }
    }

    /// How many submissions were sent whose outcome wasn't collected.
    pub(crate) fn uncollected(&self) -> u64 {
        self.sent.saturating_sub(self.collected)
    }
}
