//! The times of events.

ghost use Rattle.std.specs.Prelude.{◌≡◌, ◌<◌, ℕ, length};
ghost use Rattle.base_words.specs.Journal.{Journal as Notes};
ghost use Rattle.note_facts.specs.Accounts.{greatest_count};
ghost use Rattle.judge_view.specs.Clocks.{clock_of, busy_time};
ghost use Rattle.fairview_pictures.specs.Times as spec;

use base_words::ActorNo;
use judge_view::CoreTime;
use note_facts::note_at;
use note_journal::{Assembly, Journal};

/// The outside actor, where the clocks of the cores start, and where the last of them ends. The outside actor has no clock: what it
/// sends stands before the cores' start and what it redeems behind their end, by the places of its notes.
#[derive(Clone, Copy)]
pub struct Times {
    pub outside: ActorNo,
    pub start: u128,
    pub end: u128,
}

/// The processor time of a core.
fn busy_time(journal: &Journal<u64>) -> u128
    ensures { result ≡ busy_time journal.now.notes }
{
    let mut clock = CoreTime::new();
    for place in 0..journal.len() {
        clock.add(&note_at(journal, place));
    }
    clock.time
}

/// The greatest processor time of a core.
fn longest(assembly: &Assembly) -> u128
    ensures { result ≡ spec.longest assembly.now }
{
    let mut most: u128 = 0;
    for core in 0..assembly.cores() {
        most = most.max(busy_time(assembly.journal(ActorNo(core))));
    }
    most
}

impl Times {
    /// The times of a run.
    pub fn of(assembly: &Assembly) -> Times
        ensures { result ≡ spec.times_of assembly.now }
    {
        let outside = ActorNo(assembly.cores());
        let start = assembly.journal(outside).len() as u128;
        Times {
            outside,
            start,
            end: start.saturating_add(longest(assembly)),
        }
    }

    /// The time at which the clock of a core stands.
    pub fn core_time(&self, clock: &CoreTime) -> u128
        ensures { result ≡ spec.core_time self.now clock.now }
    {
        self.start.saturating_add(clock.time)
    }

    /// The time at which an actor sends, at this place of its journal and this clock.
    pub fn sent_time(&self, actor: ActorNo, place: usize, clock: &CoreTime) -> u128
        ensures { result ≡ spec.sent_time self.now actor place clock.now }
    {
        if actor == self.outside {
            place as u128
        } else {
            self.core_time(clock)
        }
    }

    /// The time at which an actor redeems.
    pub fn redeemed_time(&self, actor: ActorNo, place: usize, clock: &CoreTime) -> u128
        ensures { result ≡ spec.redeemed_time self.now actor place clock.now }
    {
        if actor == self.outside {
            self.end.saturating_add(place as u128)
        } else {
            self.core_time(clock)
        }
    }
}
