//! The first notes of each actor as journals, read again from its parts.

ghost use Rattle.std.specs.Prelude.{◌≡◌, ◌+◌, ℕ, List, IfSome, length, map};
ghost use Rattle.judge_parts.specs.Fronts.{IsFrontOf, TellFronts};

use base_words::{ActorNo, MOST_NOTES};
use note_journal::{Assembly, Journal};
use std::alloc::Global;
use text_bytes::Source;
use text_feed::Feed;
use text_parts::parts::HouseNumbers;

/// The journal of the first notes that a source tells, as many as this. None if it doesn't tell as many, or there is no memory.
fn front_of<S: Source + Drop>(
    alloc: Global,
    actor: ActorNo,
    source: S,
    count: u64,
) -> Option<Journal<u64>>
    ensures { IfSome result (λ journal. IfSome (S.remaining source) (λ bytes. IsFrontOf actor bytes journal.notes)) }
{
    if count > MOST_NOTES as u64 {
        return None;
    }
    let mut feed = Feed::open(alloc, actor, source);
    let mut notes = Vec::new(alloc);
    for _note in 0..count {
        let Ok(Some(note)) = feed.next() else {
            return None;
        };
        let Ok(()) = notes.push(note) else {
            return None;
        };
    }
    Some(Journal::of(notes))
}

/// How many notes are wanted of the actor at this place.
fn wanted(counts: &[u64], further: Option<u8>, place: usize) -> u64 {
    let more = match further {
        Some(actor) => u64::from(usize::from(actor) == place),
        None => 0,
    };
    match counts.get(place) {
        Some(count) => count.saturating_add(more),
        None => more,
    }
}

/// The journals of the first notes that each source tells, as many as these, and one of the actor `further` more. None if a source doesn't tell as
/// many, or there is no memory.
pub fn front_of_parts<S: Source + Drop>(
    alloc: Global,
    house: HouseNumbers,
    sources: Vec<S>,
    counts: &[u64],
    further: Option<u8>,
) -> Option<Assembly>
    requires { length sources.items ≡ house.cores + 1 }
    ensures { IfSome result (λ front. TellFronts house (map S.remaining sources.items) front) }
{
    let Ok(mut journals) = Vec::with_capacity(alloc, sources.len()) else {
        return None;
    };
    for source in sources {
        let place = journals.len();
        let count = wanted(counts, further, place);
        let Some(journal) = front_of(alloc, ActorNo(place as u8), source, count) else {
            return None;
        };
        journals.push_reserved(journal);
    }
    Some(Assembly::of_burst(house.cores, house.cap, house.burst, journals))
}
