//! What all journals tell of one submission.

ghost use Rattle.std.specs.Prelude.{◌≡◌, ◌<◌, ◌∷◌, ℕ, [], length};
ghost use Rattle.base_words.specs.declared.names.JobId.{JobId as Name};
ghost use Rattle.base_words.specs.Journal.{Journal as Notes};
ghost use Rattle.base_words.specs.Names.{is_name};
ghost use Rattle.note_facts.specs.Accounts.{greatest_count};
ghost use Rattle.judge_view.specs.Stories as spec;
ghost use Rattle.judge_view.specs.declared.stories.Part.{Part as Told};

use crate::clocks::CoreTime;
use base_words::{ActorNo, JobId, Note};
use note_journal::same_name;

/// A part of the story of a submission. In this order they are the whole story.
#[derive(Clone, Copy)]
pub enum Part {
    /// Its sender sends it.
    Sending,
    /// It is delivered to its receiver, which polls it, ends it or answers it.
    Serving,
    /// Its sender collects its outcome, redeems it, or detaches.
    Fetching,
}

/// A note of a story: its place in its journal, counted from 1, and the clock of its actor right behind it. `from` is the clock behind the
/// note before it in this part of the story.
#[derive(Clone, Copy)]
pub struct Chapter {
    pub place: u64,
    pub from: CoreTime,
    pub clock: CoreTime,
    pub note: Note<u64>,
}

impl Part {
    /// The actor in whose journal this part of a story stands.
    pub fn teller(self, name: &JobId) -> ActorNo
        ensures { result ≡ spec.teller self name.now }
    {
        match self {
            Part::Sending => name.from,
            Part::Serving => ActorNo(name.to.0),
            Part::Fetching => name.from,
        }
    }

    /// The submission that a note names in this part of its story.
    fn name_told(self, note: &Note<u64>) -> Option<JobId>
        ensures { result ≡ spec.name_told self note.now }
    {
        match self {
            Part::Sending => name_sent(note),
            Part::Serving => name_served(note),
            Part::Fetching => name_fetched(note),
        }
    }
}

/// The submission that a note sends.
fn name_sent(note: &Note<u64>) -> Option<JobId>
    ensures { result ≡ spec.name_sent note.now }
{
    match *note {
        Note::Sent(name, _) => Some(name),
        _ => None,
    }
}

/// The submission that a note delivers, wakes, polls or ends.
fn name_served(note: &Note<u64>) -> Option<JobId>
    ensures { result ≡ spec.name_served note.now }
{
    match *note {
        Note::Took(name, _) | Note::Back(name, _) | Note::Answered(name, _) => Some(name),
        Note::Woken(name) | Note::Start(name) | Note::Resume(name) => Some(name),
        Note::Yield(name, _) | Note::Park(name, _) | Note::Stayed(name, _) => Some(name),
        Note::Done(name, _, _) | Note::Returned(name, _) => Some(name),
        _ => None,
    }
}

/// The submission that a note collects, redeems or detaches.
fn name_fetched(note: &Note<u64>) -> Option<JobId>
    ensures { result ≡ spec.name_fetched note.now }
{
    match *note {
        Note::Collected(name, _) | Note::Redeemed(name, _) | Note::Detached(name) => Some(name),
        _ => None,
    }
}

/// Whether there is a name, and it is this one.
fn is_name(name: &JobId, told: Option<JobId>) -> bool
    ensures { result ≡ is_name name.now told }
{
    match told {
        Some(other) => same_name(name, &other),
        None => false,
    }
}

/// Of the notes of a journal that were read: how many they are, the clock behind them, and the clock behind the newest of a part of a story.
#[derive(Clone, Copy)]
pub struct StoryWalk {
    part: Part,
    name: JobId,
    place: u64,
    from: CoreTime,
    clock: CoreTime,
}

impl StoryWalk {
    /// No note was read.
    pub fn new(part: Part, name: JobId) -> Self
        ensures { spec.KnowsStory part name result [] }
    {
        StoryWalk {
            part,
            name,
            place: 0,
            from: CoreTime::new(),
            clock: CoreTime::new(),
        }
    }

    /// Reads the next note, and answers it if it is one of the story.
    pub fn add(&mut self, note: &Note<u64>) -> Option<Chapter>
        ensures { (part : Told) (name : Name) (before : Notes ℕ) → length before < greatest_count → spec.KnowsStory part name self.old before
            → spec.IsRead part name result self.new (note.now ∷ before) }
    {
        self.clock.add(note);
        self.place = self.place.saturating_add(1);
        if !is_name(&self.name, self.part.name_told(note)) {
            return None;
        }
        let from = self.from;
        self.from = self.clock;
        Some(Chapter {
            place: self.place,
            from,
            clock: self.clock,
            note: *note,
        })
    }
}
