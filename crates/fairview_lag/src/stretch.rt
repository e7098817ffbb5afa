//! What a walk knows of two queues.
//!
//! A stretch begins where both queues have work, and ends where one has none. At its beginning the charges of both are noted; a lag is what each
//! got since. Its bound is the greatest charge of the one and that of the other together.

ghost use Rattle.std.specs.Prelude.{◌≡◌, ◌<◌, ◌∷◌, ℕ, [], length, OnErr, OnOk};
ghost use Rattle.base_words.specs.Journal.{Journal as Notes};
ghost use Rattle.note_facts.specs.Accounts.{greatest_count};
ghost use Rattle.base_words.specs.declared.note.Note.{Note as NoteSeen};
ghost use Rattle.fairview_marks.specs.Leads.{KnowsStanding};
ghost use Rattle.fairview_lag.specs.Lags as lags;
ghost use Rattle.fairview_lag.specs.Stretches as spec;

use base_words::{Note, QueueNo};
use fairview_marks::standing::Standing;
use std::alloc::{AllocError, Global};

/// What two queues gained, in virtual runtime, since both have work without a break.
#[derive(Clone, Copy)]
pub struct Lag {
    /// The turn of the core behind which this is so, counted from 1.
    pub turn: u64,
    pub first: u128,
    pub second: u128,
    /// The greatest charge of the one queue so far and that of the other together. In a lawful journal neither gains more than the other by more.
    pub bound: u128,
}

impl Lag {
    /// How far the first queue is ahead of the second.
    pub fn ahead(&self) -> u128
        ensures { result ≡ lags.ahead self.now }
    {
        self.first.saturating_sub(self.second)
    }

    /// How far the first queue is behind the second.
    pub fn behind(&self) -> u128
        ensures { result ≡ lags.behind self.now }
    {
        self.second.saturating_sub(self.first)
    }

    /// How far the two are apart.
    pub fn apart(&self) -> u128
        ensures { result ≡ lags.apart self.now }
    {
        self.first.abs_diff(self.second)
    }
}

/// All charges of two queues when both began to have work.
#[derive(Clone, Copy)]
pub struct Begun {
    first: u128,
    second: u128,
}

/// Of the notes that were read: what is known of all queues, and the beginning of the stretch of two of them, if both have work.
#[derive(Drop)]
pub struct Stretch {
    standing: Standing,
    begun: Option<Begun>,
}

/// The beginning of a stretch in which both queues have work. It is this place, unless it was known before.
fn begun_by(standing: &Standing, begun: Option<Begun>, first: QueueNo, second: QueueNo) -> Begun
    ensures { (burst : ℕ) → (note : NoteSeen ℕ) → (before : Notes ℕ) → KnowsStanding burst standing.now (note ∷ before) → begun ≡ spec.begun burst first second before → result ≡ spec.begun_of burst first second (note ∷ before) }
{
    match begun {
        Some(begun) => begun,
        None => Begun {
            first: standing.tally(first).charged,
            second: standing.tally(second).charged,
        },
    }
}

/// The beginning of the stretch of two queues, if both have work.
pub(crate) fn begun_after(
    standing: &Standing,
    begun: Option<Begun>,
    first: QueueNo,
    second: QueueNo,
) -> Option<Begun>
    ensures { (burst : ℕ) → (note : NoteSeen ℕ) → (before : Notes ℕ) → KnowsStanding burst standing.now (note ∷ before) → begun ≡ spec.begun burst first second before → result ≡ spec.begun burst first second (note ∷ before) }
{
    if standing.are_together(first, second) {
        Some(begun_by(standing, begun, first, second))
    } else {
        None
    }
}

/// What two queues gained since their stretch began.
fn lag_since(standing: &Standing, begun: Begun, first: QueueNo, second: QueueNo) -> Lag
    ensures { (burst : ℕ) → (journal : Notes ℕ) → KnowsStanding burst standing.now journal → begun ≡ spec.begun_of burst first second journal → result ≡ lags.lag burst first second journal }
{
    let one = standing.tally(first);
    let other = standing.tally(second);
    Lag {
        turn: standing.turns(),
        first: one.charged.saturating_sub(begun.first),
        second: other.charged.saturating_sub(begun.second),
        bound: one.greatest as u128 + other.greatest as u128,
    }
}

/// The lag of two queues, if both have work.
fn lag_now(
    standing: &Standing,
    begun: Option<Begun>,
    first: QueueNo,
    second: QueueNo,
) -> Option<Lag>
    ensures { (burst : ℕ) → (journal : Notes ℕ) → KnowsStanding burst standing.now journal → begun ≡ spec.begun burst first second journal → result ≡ lags.lag_of burst first second journal }
{
    match begun {
        Some(begun) => Some(lag_since(standing, begun, first, second)),
        None => None,
    }
}

/// The lag of two queues behind a settled poll that ends its turn, if both have work.
fn lag_polled(
    standing: &Standing,
    begun: Option<Begun>,
    first: QueueNo,
    second: QueueNo,
) -> Option<Lag>
    ensures { (burst : ℕ) → (journal : Notes ℕ) → KnowsStanding burst standing.now journal → begun ≡ spec.begun burst first second journal → result ≡ lags.lag_polled burst first second journal }
{
    if standing.has_bursts() {
        None
    } else {
        lag_now(standing, begun, first, second)
    }
}

/// The lag of two queues behind a turn that a note of its own ends, if both have work.
fn lag_turned(
    standing: &Standing,
    begun: Option<Begun>,
    first: QueueNo,
    second: QueueNo,
) -> Option<Lag>
    ensures { (burst : ℕ) → (journal : Notes ℕ) → KnowsStanding burst standing.now journal → begun ≡ spec.begun burst first second journal → result ≡ lags.lag_turned burst first second journal }
{
    if standing.has_bursts() {
        lag_now(standing, begun, first, second)
    } else {
        None
    }
}

/// The lag of two queues behind the note that was read last, if it ends a turn and both have work.
pub(crate) fn lag_told(
    standing: &Standing,
    begun: Option<Begun>,
    first: QueueNo,
    second: QueueNo,
    note: &Note<u64>,
) -> Option<Lag>
    ensures { (burst : ℕ) → (before : Notes ℕ) → KnowsStanding burst standing.now (note.now ∷ before) → begun ≡ spec.begun burst first second (note.now ∷ before) → result ≡ lags.lag_told burst first second note.now before }
{
    match *note {
        Note::Yield(_, _) => lag_polled(standing, begun, first, second),
        Note::Park(_, _) => lag_polled(standing, begun, first, second),
        Note::Stayed(_, _) => lag_polled(standing, begun, first, second),
        Note::Done(_, _, _) => lag_polled(standing, begun, first, second),
        Note::Turned(_, _) => lag_turned(standing, begun, first, second),
        _ => None,
    }
}

impl Stretch {
    /// No note was read. A turn may have so many polls: 0 and 1 mean a single one.
    pub fn new(alloc: Global, burst: u8) -> Self
        ensures { (first : ℕ) → (second : ℕ) → spec.KnowsStretch {T = ℕ} burst first second result [] }
    {
        Stretch {
            standing: Standing::new(alloc, burst),
            begun: None,
        }
    }

    /// Reads the next note.
    ///
    /// # Errors
    ///
    /// `AllocError` for want of memory; then the note isn't read.
    pub fn add(
        &mut self,
        first: QueueNo,
        second: QueueNo,
        note: &Note<u64>,
    ) -> Result<(), AllocError>
        ensures knows { OnOk result ((burst : ℕ) → (before : Notes ℕ) → length before < greatest_count → spec.KnowsStretch burst first second self.old before → spec.KnowsStretch burst first second self.new (note.now ∷ before)) }
        ensures refused { OnErr result (self.new ≡ self.old) }
    {
        self.standing.add(note)?;
        self.begun = begun_after(&self.standing, self.begun, first, second);
        Ok(())
    }

    /// The lag of the queues behind the note that was read last, if it ends a turn and both have work.
    pub fn lag(&self, first: QueueNo, second: QueueNo, note: &Note<u64>) -> Option<Lag>
        ensures { (burst : ℕ) → (before : Notes ℕ) → spec.KnowsStretch burst first second self.now (note.now ∷ before) → result ≡ lags.lag_told burst first second note.now before }
    {
        lag_told(&self.standing, self.begun, first, second, note)
    }
}
