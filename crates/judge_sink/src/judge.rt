//! What judges a core's notes, one after another.
//!
//! A note goes one of three ways: it is left out, if it tells of a gate or of a submission to another core; it waits, if it is an answer whose
//! command the next note tells; or it is read on the core of a house. What all notes ask of the gates and of submissions is judged beside that. What
//! was found right stands in `has`, for the proof alone. At the first wrong note the core has gone on, so nothing is judged from then on.

ghost use Rattle.std.specs.Prelude.{◌≡◌, ◌<◌, ◌∷◌, ◌++◌, ◌||◌, ℕ, [], None, Some, IfSome, false, length, not, reverse, take, true};
ghost use Rattle.base_words.specs.Journal.{Journal};
ghost use Rattle.judge_sink.specs.Links.{KnowsLinks};
ghost use Rattle.judge_sink.specs.Judged.{IsJudged, IsAllowed};
ghost use Rattle.judge_sink.specs.Judging.{IsRead, MayWait, OpensJudge, ReadsOn, Steps};
ghost use Rattle.judge_sink.specs.Replayed.{OpensFirst, is_half_done, replayed};
ghost use Rattle.base_words.specs.Commands as commands;
ghost use Rattle.judge_sink.specs.Replayed as spec;

use crate::house::House;
use crate::links::Links;
use crate::table::Table;
use base_sealed::History;
use base_words::{Answer, CoreNo, Note};
use host_house::OpenError;
use std::alloc::Global;
use std::marker::Model;

/// What judges the notes of a core, and which it found right.
#[derive(Drop)]
pub(crate) struct Judge {
    house: House,
    /// An answer whose effect is still to be told: which command it answers only the effect says.
    waits: Option<Note<u64>>,
    links: Links,
    table: Table,
    /// Whether a note was left out.
    left: bool,
    /// Whether the last note begins a step that the next one ends.
    half: bool,
    /// Whether no note was found wrong.
    goes_on: bool,
    /// The notes that were found right, the oldest first.
    has: History<Note<u64>>,
}

impl Model for Judge {
    ghost use Rattle.std.specs.Prelude.{reverse};
    ghost use Rattle.judge_sink.specs.Judging.{IsJudge, JudgeView};

    ghost Value = { JudgeView };

    ghost view = { λ judge. record { terms = judge.house.terms; has = reverse judge.has.items; goes_on = judge.goes_on } };

    ghost invariant = { λ judge. IsJudge judge.house judge.waits judge.links judge.table judge.left judge.half (reverse judge.has.items) judge.goes_on };
}

/// Whether a note tells of a submission to another core than this one.
fn is_elsewhere(core: CoreNo, note: &Note<u64>) -> bool
    ensures { result ≡ spec.is_elsewhere core note.now }
{
    match note {
        Note::Sent(name, _)
        | Note::Collected(name, _)
        | Note::Redeemed(name, _)
        | Note::Detached(name) => name.to.0 != core.0,
        _ => false,
    }
}

/// Whether a note tells that a gate was shut.
fn is_shut(note: &Note<u64>) -> bool
    ensures { result ≡ spec.is_shut note.now }
{
    matches!(note, Note::Shut(..))
}

/// Whether a note is replayed.
fn is_replayed(core: CoreNo, note: &Note<u64>) -> bool
    ensures { result ≡ spec.is_replayed core note.now }
{
    !is_shut(note) && !is_elsewhere(core, note)
}

/// Whether a queue may be created here, if the note tells so: at the opening no note is left out.
fn may_open(note: &Note<u64>, half: bool, left: bool) -> bool
    ensures { result ≡ true → (core : ℕ) (before : Journal ℕ) → half ≡ is_half_done before → (left ≡ false → replayed core before ≡ before) → OpensFirst core note.now before }
{
    match note {
        Note::Created(..) => half || !left,
        _ => true,
    }
}

/// Whether a note keeps to the gates, and opens a queue only where it may.
fn fits(links: &Links, half: bool, left: bool, note: &Note<u64>) -> bool
    ensures gates { result ≡ true → (before : Journal ℕ) → KnowsLinks links.now before → IsAllowed links.now.core links.now.cores note.now before }
    ensures opens { result ≡ true → (core : ℕ) (before : Journal ℕ) → half ≡ is_half_done before → (left ≡ false → replayed core before ≡ before) → OpensFirst core note.now before }
{
    links.allow(note) && may_open(note, half, left)
}

/// Whether a note was left out, this one counted too.
fn is_left(left: bool, core: CoreNo, note: &Note<u64>) -> bool
    ensures { result ≡ (left || not (spec.is_replayed core note.now)) }
{
    left || !is_replayed(core, note)
}

/// Whether an answer has an effect.
fn has_effect(answer: &Answer) -> bool
    ensures { result ≡ commands.has_effect answer.now }
{
    matches!(
        answer,
        Answer::Created(_) | Answer::SharesSet | Answer::Closed | Answer::Woken
    )
}

/// Whether a note is an answer that has an effect.
fn is_awaited(note: &Note<u64>) -> bool
    ensures { result ≡ true → MayWait (Some note.now) }
{
    match note {
        Note::Answered(_, answer) => has_effect(answer),
        _ => false,
    }
}

/// Whether a note begins a step that the next one ends.
fn is_half(note: &Note<u64>) -> bool
    ensures { result ≡ spec.is_half note.now }
{
    match note {
        Note::Pick(..) => true,
        Note::Answered(_, answer) => has_effect(answer),
        _ => false,
    }
}

/// Reads a note that is replayed. Whether a core writes it there, or it waits.
fn read_on(house: &mut House, waits: &mut Option<Note<u64>>, note: &Note<u64>) -> bool
    requires read { IsRead house.old waits.old }
    ensures right { result ≡ true → ReadsOn note.now house.old waits.old house.new waits.new }
    ensures terms { house.new.terms ≡ house.old.terms }
{
    if let Some(answer) = *waits {
        *waits = None;
        return house.reads(&answer, note) && house.reads(note, note);
    }
    if is_awaited(note) {
        *waits = Some(*note);
        return true;
    }
    house.reads(note, note)
}

/// Reads a note that is replayed, and leaves any other out between two steps. Whether it has a place there.
fn step_on(
    house: &mut House,
    waits: &mut Option<Note<u64>>,
    core: CoreNo,
    half: bool,
    note: &Note<u64>,
) -> bool
    requires read { IsRead house.old waits.old }
    ensures right { result ≡ true → Steps core half note.now house.old waits.old house.new waits.new }
    ensures terms { house.new.terms ≡ house.old.terms }
{
    if is_replayed(core, note) {
        read_on(house, waits, note)
    } else {
        !half
    }
}

impl Judge {
    /// A judge that was told no note.
    ///
    /// # Errors
    ///
    /// `BadConfig` for a number that is out of its range, else `Memory`.
    pub(crate) fn open(
        alloc: Global,
        core: CoreNo,
        cores: u8,
        cap: u16,
        burst: u8,
    ) -> Result<Self, OpenError>
        ensures { OpensJudge core cores cap burst result }
    {
        let house = House::open(alloc, core, cores, cap, burst)?;
        let Ok(table) = Table::open(alloc, core, cores, cap) else {
            return Err(OpenError::Memory);
        };
        Ok(Judge {
            house,
            waits: None,
            links: Links::new(core, cores),
            table,
            left: false,
            half: false,
            goes_on: true,
            has: History::new(),
        })
    }

    /// Whether no note was found wrong.
    pub(crate) fn goes_on(&self) -> bool
        ensures { result ≡ self.now.goes_on }
    {
        self.goes_on
    }

    /// Judges the next note. Whether it is right.
    fn judge(&mut self, note: &Note<u64>) -> bool
        requires { self.old.goes_on ≡ true }
        ensures right { result ≡ true → self.new ≡ record self.old { has = note.now ∷ self.old.has } }
        ensures wrong { result ≡ false → self.new ≡ record self.old { goes_on = false } }
    {
        let core = self.links.core();
        let fits = fits(&self.links, self.half, self.left, note);
        let steps = step_on(&mut self.house, &mut self.waits, core, self.half, note);
        let follows = self.table.keeps(note);
        if !fits || !steps || !follows {
            self.goes_on = false;
            return false;
        }
        self.links.add(note);
        self.left = is_left(self.left, core, note);
        self.half = is_half(note);
        self.has = self.has.with(note);
        true
    }

    /// Judges these notes as far as they are right.
    fn find_fault(&mut self, notes: &[Note<u64>]) -> Option<usize>
        requires { self.old.goes_on ≡ true }
        ensures none { result ≡ None → self.new ≡ record self.old { has = reverse notes.now ++ self.old.has } }
        ensures some { IfSome result (λ place. place < length notes.now) }
        ensures before { IfSome result (λ place. self.new ≡ record self.old { has = reverse (take place notes.now) ++ self.old.has; goes_on = false }) }
    {
        for place in 0..notes.len() {
            if !self.judge(&notes[place]) {
                return Some(place);
            }
        }
        None
    }

    /// The place of the first of these notes that is wrong. What was found right is lawful.
    pub(crate) fn first_fault(&mut self, notes: &[Note<u64>]) -> Option<usize>
        requires { self.old.goes_on ≡ true }
        ensures none { result ≡ None → self.new ≡ record self.old { has = reverse notes.now ++ self.old.has } }
        ensures some { IfSome result (λ place. place < length notes.now) }
        ensures before { IfSome result (λ place. self.new ≡ record self.old { has = reverse (take place notes.now) ++ self.old.has; goes_on = false }) }
        ensures lawful { IsJudged self.new.terms self.new.has }
    {
        let found = self.find_fault(notes);
        self.is_lawful();
        found
    }

    /// A fact alone: the notes that were found right are lawful.
    fn is_lawful(&self)
        ensures { IsJudged self.now.terms self.now.has }
    {
        let _judged = self.goes_on;
    }
}
