//! A text of journals as far as its lines are judged.
//!
//! A line is judged where it stands: the first two tell the form and the house, and behind them comes a note or the `end` of the actor whose turn
//! it is. A note that is right goes to the taker at once, so a text is judged to its end in memory of one line. The same draft takes notes that
//! were read as bytes, which name their actor (`raise_to`, `hand`).

ghost use Rattle.std.specs.Prelude.{◌≡◌, ◌≤◌, ◌<◌, ◌+◌, Some, Ok, Err, IfOk, IfErr, IfSome, OnOk, length};
ghost use Rattle.base_words.specs.Limits.{most_cores, most_notes};
ghost use Rattle.text_words.specs.Words.{words};
ghost use Rattle.text_journal.specs.Drafts as spec;
ghost use Rattle.text_journal.specs.Handed.{Handed, HasHanded, IsBegun, IsLast, handed_on, nothing_handed};
ghost use Rattle.text_journal.specs.Passing.{with_handed};
ghost use Rattle.text_journal.specs.Raised.{begun_draft};
ghost use Rattle.note_journal.specs.Writers.{terms_seen};
ghost use Rattle.text_bytes.specs.Faults.{IfCause};

use crate::fault::JournalCause;
use crate::field::number_in;
use crate::note::note_of;
use crate::phrase::last;
use crate::taker::NoteTaker;
use base_sealed::History;
use base_words::{MOST_BURST, MOST_CAPACITY, MOST_CORES, MOST_NOTES, Note};
use note_journal::spelled::Writer;
use std::marker::Model;
use text_bytes::Stop;
use text_words::Words;
use text_words::field::is_word;

/// What comes next in a text.
#[derive(Clone, Copy, PartialEq, Eq)]
pub enum Part {
    /// `journal 1` or `journal 2`
    Form,
    /// `cores C cap K`, and in form 2 `burst B` behind it
    Size,
    /// A note, or `end`.
    Notes,
    /// Nothing.
    After,
}

/// Journals as far as they are judged, line by line or note by note. Their notes are handed to a taker. A taker that fails is given up.
///
/// A contract sees a `Drafted`: the numbers of the house, the whole journals of the actors before, and the notes of the actor whose notes
/// come now.
#[derive(Drop)]
pub struct Draft<T: NoteTaker> {
    part: Part,
    cores: u8,
    cap: u16,
    burst: u8,
    /// The actor whose notes come now, and how many came.
    actor: u8,
    count: u32,
    taker: Option<T>,
    /// The notes of the actors before, and those of this one, the oldest first.
    earlier: History<History<Note<u64>>>,
    notes: History<Note<u64>>,
}

impl<T: NoteTaker> Model for Draft<T> {
    ghost use Rattle.std.specs.Prelude.{map, reverse};
    ghost use Rattle.text_journal.specs.Drafts.{Drafted};
    ghost use Rattle.text_journal.specs.Passing.{IsPassing};

    ghost Value = { Drafted };

    ghost view = { λ d. record {
      part = d.part;
      cores = d.cores;
      cap = d.cap;
      burst = d.burst;
      earlier = map (λ journal. reverse journal.items) d.earlier.items;
      notes = reverse d.notes.items;
    } };

    ghost invariant = { λ d. IsPassing T.has d.taker d.actor d.count (record {
      part = d.part;
      cores = d.cores;
      cap = d.cap;
      burst = d.burst;
      earlier = map (λ journal. reverse journal.items) d.earlier.items;
      notes = reverse d.notes.items;
    }) };
}

impl<T: NoteTaker> Draft<T> {
    /// Before the first line.
    pub(crate) fn new(taker: T) -> Draft<T>
        requires { T.has taker nothing_handed }
        ensures { result ≡ spec.empty_draft }
    {
        Draft {
            part: Part::Form,
            cores: 1,
            cap: 1,
            burst: 1,
            actor: 0,
            count: 0,
            taker: Some(taker),
            earlier: History::new(),
            notes: History::new(),
        }
    }

    /// Behind the numbers of a house, with no note.
    ///
    /// # Errors
    ///
    /// The taker has no memory.
    pub fn begun(taker: T, cores: u8, cap: u16, burst: u8) -> Result<Draft<T>, Stop<JournalCause>>
        requires has { T.has taker nothing_handed }
        requires some { 1 ≤ cores }
        requires few { cores ≤ most_cores }
        ensures ok { IfOk result (λ draft. draft ≡ begun_draft cores cap burst) }
        ensures faulty { IfErr result (IfCause (λ cause. ⊥)) }
    {
        let mut draft = Draft {
            part: Part::Size,
            cores: 1,
            cap: 1,
            burst: 1,
            actor: 0,
            count: 0,
            taker: Some(taker),
            earlier: History::new(),
            notes: History::new(),
        };
        draft.begin(cores, cap, burst)?;
        Ok(draft)
    }

    /// Whose notes come now, and what holds of the whole house.
    pub fn writer(&self) -> Writer
        ensures { terms_seen result ≡ record { actor = length self.now.earlier; cores = self.now.cores; cap = self.now.cap; burst = self.now.burst } }
    {
        Writer {
            actor: self.actor,
            cores: self.cores,
            cap: self.cap,
            burst: self.burst,
        }
    }

    /// How many notes of that actor came.
    pub fn count(&self) -> u32
        ensures value { result ≡ length self.now.notes }
        ensures most { result ≤ most_notes }
    {
        self.count
    }

    /// What comes next.
    pub(crate) fn part(&self) -> Part
        ensures { result ≡ self.now.part }
    {
        self.part
    }

    /// Takes one line that isn't too long and has ended.
    pub(crate) fn take_text(&mut self, line: &[u8]) -> Result<(), Stop<JournalCause>>
        ensures ok { OnOk result (spec.with_text self.old.part self.old line.now ≡ Ok self.new) }
        ensures faulty { IfErr result (IfCause (λ cause. spec.with_text self.old.part self.old line.now ≡ Err cause)) }
        ensures fewer { OnOk result (spec.lines_left self.new + 1 ≤ spec.lines_left self.old) }
    {
        match self.part {
            Part::Form => self.take_form(line),
            Part::Size => self.take_size(line),
            Part::Notes => self.take_note_line(line),
            Part::After => Err(Stop::Cause(JournalCause::AfterEnd)),
        }
    }

    fn take_form(&mut self, line: &[u8]) -> Result<(), Stop<JournalCause>>
        requires { self.old.part ≡ Part.Form }
        ensures ok { OnOk result (spec.with_form self.old (spec.form_of line.now) ≡ Ok self.new) }
        ensures faulty { IfErr result (IfCause (λ cause. spec.with_form self.old (spec.form_of line.now) ≡ Err cause)) }
    {
        match form_of(line) {
            Some(form) => {
                self.part = Part::Size;
                self.burst = form;
                Ok(())
            }
            None => Err(Stop::Cause(JournalCause::Header)),
        }
    }

    fn take_size(&mut self, line: &[u8]) -> Result<(), Stop<JournalCause>>
        requires { self.old.part ≡ Part.Size }
        ensures ok { OnOk result (spec.with_size self.old (spec.size_of self.old.burst (words line.now)) ≡ Ok self.new) }
        ensures faulty { IfErr result (IfCause (λ cause. spec.with_size self.old (spec.size_of self.old.burst (words line.now)) ≡ Err cause)) }
    {
        match size_of(self.burst, &mut Words::of(line)) {
            Some((cores, cap, burst)) => self.begin(cores, cap, burst),
            None => Err(Stop::Cause(JournalCause::Cores)),
        }
    }

    /// The second line tells these numbers.
    fn begin(&mut self, cores: u8, cap: u16, burst: u8) -> Result<(), Stop<JournalCause>>
        requires part { self.old.part ≡ Part.Size }
        requires some { 1 ≤ cores }
        requires few { cores ≤ most_cores }
        ensures ok { OnOk result (spec.with_size self.old (Some (cores, cap, burst)) ≡ Ok self.new) }
        ensures faulty { IfErr result (IfCause (λ cause. ⊥)) }
    {
        let Some(taker) = &mut self.taker else {
            return Err(Stop::Memory);
        };
        if taker.begin(cores, cap, burst).is_err() {
            self.taker = None;
            return Err(Stop::Memory);
        }
        self.part = Part::Notes;
        self.cores = cores;
        self.cap = cap;
        self.burst = burst;
        Ok(())
    }

    fn take_note_line(&mut self, line: &[u8]) -> Result<(), Stop<JournalCause>>
        requires { self.old.part ≡ Part.Notes }
        ensures ok { OnOk result (spec.with_note_line self.old line.now ≡ Ok self.new) }
        ensures faulty { IfErr result (IfCause (λ cause. spec.with_note_line self.old line.now ≡ Err cause)) }
    {
        if is_word(line, "end") {
            self.part = Part::After;
            return Ok(());
        }
        let mut fields = Words::of(line);
        let first = u64::from(self.actor);
        match number_in(fields.next_word(), first, u64::from(self.cores)) {
            Some(actor) => {
                let actor = actor as u8;
                self.raise_to(actor)?;
                let cores = self.cores;
                let burst = self.burst;
                self.take_note(note_of(&mut fields, actor, cores, burst))
            }
            None => Err(Stop::Cause(JournalCause::Actor)),
        }
    }

    /// Takes what was read of a note of the actor.
    fn take_note(&mut self, note: Option<Note<u64>>) -> Result<(), Stop<JournalCause>>
        requires { IsBegun self.old.part }
        ensures ok { OnOk result (spec.with_note self.old note ≡ Ok self.new) }
        ensures faulty { IfErr result (IfCause (λ cause. spec.with_note self.old note ≡ Err cause)) }
    {
        let cause = match note {
            None => JournalCause::Note,
            Some(note) => {
                if (self.count as usize) < MOST_NOTES {
                    return self.hand(&note);
                }
                JournalCause::TooMany
            }
        };
        Err(Stop::Cause(cause))
    }

    /// Hands the next note of the actor to the taker.
    ///
    /// # Errors
    ///
    /// The taker has no memory.
    pub fn hand(&mut self, note: &Note<u64>) -> Result<(), Stop<JournalCause>>
        requires part { IsBegun self.old.part }
        requires few { length self.old.notes < most_notes }
        ensures ok { OnOk result (self.new ≡ with_handed note.now self.old) }
        ensures faulty { IfErr result (IfCause (λ cause. ⊥)) }
    {
        let Some(taker) = &mut self.taker else {
            return Err(Stop::Memory);
        };
        if taker.take(note).is_err() {
            self.taker = None;
            return Err(Stop::Memory);
        }
        self.count += 1;
        self.notes = self.notes.with(note);
        Ok(())
    }

    /// Goes on to this actor. The journals of those before it are whole.
    ///
    /// # Errors
    ///
    /// The taker has no memory.
    pub fn raise_to(&mut self, actor: u8) -> Result<(), Stop<JournalCause>>
        requires part { IsBegun self.old.part }
        requires within { actor ≤ self.old.cores }
        ensures ok { OnOk result (self.new ≡ spec.raised_to actor self.old) }
        ensures faulty { IfErr result (IfCause (λ cause. ⊥)) }
    {
        for _i in self.actor..actor {
            self.next_actor()?;
        }
        Ok(())
    }

    /// The journal of the actor is whole.
    fn next_actor(&mut self) -> Result<(), Stop<JournalCause>>
        requires part { IsBegun self.old.part }
        requires within { length self.old.earlier < self.old.cores }
        ensures ok { OnOk result (self.new ≡ spec.next_actor self.old) }
        ensures faulty { IfErr result (IfCause (λ cause. ⊥)) }
    {
        let Some(taker) = &mut self.taker else {
            return Err(Stop::Memory);
        };
        if taker.next_actor().is_err() {
            self.taker = None;
            return Err(Stop::Memory);
        }
        self.actor += 1;
        self.count = 0;
        self.earlier = self.earlier.with(&self.notes);
        self.notes = History::new();
        Ok(())
    }

    /// What the notes of all actors became, where the lines end here.
    ///
    /// # Errors
    ///
    /// The taker has no memory.
    pub fn into_whole(mut self) -> Result<T::Whole, Stop<JournalCause>>
        requires { IsBegun self.part }
        ensures ok { IfOk result (λ whole. T.makes whole (handed_on (spec.raised_to self.cores self))) }
        ensures faulty { IfErr result (IfCause (λ cause. ⊥)) }
    {
        let end = self.cores;
        self.raise_to(end)?;
        finished(self.taker)
    }
}

/// What all notes became, if there is a taker still.
fn finished<T: NoteTaker>(taker: Option<T>) -> Result<T::Whole, Stop<JournalCause>>
    requires { (handed : Handed) × IsLast handed × HasHanded T.has taker handed }
    ensures ok { IfOk result (λ whole. (handed : Handed) → IsLast handed → HasHanded T.has taker handed → T.makes whole handed) }
    ensures faulty { IfErr result (IfCause (λ cause. ⊥)) }
{
    match taker {
        Some(taker) => Ok(taker.finish()?),
        None => Err(Stop::Memory),
    }
}

/// The form that the first line tells, as the least burst of its texts.
#[tactic(auto, unfolding(crate::specs::Heads::form_of))]
fn form_of(line: &[u8]) -> Option<u8>
    ensures { result ≡ spec.form_of line.now }
{
    if is_word(line, "journal 1") {
        return Some(1);
    }
    if is_word(line, "journal 2") {
        return Some(2);
    }
    None
}

/// The end of the second line: nothing in form 1, `burst B` in form 2.
#[tactic(auto, unfolding(crate::specs::Heads::burst_of))]
fn burst_of(form: u8, fields: &mut Words<'_>) -> Option<u8>
    ensures { result ≡ spec.burst_of form fields.old }
{
    if form < 2 {
        return last(Some(1), fields);
    }
    if !is_word(fields.next_word(), "burst") {
        return None;
    }
    let burst = number_in(fields.next_word(), 2, u64::from(MOST_BURST));
    let burst = last(burst, fields)?;
    Some(burst as u8)
}

/// `cores C cap K`, and how many polls a turn may have.
#[tactic(auto, unfolding(crate::specs::Heads::size_of))]
fn size_of(form: u8, fields: &mut Words<'_>) -> Option<(u8, u16, u8)>
    ensures value { result ≡ spec.size_of form fields.old }
    ensures some { IfSome result (λ size. 1 ≤ size.0) }
    ensures few { IfSome result (λ size. size.0 ≤ most_cores) }
{
    if !is_word(fields.next_word(), "cores") {
        return None;
    }
    let cores = number_in(fields.next_word(), 1, MOST_CORES as u64)?;
    if !is_word(fields.next_word(), "cap") {
        return None;
    }
    let cap = number_in(fields.next_word(), 1, MOST_CAPACITY as u64)?;
    let burst = burst_of(form, fields)?;
    Some((cores as u8, cap as u16, burst))
}
