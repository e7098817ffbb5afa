//! The submissions of a core that are outstanding, and what became of each.
//!
//! A submission leaves the table when it is redeemed, or both detached and collected. So the table has room for what may be outstanding.

ghost use Rattle.std.specs.Prelude.{◌≡◌, ◌<◌, ◌∷◌, ℕ, [], IfOk, IfSome, Some, length, true};
ghost use Rattle.actor_desk.specs.Held.{at};
ghost use Rattle.base_words.specs.Journal.{Journal};
ghost use Rattle.base_words.specs.Outcomes.{FitsOrder};
ghost use Rattle.base_words.specs.declared.note.OutcomeNote.TheVariants as outcomes;
ghost use Rattle.base_words.specs.Terms.{Terms};
ghost use Rattle.judge_sink.specs.Lanes.{IsInStep, Keeps, Puts, Sends, Turns};
ghost use Rattle.judge_sink.specs.Tables.{FollowsSent, KnowsTable, fresh_lane};
ghost use Rattle.judge_sink.specs.declared.table.Known.{Known};
ghost use Rattle.judge_sink.specs.Tables as spec;

use actor_desk::roll::Roll;
use base_words::{Answer, CoreNo, JobId, LAST_NUMBER, Note, Order, OutcomeNote};
use std::alloc::{AllocError, Global};

/// What became of a submission that is outstanding.
#[derive(Clone, Copy)]
pub(crate) enum Known {
    /// Its outcome isn't collected yet.
    Pending(Order<()>),
    /// Nobody will redeem its outcome, which isn't collected yet.
    Detached(Order<()>),
    /// Its outcome waits to be redeemed.
    Collected(OutcomeNote<u64>),
}

/// The submissions to one core.
#[derive(Drop)]
pub(crate) struct Lane {
    /// How many were sent.
    sent: u64,
    /// How many are outstanding.
    out: u16,
    /// Those that are outstanding, by number.
    known: Roll<Known>,
}

/// The submissions of a core to each core, itself too.
#[derive(Drop)]
pub(crate) struct Table {
    core: u8,
    /// How many may be outstanding on each link.
    cap: u16,
    lanes: Vec<Lane>,
}

/// Whether a command is answered so.
fn answers(order: &Order<()>, answer: Answer) -> bool
    ensures { result ≡ true → FitsOrder {T = ℕ} order.now (outcomes.Answered answer) }
{
    match (order, answer) {
        (Order::Create(_), Answer::Created(queue)) => {
            let _number = queue.0;
            true
        }
        (Order::Create(_), Answer::TooMany | Answer::NoMemory | Answer::CoreClosing) => true,
        (Order::SetShares(..), Answer::SharesSet | Answer::NoQueue) => true,
        (Order::Close(..), Answer::Closed | Answer::AlreadyClosed | Answer::NoQueue) => true,
        (Order::CloseCore(_), Answer::Closed | Answer::AlreadyClosed) => true,
        (Order::Wake(..), Answer::Woken | Answer::NoJob) => true,
        _ => false,
    }
}

/// Whether this can come of an order.
fn fits(order: &Order<()>, outcome: &OutcomeNote<u64>) -> bool
    ensures { result ≡ true → FitsOrder order.now outcome.now }
{
    match outcome {
        OutcomeNote::Finished(_) | OutcomeNote::Returned(_) => matches!(order, Order::Job(..)),
        OutcomeNote::Answered(answer) => answers(order, *answer),
    }
}

/// What is known of a submission behind a note, if it is outstanding then. None if the note may not tell that.
fn turned(known: Known, note: &Note<u64>) -> Option<Option<Known>>
    ensures { IfSome result (λ after. Turns known note.now after) }
{
    match (known, note) {
        (Known::Pending(order), Note::Collected(_, outcome)) if fits(&order, outcome) => Some(Some(
            Known::Collected(*outcome),
        )),
        (Known::Detached(order), Note::Collected(_, outcome)) if fits(&order, outcome) => Some(
            None,
        ),
        (Known::Collected(was), Note::Redeemed(_, outcome)) if was == *outcome => Some(None),
        (Known::Pending(order), Note::Detached(_)) => Some(Some(Known::Detached(order))),
        (Known::Collected(_), Note::Detached(_)) => Some(None),
        _ => None,
    }
}

/// The submission of which a note tells.
fn submission(note: &Note<u64>) -> Option<JobId>
    ensures { result ≡ spec.submission note.now }
{
    match note {
        Note::Sent(name, _)
        | Note::Collected(name, _)
        | Note::Redeemed(name, _)
        | Note::Detached(name) => Some(*name),
        _ => None,
    }
}

impl Lane {
    /// Nothing was sent.
    fn open(alloc: Global, cap: u16) -> Result<Self, AllocError>
        ensures { IfOk result (λ lane. lane ≡ fresh_lane cap) }
    {
        let known = Roll::open(alloc, cap)?;
        Ok(Lane {
            sent: 0,
            out: 0,
            known,
        })
    }

    /// Adds an order that is sent under this number. Whether it may be.
    fn sends(&mut self, cap: u16, number: u64, order: &Order<()>) -> bool
        requires { IsInStep cap self.old }
        ensures { result ≡ true → Sends cap number order.now self.old self.new }
    {
        if number == 0 || number > LAST_NUMBER || number - 1 != self.sent || self.out >= cap {
            return false;
        }
        self.known.add(number, Known::Pending(order.without_job()));
        self.sent = number;
        self.out += 1;
        true
    }

    /// Puts this in the place of what is known of a submission, or nothing. Whether anything was known.
    fn puts(&mut self, number: u64, after: Option<Known>) -> bool
        ensures { result ≡ true → (before : Known) → at self.old.known.entries number ≡ Some before → Puts number before after self.old self.new }
    {
        match after {
            Some(known) => self.known.swap(number, known).is_some(),
            None => {
                self.out = self.out.saturating_sub(1);
                self.known.remove(number).is_some()
            }
        }
    }

    /// Keeps what a note tells of the submission of this number. Whether it may tell it.
    fn keeps(&mut self, cap: u16, number: u64, note: &Note<u64>) -> bool
        requires { IsInStep cap self.old }
        ensures { result ≡ true → Keeps cap number note.now self.old self.new }
    {
        if let Note::Sent(_, order) = note {
            return self.sends(cap, number, order);
        }
        let Some(known) = self.known.get(number) else {
            return false;
        };
        match turned(known, note) {
            Some(after) => self.puts(number, after),
            None => false,
        }
    }
}

impl Table {
    /// Nothing was sent.
    pub(crate) fn open(alloc: Global, core: CoreNo, cores: u8, cap: u16) -> Result<Self, AllocError>
        ensures { IfOk result (λ table. (terms : Terms) → terms.actor ≡ core → terms.cores ≡ cores → terms.cap ≡ cap → KnowsTable terms table []) }
    {
        let mut lanes = Vec::with_capacity(alloc, cores as usize)?;
        for _ in 0..cores {
            lanes.push_reserved(Lane::open(alloc, cap)?);
        }
        Ok(Table {
            core: core.0,
            cap,
            lanes,
        })
    }

    /// The place of the lane of a submission of this core to a core that there is, and its number there.
    fn place(&self, name: JobId) -> Option<(usize, u64)>
        ensures { IfSome result (λ place. (place ≡ (name.to, name.number)) × (name.to < length self.now.lanes.items) × (name.from ≡ self.now.core)) }
    {
        let place = name.to.0 as usize;
        if name.from.0 == self.core && place < self.lanes.len() {
            Some((place, name.number))
        } else {
            None
        }
    }

    /// Keeps what a note tells of a submission, if it tells of one. Whether it may follow.
    pub(crate) fn keeps(&mut self, note: &Note<u64>) -> bool
        requires { (terms : Terms) × (before : Journal ℕ) × KnowsTable terms self.old before }
        ensures { result ≡ true → (terms : Terms) (before : Journal ℕ) → KnowsTable terms self.old before → FollowsSent terms note.now before × KnowsTable terms self.new (note.now ∷ before) }
    {
        let Some(name) = submission(note) else {
            return true;
        };
        let Some((place, number)) = self.place(name) else {
            return false;
        };
        let cap = self.cap;
        let lane = &mut self.lanes[place];
        lane.keeps(cap, number, note)
    }
}
