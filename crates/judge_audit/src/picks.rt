//! Rule 5: each pick takes the least pair of virtual runtime and number among the queues that have work, and a turn of several polls ends by a note with their time.
//!
//! One walk over a core's notes keeps the accounts of its queues, which job is out and which turn is open, and stops at the first note that
//! none of these allows. A pick that its turn doesn't follow is known as wrong one note later, so the place of the note before it is told.

ghost use Rattle.std.specs.Prelude.{◌≡◌, ◌<◌, ◌≤◌, ◌∷◌, ℕ, IfSome, IsTrue, None, Some, [], is_some, true, false, length, get_or};
ghost use Rattle.base_words.specs.Clauses.{PicksRight, IsInItsTurn, IsRightIfPick};
ghost use Rattle.base_words.specs.Journal.{Journal as Notes, EachNote};
ghost use Rattle.base_words.specs.Keys.{KeyAtMost};
ghost use Rattle.base_words.specs.Picks as spec;
ghost use Rattle.base_words.specs.Spelled.{AreSpelledNotes};
ghost use Rattle.base_words.specs.Terms.{Terms};
ghost use Rattle.note_facts.specs.Accounts.{fresh_account, has_jobs, greatest_count, greatest_runtime};
ghost use Rattle.note_facts.specs.AllAccounts.{KnowsAccounts};
ghost use Rattle.note_facts.specs.Endings.{core_ended};
ghost use Rattle.note_facts.specs.Histories.{FitsPlace, IsHistory};
ghost use Rattle.note_facts.specs.Parks.{is_same_queue};
ghost use Rattle.note_facts.specs.Spots.{FitsSpot};
ghost use Rattle.judge_audit.specs.Winners.{IsTree};
ghost use Rattle.judge_audit.specs.PickFaults.{IsPickFault, IsLineOf};
ghost use Rattle.judge_audit.specs.Picks.{KnowsTurns, FitsOut, FitsParks, Follows, out_after, IsAt, IsBelowAll, AreBelow};
ghost use Rattle.judge_audit.specs.Waiting.{AreWaiting};

use crate::least::Least;
use crate::placing::{place_if, place_told};
use crate::turns::{OpenTurn, answers_pick, fits_end, fits_poll, is_of_pick, turn_after};
use base_words::{JobId, Note, QueueNo};
use note_facts::{Account, Accounts, Fact, History, Spot, core_ended, note_at};
use note_journal::{Journal, same_name};

/// The queues, the job that is out, the queue of the pick that was just made, and the turn that is open.
#[derive(Drop)]
struct Turns {
    accounts: Accounts,
    least: Least,
    out: Option<JobId>,
    picked: Option<QueueNo>,
    turn: Option<OpenTurn>,
}

/// Whether the first pair of virtual runtime and number stands before the second one, or is it.
fn is_at_most(runtime: u128, queue: QueueNo, other_runtime: u128, other: QueueNo) -> bool
    ensures right { IsTrue result → KeyAtMost runtime queue other_runtime other }
    ensures only { KeyAtMost runtime queue other_runtime other → IsTrue result }
{
    runtime < other_runtime || runtime == other_runtime && queue.0 <= other.0
}

/// Whether no queue has a lesser pair.
fn is_least(least: &Least, runtime: u128, queue: QueueNo) -> bool
    ensures right { IsTree least.now → IsTrue result → IsBelowAll runtime queue least.now }
    ensures only { IsTree least.now → IsBelowAll runtime queue least.now → IsTrue result }
{
    let top = least.least();
    is_at_most(runtime, queue, top.vr, top.queue)
}

/// Whether a note may change which job is out.
fn fits_out(out: Option<JobId>, note: &Note<u64>) -> bool
    ensures right { IsTrue result → FitsOut out note.now }
    ensures only { FitsOut out note.now → IsTrue result }
{
    match *note {
        Note::Start(_) => out.is_none(),
        Note::Resume(_) => out.is_none(),
        Note::Yield(name, _) => is_out(out, &name),
        Note::Park(name, _) => is_out(out, &name),
        Note::Stayed(name, _) => is_out(out, &name),
        Note::Done(name, _, _) => is_out(out, &name),
        _ => true,
    }
}

fn is_out(out: Option<JobId>, name: &JobId) -> bool
    ensures right { IsTrue result → out ≡ Some name.now }
    ensures only { out ≡ Some name.now → IsTrue result }
{
    match out {
        Some(out) => same_name(&out, name),
        None => false,
    }
}

/// The job that is out after a note.
fn out_after(out: Option<JobId>, note: &Note<u64>) -> Option<JobId>
    ensures { result ≡ out_after out note.now }
{
    match *note {
        Note::Start(name) => Some(name),
        Note::Resume(name) => Some(name),
        Note::Yield(_, _) => None,
        Note::Park(_, _) => None,
        Note::Stayed(_, _) => None,
        Note::Done(_, _, _) => None,
        _ => out,
    }
}

impl Turns {
    fn new() -> Self
        ensures { (burst : ℕ) → KnowsTurns burst result [] }
    {
        let accounts = Accounts::new();
        let least = Least::new();
        Turns {
            accounts,
            least,
            out: None,
            picked: None,
            turn: None,
        }
    }

    /// Reads the next note.
    fn add(&mut self, burst: u8, fact: &Fact, note: &Note<u64>)
        requires { IsTree self.old.least }
        ensures { (before : Notes ℕ) → length before < greatest_count → FitsPlace fact.now note.now before → FitsOut self.old.out note.now → PicksRight burst note.now before → KnowsTurns burst self.old before → KnowsTurns burst self.new (note.now ∷ before) }
    {
        let spot = fact.spot(note);
        let out = out_after(self.out, note);
        let turn = turn_after(burst, self.picked, self.turn, note);
        self.count(burst, note, &spot);
        self.out = out;
        self.picked = queue_picked(note);
        self.turn = turn;
    }

    /// Reads the next note, which speaks of the queues of this spot: accounts and keys follow it.
    fn count(&mut self, burst: u8, note: &Note<u64>, spot: &Spot)
        requires { IsTree self.old.least }
        ensures tree { IsTree self.new.least }
        ensures known { (before : Notes ℕ) → FitsSpot spot.now note.now before → length before < greatest_count → KnowsAccounts burst self.old.accounts before → KnowsAccounts burst self.new.accounts (note.now ∷ before) }
        ensures waiting { (before : Notes ℕ) → KnowsAccounts burst self.old.accounts before → AreWaiting self.old.accounts self.old.least → AreWaiting self.new.accounts self.new.least }
    {
        if core_ended(note) {
            self.count_end(burst, note, spot);
        } else {
            self.count_other(burst, note, spot);
        }
    }

    /// The same of a note that may end the parks of all queues.
    fn count_end(&mut self, burst: u8, note: &Note<u64>, spot: &Spot)
        requires { IsTree self.old.least }
        ensures tree { IsTree self.new.least }
        ensures known { (before : Notes ℕ) → FitsSpot spot.now note.now before → length before < greatest_count → KnowsAccounts burst self.old.accounts before → KnowsAccounts burst self.new.accounts (note.now ∷ before) }
        ensures waiting { (before : Notes ℕ) → KnowsAccounts burst self.old.accounts before → AreWaiting self.old.accounts self.old.least → AreWaiting self.new.accounts self.new.least }
    {
        let recent = self.accounts.recent;
        self.accounts.add(note, spot, burst);
        place_told(&mut self.least, &self.accounts, &recent);
        place_if(&mut self.least, &self.accounts, spot.parked);
        place_if(&mut self.least, &self.accounts, spot.queue);
    }

    /// The same of any other note.
    fn count_other(&mut self, burst: u8, note: &Note<u64>, spot: &Spot)
        requires tree { IsTree self.old.least }
        requires going { core_ended note.now ≡ false }
        ensures tree { IsTree self.new.least }
        ensures known { (before : Notes ℕ) → FitsSpot spot.now note.now before → length before < greatest_count → KnowsAccounts burst self.old.accounts before → KnowsAccounts burst self.new.accounts (note.now ∷ before) }
        ensures waiting { (before : Notes ℕ) → KnowsAccounts burst self.old.accounts before → AreWaiting self.old.accounts self.old.least → AreWaiting self.new.accounts self.new.least }
    {
        self.accounts.add(note, spot, burst);
        place_if(&mut self.least, &self.accounts, spot.parked);
        place_if(&mut self.least, &self.accounts, spot.queue);
    }
}

/// The queue that a note picks.
fn queue_picked(note: &Note<u64>) -> Option<QueueNo>
    ensures { (before : Notes ℕ) → result ≡ spec.queue_just_picked (note.now ∷ before) }
{
    match *note {
        Note::Pick(queue, _) => Some(queue),
        _ => None,
    }
}

/// Whether a pick is followed by a turn of its queue, and nothing else is.
fn is_followed(turns: &Turns, fact: &Fact, note: &Note<u64>) -> bool
    ensures right { (burst : ℕ) (before : Notes ℕ) → KnowsTurns burst turns.now before → FitsPlace fact.now note.now before → IsTrue result → Follows burst note.now before }
    ensures only { (burst : ℕ) (before : Notes ℕ) → KnowsTurns burst turns.now before → FitsPlace fact.now note.now before → Follows burst note.now before → IsTrue result }
{
    match *note {
        Note::Start(_) => answers_pick(turns.turn, turns.picked, fact.queue),
        Note::Resume(_) => answers_pick(turns.turn, turns.picked, fact.queue),
        Note::Returned(_, _) => is_of_pick(turns.picked, fact.queue),
        _ => turns.picked.is_none(),
    }
}

/// Whether the queue of this account may be picked at this virtual runtime.
fn is_at(account: &Account, runtime: u128) -> bool
    ensures right { IsTrue result → IsAt account.now runtime }
    ensures only { IsAt account.now runtime → IsTrue result }
{
    account.has_jobs() && account.virtual_runtime == runtime && runtime < u128::MAX
}

/// Whether no job is out, and no turn is open.
fn is_free(turns: &Turns) -> bool
    ensures right { IsTrue result → (turns.now.out ≡ None) × (turns.now.turn ≡ None) }
    ensures only { turns.now.out ≡ None → turns.now.turn ≡ None → IsTrue result }
{
    turns.out.is_none() && turns.turn.is_none()
}

/// Whether no job is out, no turn is open, and the queue may be picked at this virtual runtime.
fn may_pick(turns: &Turns, queue: QueueNo, runtime: u128) -> bool
    ensures right { IsTrue result → ((turns.now.out ≡ None) × (turns.now.turn ≡ None)) × IsAt (get_or turns.now.accounts.queues queue fresh_account) runtime }
    ensures only { turns.now.out ≡ None → turns.now.turn ≡ None → IsAt (get_or turns.now.accounts.queues queue fresh_account) runtime → IsTrue result }
{
    let account = turns.accounts.of(queue);
    is_free(turns) && is_at(&account, runtime)
}

/// Whether a pick takes the least pair, at the virtual runtime of its queue.
fn is_right_pick(turns: &Turns, queue: QueueNo, runtime: u128) -> bool
    ensures right { (burst : ℕ) (before : Notes ℕ) → KnowsTurns burst turns.now before → IsTrue result → spec.IsRightPick burst queue runtime before }
    ensures only { (burst : ℕ) (before : Notes ℕ) → KnowsTurns burst turns.now before → AreBelow burst greatest_runtime before → spec.IsRightPick burst queue runtime before → IsTrue result }
{
    if !turns.accounts.has_few() {
        return false;
    }
    may_pick(turns, queue, runtime) && is_least(&turns.least, runtime, queue)
}

fn right_if_pick(turns: &Turns, note: &Note<u64>) -> bool
    ensures right { (burst : ℕ) (before : Notes ℕ) → KnowsTurns burst turns.now before → IsTrue result → IsRightIfPick burst note.now before }
    ensures only { (burst : ℕ) (before : Notes ℕ) → KnowsTurns burst turns.now before → AreBelow burst greatest_runtime before → IsRightIfPick burst note.now before → IsTrue result }
{
    match *note {
        Note::Pick(queue, runtime) => is_right_pick(turns, queue, runtime),
        _ => true,
    }
}

/// Whether the job is parked in its queue.
fn is_parked(fact: &Fact) -> bool
    ensures { result ≡ is_same_queue fact.now.queue fact.now.parked }
{
    let Some(queue) = fact.queue else {
        return false;
    };
    match fact.parked {
        Some(parked) => queue.0 == parked.0,
        None => false,
    }
}

/// Whether a job that asks to be parked stays in its line exactly where it must, and no parked job is polled or handed back.
fn fits_parks(fact: &Fact, note: &Note<u64>) -> bool
    ensures right { (before : Notes ℕ) → FitsPlace fact.now note.now before → IsTrue result → FitsParks note.now before }
    ensures only { (before : Notes ℕ) → FitsPlace fact.now note.now before → FitsParks note.now before → IsTrue result }
{
    match *note {
        Note::Park(_, _) => !fact.stays,
        Note::Stayed(_, _) => fact.stays,
        Note::Resume(_) => !is_parked(fact),
        Note::Returned(_, _) => !is_parked(fact),
        _ => true,
    }
}

/// Whether a note may change which job is out, and fits who is parked.
fn is_settled(turns: &Turns, fact: &Fact, note: &Note<u64>) -> bool
    ensures right { (before : Notes ℕ) → FitsPlace fact.now note.now before → IsTrue result → FitsOut turns.now.out note.now × FitsParks note.now before }
    ensures only { (before : Notes ℕ) → FitsPlace fact.now note.now before → FitsOut turns.now.out note.now → FitsParks note.now before → IsTrue result }
{
    fits_out(turns.out, note) && fits_parks(fact, note)
}

/// Whether a poll is a further one of the open turn, if a turn is open, and what ends a turn is of the open one.
fn fits_turn(burst: u8, turns: &Turns, fact: &Fact, note: &Note<u64>) -> bool
    ensures right { (before : Notes ℕ) → KnowsTurns burst turns.now before → FitsPlace fact.now note.now before → IsTrue result → IsInItsTurn burst note.now before }
    ensures only { (before : Notes ℕ) → KnowsTurns burst turns.now before → FitsPlace fact.now note.now before → IsInItsTurn burst note.now before → IsTrue result }
{
    match *note {
        Note::Start(_) => fits_poll(burst, turns.turn, turns.out, fact.queue),
        Note::Resume(_) => fits_poll(burst, turns.turn, turns.out, fact.queue),
        Note::Turned(queue, time) => fits_end(turns.turn, turns.out, queue, time),
        _ => true,
    }
}

/// Whether a pick is right, and a pick is followed by a turn of its queue.
fn fits_pick(turns: &Turns, fact: &Fact, note: &Note<u64>) -> bool
    ensures right { (burst : ℕ) (before : Notes ℕ) → KnowsTurns burst turns.now before → FitsPlace fact.now note.now before → IsTrue result → IsRightIfPick burst note.now before × Follows burst note.now before }
    ensures only { (burst : ℕ) (before : Notes ℕ) → KnowsTurns burst turns.now before → FitsPlace fact.now note.now before → AreBelow burst greatest_runtime before → IsRightIfPick burst note.now before → Follows burst note.now before → IsTrue result }
{
    right_if_pick(turns, note) && is_followed(turns, fact, note)
}

/// Whether a note picks, and follows a pick, and stands in its turn as it may.
fn is_in_turn(burst: u8, turns: &Turns, fact: &Fact, note: &Note<u64>) -> bool
    ensures right { (before : Notes ℕ) → KnowsTurns burst turns.now before → FitsPlace fact.now note.now before → IsTrue result → IsRightIfPick burst note.now before × Follows burst note.now before × IsInItsTurn burst note.now before }
    ensures only { (before : Notes ℕ) → KnowsTurns burst turns.now before → FitsPlace fact.now note.now before → AreBelow burst greatest_runtime before → IsRightIfPick burst note.now before → Follows burst note.now before → IsInItsTurn burst note.now before → IsTrue result }
{
    fits_pick(turns, fact, note) && fits_turn(burst, turns, fact, note)
}

/// Whether a note picks, follows a pick, stands in its turn and settles as it may.
fn picks_right(burst: u8, turns: &Turns, fact: &Fact, note: &Note<u64>) -> bool
    ensures right { (before : Notes ℕ) → KnowsTurns burst turns.now before → FitsPlace fact.now note.now before → IsTrue result → PicksRight burst note.now before × FitsOut turns.now.out note.now }
    ensures only { (before : Notes ℕ) → KnowsTurns burst turns.now before → FitsPlace fact.now note.now before → AreBelow burst greatest_runtime before → EachNote (PicksRight burst) before → PicksRight burst note.now before → IsTrue result }
{
    is_in_turn(burst, turns, fact, note) && is_settled(turns, fact, note)
}

/// The line of a wrong note, or of the pick before it, if that isn't followed as it should be.
fn line_at(turns: &Turns, fact: &Fact, note: &Note<u64>, place: usize) -> usize
    requires { place < greatest_count }
    ensures { (burst : ℕ) (before : Notes ℕ) → KnowsTurns burst turns.now before → FitsPlace fact.now note.now before → IsLineOf burst note.now before place result }
{
    if is_followed(turns, fact, note) {
        return place + 1;
    }
    if turns.picked.is_some() {
        place
    } else {
        place + 1
    }
}

/// The line of the first note that picks, follows a pick, stands in a turn or settles as it may not, by the history of the journal, where turns have so many polls at most. A pick that isn't followed as it should be is named itself.
pub fn picks_fault(burst: u8, history: &History, journal: &Journal<u64>) -> Option<usize>
    requires { IsHistory history.now journal.now.notes }
    ensures kept { result ≡ None → EachNote (PicksRight burst) journal.now.notes × (spec.queue_just_picked journal.now.notes ≡ None) }
    ensures only { (terms : Terms) → AreSpelledNotes terms journal.now.notes → EachNote (PicksRight burst) journal.now.notes → spec.queue_just_picked journal.now.notes ≡ None → result ≡ None }
    ensures named { IfSome result (λ at. (terms : Terms) → AreSpelledNotes terms journal.now.notes → IsPickFault burst journal.now.notes at) }
{
    let mut turns = Turns::new();
    for place in 0..journal.len() {
        let note = note_at(journal, place);
        let fact = history.fact(place);
        if !picks_right(burst, &turns, &fact, &note) {
            return Some(line_at(&turns, &fact, &note, place));
        }
        turns.add(burst, &fact, &note);
    }
    if turns.picked.is_some() {
        return Some(journal.len());
    }
    None
}
