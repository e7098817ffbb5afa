//! What is known of the queues of one journal.
//!
//! Each note is read once, and all that it changes is in the account of at most one queue. Two change more: a core that closes ends all parks,
//! and a pick raises the floor. A queue that gets work begins at the floor at least, as in Linux's CFS.

ghost use Rattle.std.specs.Prelude.{◌≡◌, ◌↔◌, ◌<◌, ◌≤◌, ◌⊎◌, ◌∷◌, ℕ, IsTrue, Some, [], if◌then◌else◌, get_or, length};
ghost use Rattle.base_words.specs.Bursts as turns;
ghost use Rattle.base_words.specs.Journal.{Journal};
ghost use Rattle.base_words.specs.Names.{is_number};
ghost use Rattle.base_words.specs.Runtimes.{runtime_picked};
ghost use Rattle.note_facts.specs.Accounts.{fresh_account, has_jobs, entering, charged_if, leaving, parking, waking, own_after, released_after, greatest_count};
ghost use Rattle.note_facts.specs.AllAccounts.{KnowsAccounts, IsApart, IsEmpty, account_of};
ghost use Rattle.note_facts.specs.Recent.{Holds};
ghost use Rattle.note_facts.specs.Spots.{FitsSpot, queue_parking};

use crate::endings::core_ended;
use crate::recent::Recent;
use crate::spots::Spot;
use base_words::{Mode, Note, QueueNo, Shares};

/// Of the notes that were read: the shares and the virtual runtime of one queue, how many jobs entered it and left it, and how many are parked.
#[derive(Clone, Copy)]
pub struct Account {
    pub shares: Shares,
    /// `u128::MAX` where the notes say more.
    pub virtual_runtime: u128,
    pub entered: u64,
    pub left: u64,
    pub parked: u64,
}

impl Account {
    /// No note was read.
    pub fn new() -> Self
        ensures { result ≡ fresh_account }
    {
        Account {
            shares: Shares::default(),
            virtual_runtime: 0,
            entered: 0,
            left: 0,
            parked: 0,
        }
    }

    /// Whether the queue has work.
    pub fn has_jobs(&self) -> bool
        ensures { result ≡ has_jobs self.now }
    {
        self.left.saturating_add(self.parked) < self.entered
    }

    /// A job enters.
    fn enter(&mut self, floor: u128)
        ensures { self.new ≡ entering floor self.old }
    {
        if !self.has_jobs() {
            self.virtual_runtime = base_words::placed(self.virtual_runtime, floor);
        }
        self.entered = self.entered.saturating_add(1);
    }

    /// A time is charged, if it counts.
    fn charge(&mut self, time: u64, counts: bool)
        ensures { self.new ≡ charged_if counts time self.old }
    {
        if counts {
            let cost = base_words::charge(time, &self.shares) as u128;
            self.virtual_runtime = self.virtual_runtime.saturating_add(cost);
        }
    }

    /// A job is done or handed back.
    fn leave(&mut self)
        ensures { self.new ≡ leaving self.old }
    {
        self.left = self.left.saturating_add(1);
    }

    /// A job is parked.
    fn park(&mut self)
        ensures { self.new ≡ parking self.old }
    {
        self.parked = self.parked.saturating_add(1);
    }

    /// So many parks end.
    fn wake(&mut self, count: u64, floor: u128)
        ensures { self.new ≡ waking count floor self.old }
    {
        if count > 0 && !self.has_jobs() {
            self.virtual_runtime = base_words::placed(self.virtual_runtime, floor);
        }
        self.parked = self.parked.saturating_sub(count);
    }

    /// All parks end.
    fn wake_all(&mut self, floor: u128)
        ensures { self.new ≡ waking self.old.parked floor self.old }
    {
        self.wake(self.parked, floor);
    }

    /// Reads a note whose job is parked in this queue.
    fn release(&mut self, note: &Note<u64>, floor: u128)
        ensures { self.new ≡ released_after floor note.now self.old }
    {
        match *note {
            Note::Woken(_) => self.wake(1, floor),
            Note::Park(_, _) => self.parked = self.parked.saturating_sub(1),
            _ => {}
        }
    }

    /// Reads a note that speaks of this queue.
    fn add(&mut self, note: &Note<u64>, floor: u128, burst: u8)
        ensures { self.new ≡ own_after burst floor note.now self.old }
    {
        let of_turns = has_bursts(burst);
        let of_polls = !of_turns;
        match *note {
            Note::Took(_, _) => self.enter(floor),
            Note::Created(_, shares) => self.shares = shares,
            Note::SharesSet(_, shares) => self.shares = shares,
            Note::QueueClosed(_, Mode::Return) => self.wake_all(floor),
            Note::Yield(_, time) => self.charge(time, of_polls),
            Note::Park(_, time) => {
                self.charge(time, of_polls);
                self.park();
            }
            Note::Stayed(_, time) => self.charge(time, of_polls),
            Note::Done(_, time, _) => {
                self.charge(time, of_polls);
                self.leave();
            }
            Note::Returned(_, _) => self.leave(),
            Note::Turned(_, time) => self.charge(time, of_turns),
            _ => {}
        }
    }
}

/// Whether a note of its own ends a turn, where a turn may have so many polls.
pub fn has_bursts(burst: u8) -> bool
    ensures { result ≡ turns.has_bursts burst }
{
    burst > 1
}

/// The virtual runtime at which a note picks a queue.
fn runtime_picked(note: &Note<u64>) -> u128
    ensures { result ≡ runtime_picked note.now }
{
    match *note {
        Note::Pick(_, runtime) => runtime,
        _ => 0,
    }
}

/// The queue in which a note parks a job. The note speaks of this queue.
fn queue_parking(note: &Note<u64>, queue: Option<QueueNo>) -> Option<QueueNo>
    ensures { result ≡ queue_parking note.now queue }
{
    match *note {
        Note::Park(_, _) => queue,
        _ => None,
    }
}

/// Whether none of these queues has work, and no job is parked.
fn all_empty(accounts: &[Account; 256]) -> bool
    ensures { IsTrue result ↔ ((queue : ℕ) → IsEmpty (get_or accounts.now queue fresh_account)) }
{
    for queue in 0..accounts.len() {
        if accounts[queue].has_jobs() || accounts[queue].parked > 0 {
            return false;
        }
    }
    true
}

/// Of the notes that were read: the account of each queue, and the floor.
#[derive(Drop)]
pub struct Accounts {
    pub queues: [Account; 256],
    pub floor: u128,
    /// The queues in which jobs were parked since the core was last closed in mode `Return`.
    pub recent: Recent,
}

impl Accounts {
    /// No note was read.
    pub fn new() -> Self
        ensures { (burst : ℕ) → KnowsAccounts {T = ℕ} burst result [] }
    {
        Accounts {
            queues: [Account::new(); 256],
            floor: 0,
            recent: Recent::new(),
        }
    }

    /// The account of a queue.
    pub fn of(&self, queue: QueueNo) -> Account
        ensures { result ≡ account_of self.now queue }
    {
        self.queues[queue.0 as usize]
    }

    /// Whether no queue has work, and no job is parked.
    pub fn are_empty(&self) -> bool
        ensures { IsTrue result ↔ ((queue : ℕ) → IsEmpty (account_of self.now queue)) }
    {
        all_empty(&self.queues)
    }

    /// Whether there are no more accounts than queues. There never are more.
    pub fn has_few(&self) -> bool
        ensures few { length self.now.queues ≤ 256 }
        ensures always { IsTrue result }
    {
        let queues: &[Account] = &self.queues;
        queues.len() <= 256
    }

    /// Reads a note whose job is parked in this queue, if in any.
    fn release(&mut self, note: &Note<u64>, queue: Option<QueueNo>)
        ensures each { (other : ℕ) → account_of self.new other ≡ (if is_number other queue then released_after self.old.floor note.now (account_of self.old other) else account_of self.old other) }
        ensures floor { self.new.floor ≡ self.old.floor }
        ensures recent { self.new.recent ≡ self.old.recent }
    {
        let Some(queue) = queue else {
            return;
        };
        let mut account = self.of(queue);
        account.release(note, self.floor);
        self.queues[queue.0 as usize] = account;
    }

    /// Reads a note that speaks of this queue, if of any.
    fn change(&mut self, note: &Note<u64>, queue: Option<QueueNo>, burst: u8)
        ensures each { (other : ℕ) → account_of self.new other ≡ (if is_number other queue then own_after burst self.old.floor note.now (account_of self.old other) else account_of self.old other) }
        ensures floor { self.new.floor ≡ self.old.floor }
        ensures recent { self.new.recent ≡ self.old.recent }
    {
        let Some(queue) = queue else {
            return;
        };
        let mut account = self.of(queue);
        account.add(note, self.floor, burst);
        self.queues[queue.0 as usize] = account;
    }

    /// All parks end.
    fn wake_all(&mut self)
        ensures woken { (queue : ℕ) → Holds self.old.recent queue → account_of self.new queue ≡ waking (account_of self.old queue).parked self.old.floor (account_of self.old queue) }
        ensures others { (queue : ℕ) → (account_of self.old queue).parked ≡ 0 → account_of self.new queue ≡ account_of self.old queue }
        ensures floor { self.new.floor ≡ self.old.floor }
        ensures recent { (queue : ℕ) → Holds self.new.recent queue → ⊥ }
    {
        for place in 0..self.recent.size() {
            let queue = self.recent.queue_at(place);
            let mut account = self.of(queue);
            account.wake_all(self.floor);
            self.queues[queue.0 as usize] = account;
        }
        self.recent.clear();
    }

    /// The queue in which a note parks a job, if it parks one, is told. The note speaks of this queue.
    fn remember(&mut self, note: &Note<u64>, queue: Option<QueueNo>)
        ensures recent { (other : ℕ) → other < 256 → Holds self.old.recent other ⊎ (queue_parking note.now queue ≡ Some other) → Holds self.new.recent other }
        ensures queues { self.new.queues ≡ self.old.queues }
        ensures floor { self.new.floor ≡ self.old.floor }
    {
        if let Some(queue) = queue_parking(note, queue) {
            self.recent.add(queue);
        }
    }

    /// Reads the next note, which speaks of the queues of this spot. A turn may have so many polls: where it may have several, its own note
    /// is charged, and none of its polls.
    pub fn add(&mut self, note: &Note<u64>, spot: &Spot, burst: u8)
        ensures known { (before : Journal ℕ) → FitsSpot spot.now note.now before → length before < greatest_count → KnowsAccounts burst self.old before → KnowsAccounts burst self.new (note.now ∷ before) }
        ensures others { (before : Journal ℕ) → KnowsAccounts burst self.old before → (queue : ℕ) → IsApart note.now spot.now queue (account_of self.old queue) → account_of self.new queue ≡ account_of self.old queue }
    {
        self.release(note, spot.parked);
        self.change(note, spot.queue, burst);
        if core_ended(note) {
            self.wake_all();
        } else {
            self.remember(note, spot.queue);
        }
        self.floor = self.floor.max(runtime_picked(note));
        let _few = self.has_few();
    }
}
