//! Rule 2, note by note: one sender's jobs in one queue start by rising number, links are numbered 1, 2, 3, .., and a job enters the queue that it was sent to.

ghost use Rattle.std.specs.Prelude.{◌≡◌, ◌∷◌, ◌+◌, ◌<◌, ◌≤◌, ℕ, IfSome, IsTrue, None, Some, [], length, get_or};
ghost use Rattle.base_words.specs.Assembly.{Assembly};
ghost use Rattle.base_words.specs.Clauses.{StandsInOrder, StartsRight};
ghost use Rattle.base_words.specs.Journal.{Journal as Notes, EachNote};
ghost use Rattle.base_words.specs.Limits.{most_cores};
ghost use Rattle.base_words.specs.Spelled.{IsSpelledNote, AreSpelledNotes};
ghost use Rattle.base_words.specs.Terms.{Terms};
ghost use Rattle.judge_audit.specs.Links.{KnowsOrders, under};
ghost use Rattle.judge_audit.specs.Numbers as spec;
ghost use Rattle.judge_audit.specs.Numbers.{KnowsNumbers, KnowsOrder, AreReached, Raises, IsAbove, EnteredAsSent, all_rows, last_started, queue_asked};
ghost use Rattle.note_facts.specs.Faults.{IsFirstFault};

use crate::links::order_under;
use base_words::{ActorNo, JobId, Note, Order, QueueNo};
use note_facts::{NameTable, note_at};
use note_journal::Journal;

/// The greatest number that started of each sender in each queue, and how many orders were sent to each core.
#[derive(Drop)]
pub(crate) struct Numbers {
    // 256 queues of each of 17 senders, sender after sender.
    started: [u64; 4352],
    sent: [u64; 256],
}

fn slot(sender: ActorNo, queue: QueueNo) -> usize
    ensures { result ≡ spec.slot sender queue }
{
    sender.0 as usize * 256 + queue.0 as usize
}

impl Numbers {
    fn new() -> Self
        ensures known { (assembly : Assembly ℕ) → KnowsNumbers assembly result [] }
        ensures reached { (assembly : Assembly ℕ) → AreReached assembly result [] }
        ensures rows { length result.started ≡ all_rows }
    {
        Numbers {
            started: [0; 4352],
            sent: [0; 256],
        }
    }

    /// The greatest number that started. A sender that there can't be has started all.
    fn last_started(&self, sender: ActorNo, queue: QueueNo) -> u64
        ensures { result ≡ last_started self.now sender queue }
    {
        match self.started.get(slot(sender, queue)) {
            Some(number) => *number,
            None => u64::MAX,
        }
    }

    /// A job of this queue starts.
    fn start(&mut self, queue: QueueNo, name: &JobId)
        ensures sent { self.new.sent ≡ self.old.sent }
        ensures others { (sender other : ℕ) → last_started self.old sender other ≤ last_started self.new sender other }
        ensures this { name.now.number ≤ last_started self.new name.now.from queue }
        ensures raises { Raises self.old self.new name.now.from queue name.now.number }
        ensures rows { length self.new.started ≡ length self.old.started }
    {
        let next = name.number;
        let at = slot(name.from, queue);
        if at < self.started.len() {
            let number = self.started[at];
            self.started[at] = next.max(number);
        }
    }

    /// Reads the next note, which stands in order.
    fn add(&mut self, orders: &[NameTable<Order<()>>], note: &Note<u64>)
        ensures known { (assembly : Assembly ℕ) (before : Notes ℕ) → KnowsOrders orders.now assembly → StandsInOrder assembly note.now before → KnowsNumbers assembly self.old before → KnowsNumbers assembly self.new (note.now ∷ before) }
        ensures reached { (assembly : Assembly ℕ) (before : Notes ℕ) → KnowsOrders orders.now assembly → AreReached assembly self.old before → AreReached assembly self.new (note.now ∷ before) }
        ensures rows { length self.new.started ≡ length self.old.started }
    {
        match *note {
            Note::Start(name) => {
                if let Some(queue) = queue_asked(orders, &name) {
                    self.start(queue, &name);
                }
            }
            Note::Sent(name, _) => self.sent[name.to.0 as usize] = name.number,
            _ => {}
        }
    }
}

/// The queue that the job of this name was sent to.
fn queue_asked(orders: &[NameTable<Order<()>>], name: &JobId) -> Option<QueueNo>
    ensures { result ≡ queue_asked (under orders.now name.now.from name.now) }
{
    match order_under(orders, name) {
        Some(order) => job_queue(&order),
        None => None,
    }
}

/// The queue of an order for a job.
fn job_queue(order: &Order<()>) -> Option<QueueNo>
    ensures { result ≡ queue_asked (Some order.now) }
{
    match *order {
        Order::Job(queue, _) => Some(queue),
        _ => None,
    }
}

/// Whether the name is above all that started of its sender in its queue.
fn is_above(orders: &[NameTable<Order<()>>], numbers: &Numbers, name: &JobId) -> bool
    ensures right { IsTrue result → IsAbove numbers.now (under orders.now name.now.from name.now) name.now }
    ensures only { (queue : ℕ) → queue_asked (under orders.now name.now.from name.now) ≡ Some queue → (queue < 256 → last_started numbers.now name.now.from queue < name.now.number) → IsTrue result }
{
    match queue_asked(orders, name) {
        Some(queue) => numbers.last_started(name.from, queue) < name.number,
        None => false,
    }
}

/// Whether the job of this name was sent to this queue.
fn is_sent_into(orders: &[NameTable<Order<()>>], name: &JobId, queue: QueueNo) -> bool
    ensures right { IsTrue result → queue_asked (under orders.now name.now.from name.now) ≡ Some queue }
    ensures only { queue_asked (under orders.now name.now.from name.now) ≡ Some queue → IsTrue result }
{
    match queue_asked(orders, name) {
        Some(asked) => asked.0 == queue.0,
        None => false,
    }
}

/// Whether the name is the next one of its link.
fn is_next_sent(numbers: &Numbers, name: &JobId) -> bool
    ensures right { IsTrue result → name.now.number ≡ get_or numbers.now.sent name.now.to 0 + 1 }
    ensures only { name.now.number ≡ get_or numbers.now.sent name.now.to 0 + 1 → IsTrue result }
{
    name.number >= 1 && name.number - 1 == numbers.sent[name.to.0 as usize]
}

/// Whether a note stands in order.
fn stands_in_order(orders: &[NameTable<Order<()>>], numbers: &Numbers, note: &Note<u64>) -> bool
    ensures right { (assembly : Assembly ℕ) (before : Notes ℕ) → KnowsOrders orders.now assembly
        → KnowsNumbers assembly numbers.now before → EnteredAsSent assembly before
        → StartsRight assembly note.now before → IsTrue result → StandsInOrder assembly note.now before }
    ensures only { (assembly : Assembly ℕ) (before : Notes ℕ) (terms : Terms) → KnowsOrders orders.now assembly
        → KnowsOrder assembly numbers.now before → terms.cores ≡ assembly.cores → IsSpelledNote terms note.now
        → StartsRight assembly note.now before → StandsInOrder assembly note.now before → IsTrue result }
{
    match *note {
        Note::Start(name) => is_above(orders, numbers, &name),
        Note::Sent(name, _) => is_next_sent(numbers, &name),
        Note::Took(name, queue) => is_sent_into(orders, &name, queue),
        _ => true,
    }
}

/// The line of the first note that doesn't stand in order, in a journal whose starts are right.
pub fn order_fault(orders: &[NameTable<Order<()>>], journal: &Journal<u64>) -> Option<usize>
    ensures kept { result ≡ None → (assembly : Assembly ℕ) → KnowsOrders orders.now assembly
        → EachNote (StartsRight assembly) journal.now.notes → EachNote (StandsInOrder assembly) journal.now.notes }
    ensures named { IfSome result (λ at. (assembly : Assembly ℕ) (terms : Terms) → assembly.cores ≤ most_cores
        → terms.cores ≡ assembly.cores → KnowsOrders orders.now assembly → AreSpelledNotes terms journal.now.notes
        → EachNote (StartsRight assembly) journal.now.notes → IsFirstFault (StandsInOrder assembly) journal.now.notes at) }
{
    let mut numbers = Numbers::new();
    for place in 0..journal.len() {
        let note = note_at(journal, place);
        if !stands_in_order(orders, &numbers, &note) {
            return Some(place + 1);
        }
        numbers.add(orders, &note);
    }
    None
}
