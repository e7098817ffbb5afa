//! Rule 4, of a drained core: all that was accepted for it has ended.
//!
//! A core is drained if each sender's gate is shut, all behind the gates was delivered, and no queue has work. Only of such a core is asked
//! whether each order that any actor sent to it has ended: its own journal tells the end, the senders' what was sent.

ghost use Rattle.std.specs.Prelude.{◌≡◌, ◌↔◌, ◌∷◌, ◌+◌, ◌<◌, ◌≤◌, ℕ, IsTrue, Some, false, length};
ghost use Rattle.base_words.specs.Assembly.{Assembly as AllJournals, journal_of, order_of};
ghost use Rattle.base_words.specs.Closing.{IsDrained, final_count};
ghost use Rattle.base_words.specs.Filters.{delivered_names};
ghost use Rattle.base_words.specs.Journal.{Journal as Notes, EachNote};
ghost use Rattle.base_words.specs.Limits.{most_cores};
ghost use Rattle.base_words.specs.Sound.{AllEnded};
ghost use Rattle.base_words.specs.Work.{number_if};
ghost use Rattle.note_facts.specs.AllAccounts.{HasNobody, KnowsAccounts};
ghost use Rattle.base_words.specs.declared.note.Note.{Note};
ghost use Rattle.judge_audit.specs.Links.{KnowsOrders};
ghost use Rattle.note_facts.specs.Histories.{IsHistory};
ghost use Rattle.judge_audit.specs.Ends.{ended_by, EndedUnder, EndedIfSent};

use crate::links::order_under;
use base_words::{ActorNo, CoreNo, JobId, Note, Order};
use note_facts::{Accounts, History, NameTable, note_at};
use note_journal::{Assembly, Journal};

/// Whether the job has ended, or the command was answered.
fn has_ended(history: &History, name: &JobId, order: &Order<()>) -> bool
    ensures { (journal : Notes ℕ) → IsHistory history.now journal → result ≡ ended_by journal name.now order.now }
{
    match *order {
        Order::Job(_, _) => history.has_ended(name),
        _ => history.is_answered(name),
    }
}

/// Whether no queue has work, and no job is parked.
fn is_idle(accounts: &Accounts) -> bool
    ensures right { (burst : ℕ) (before : Notes ℕ) → KnowsAccounts burst accounts.now before → IsTrue result → (queue : ℕ) → HasNobody queue before }
    ensures only { (burst : ℕ) (before : Notes ℕ) → KnowsAccounts burst accounts.now before → ((queue : ℕ) → HasNobody queue before) → IsTrue result }
{
    accounts.are_empty()
}

/// The accounts of a core's queues at the end of its journal, where turns have so many polls at most.
fn accounts_after(burst: u8, history: &History, journal: &Journal<u64>) -> Accounts
    requires { IsHistory history.now journal.now.notes }
    ensures { KnowsAccounts burst result journal.now.notes }
{
    let mut accounts = Accounts::new();
    for place in 0..journal.len() {
        let note = note_at(journal, place);
        let fact = history.fact(place);
        accounts.add(&note, &fact.spot(&note), burst);
    }
    accounts
}

/// Whether a note delivers what this actor sent.
fn is_delivered_from(sender: ActorNo, note: &Note<u64>) -> bool
    ensures { (before : Notes ℕ) → length (delivered_names sender (note.now ∷ before)) ≡ length (delivered_names sender before) + number_if result }
{
    match *note {
        Note::Took(name, _) => name.from == sender,
        Note::Back(name, _) => name.from == sender,
        Note::Answered(name, _) => name.from == sender,
        _ => false,
    }
}

/// How many submissions of this actor were delivered.
fn delivered_count(sender: ActorNo, journal: &Journal<u64>) -> usize
    ensures { result ≡ length (delivered_names sender journal.now.notes) }
{
    let mut count = 0;
    for place in 0..journal.len() {
        let note = note_at(journal, place);
        if is_delivered_from(sender, &note) {
            count += 1;
        }
    }
    count
}

/// The final count of a gate after a note.
fn count_after(sender: ActorNo, note: &Note<u64>, count: Option<u64>) -> Option<u64>
    ensures { (before : Notes ℕ) → count ≡ final_count sender before → result ≡ final_count sender (note.now ∷ before) }
{
    match *note {
        Note::Shut(other, shut) => { if sender == other { Some(shut) } else { count } }
        _ => count,
    }
}

/// The final count of a gate, if it is shut.
fn final_count(sender: ActorNo, journal: &Journal<u64>) -> Option<u64>
    ensures { result ≡ final_count sender journal.now.notes }
{
    let mut count = None;
    for place in 0..journal.len() {
        let note = note_at(journal, place);
        count = count_after(sender, &note, count);
    }
    count
}

/// Whether the gate of this sender is shut and all behind it delivered.
fn is_emptied(sender: ActorNo, journal: &Journal<u64>) -> bool
    ensures right { IsTrue result → final_count sender journal.now.notes ≡ Some (length (delivered_names sender journal.now.notes)) }
    ensures only { final_count sender journal.now.notes ≡ Some (length (delivered_names sender journal.now.notes)) → IsTrue result }
{
    match final_count(sender, journal) {
        Some(count) => count == delivered_count(sender, journal) as u64,
        None => false,
    }
}

/// Whether each gate is shut and all behind it delivered.
fn are_emptied(cores: u8, journal: &Journal<u64>) -> bool
    ensures right { IsTrue result → (sender : ℕ) → sender ≤ cores → final_count sender journal.now.notes ≡ Some (length (delivered_names sender journal.now.notes)) }
    ensures only { ((sender : ℕ) → sender ≤ cores → final_count sender journal.now.notes ≡ Some (length (delivered_names sender journal.now.notes))) → IsTrue result }
{
    let outside = is_emptied(ActorNo(cores), journal);
    for sender in 0..cores {
        if !is_emptied(ActorNo(sender), journal) {
            return false;
        }
    }
    outside
}

/// Whether what was accepted under this name has ended, if anything was.
fn has_ended_under(history: &History, orders: &[NameTable<Order<()>>], name: &JobId) -> bool
    ensures { (assembly : AllJournals ℕ) (journal : Notes ℕ) → KnowsOrders orders.now assembly → IsHistory history.now journal → (IsTrue result ↔ EndedUnder journal name.now (order_of name.now assembly)) }
{
    match order_under(orders, name) {
        Some(order) => has_ended(history, name, &order),
        None => true,
    }
}

/// Whether what was accepted under the name that a note sends to this core has ended.
fn ended_if_sent(
    history: &History,
    orders: &[NameTable<Order<()>>],
    core: CoreNo,
    note: &Note<u64>,
) -> bool
    ensures { (assembly : AllJournals ℕ) (journal before : Notes ℕ) → KnowsOrders orders.now assembly → IsHistory history.now journal → (IsTrue result ↔ EndedIfSent journal assembly core note.now before) }
{
    match *note {
        Note::Sent(name, _) => name.to.0 != core.0 || has_ended_under(history, orders, &name),
        _ => true,
    }
}

/// Whether all that was sent to this core has ended.
fn all_ended(
    history: &History,
    orders: &[NameTable<Order<()>>],
    core: CoreNo,
    sent: &Journal<u64>,
) -> bool
    ensures right { (assembly : AllJournals ℕ) (journal : Notes ℕ) → KnowsOrders orders.now assembly → IsHistory history.now journal → IsTrue result → EachNote (EndedIfSent journal assembly core) sent.now.notes }
    ensures only { (assembly : AllJournals ℕ) (journal : Notes ℕ) → KnowsOrders orders.now assembly → IsHistory history.now journal → ((note : Note ℕ) (before : Notes ℕ) → EndedIfSent journal assembly core note before) → IsTrue result }
{
    for place in 0..sent.len() {
        let note = note_at(sent, place);
        if !ended_if_sent(history, orders, core, &note) {
            return false;
        }
    }
    true
}

/// Whether all that any actor sent to this core has ended.
fn ended_of_all(
    history: &History,
    orders: &[NameTable<Order<()>>],
    core: CoreNo,
    assembly: &Assembly,
) -> bool
    requires few { assembly.now.cores ≤ most_cores }
    requires orders { KnowsOrders orders.now assembly.now }
    requires history { IsHistory history.now (journal_of core assembly.now) }
    ensures right { IsTrue result → (sender : ℕ) → sender ≤ assembly.now.cores → EachNote (EndedIfSent (journal_of core assembly.now) assembly.now core) (journal_of sender assembly.now) }
    ensures only { ((note : Note ℕ) (before : Notes ℕ) → EndedIfSent (journal_of core assembly.now) assembly.now core note before) → IsTrue result }
{
    for sender in 0..assembly.cores() + 1 {
        if !all_ended(history, orders, core, assembly.journal(ActorNo(sender))) {
            return false;
        }
    }
    true
}

/// Whether the core is drained and has lost something that was accepted for it.
pub(crate) fn has_lost(
    history: &History,
    orders: &[NameTable<Order<()>>],
    assembly: &Assembly,
    core: CoreNo,
) -> bool
    requires few { assembly.now.cores ≤ most_cores }
    requires here { core < assembly.now.cores }
    requires orders { KnowsOrders orders.now assembly.now }
    requires history { IsHistory history.now (journal_of core assembly.now) }
    ensures kept { result ≡ false → IsDrained assembly.now.cores (journal_of core assembly.now) → AllEnded assembly.now core }
    ensures only { (IsDrained assembly.now.cores (journal_of core assembly.now) → AllEnded assembly.now core) → result ≡ false }
{
    let journal = assembly.journal(ActorNo(core.0));
    let count = assembly.cores();
    if !are_emptied(count, journal) {
        return false;
    }
    let accounts = accounts_after(assembly.burst(), history, journal);
    if !is_idle(&accounts) {
        return false;
    }
    !ended_of_all(history, orders, core, assembly)
}
