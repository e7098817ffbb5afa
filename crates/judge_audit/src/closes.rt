//! Rule 3: nothing enters after a close, and each gate is shut once, at the count of what was accepted.

ghost use Rattle.std.specs.Prelude.{◌≡◌, ◌+◌, ◌∷◌, ◌<◌, ℕ, IsTrue, IfSome, None, [], length};
ghost use Rattle.base_words.specs.Assembly.{journal_of};
ghost use Rattle.base_words.specs.Clauses.{RespectsCloses};
ghost use Rattle.base_words.specs.Filters.{accepted_orders};
ghost use Rattle.base_words.specs.Journal.{Journal as Notes, EachNote};
ghost use Rattle.base_words.specs.Work.{number_if};
ghost use Rattle.judge_audit.specs.Closes.{KnowsCloses};
ghost use Rattle.note_facts.specs.Faults.{IsFirstFault};

use base_words::{ActorNo, CoreNo, Mode, Note};
use note_facts::note_at;
use note_journal::{Assembly, Journal};

/// Which queues are closed, which gates are shut, whether the core is closed, and whether it hands back what it holds.
#[derive(Drop)]
pub(crate) struct Closes {
    queues: [bool; 256],
    gates: [bool; 256],
    core: bool,
    returning: bool,
}

impl Closes {
    fn new() -> Self
        ensures { KnowsCloses result [] }
    {
        Closes {
            queues: [false; 256],
            gates: [false; 256],
            core: false,
            returning: false,
        }
    }

    /// Reads the next note.
    fn add(&mut self, note: &Note<u64>)
        ensures { (before : Notes ℕ) → KnowsCloses self.old before → KnowsCloses self.new (note.now ∷ before) }
    {
        match *note {
            Note::QueueClosed(queue, _) => self.queues[queue.0 as usize] = true,
            Note::CoreClosed(Mode::Finish) => self.core = true,
            Note::CoreClosed(Mode::Return) => {
                self.core = true;
                self.returning = true;
            }
            Note::Shut(sender, _) => self.gates[sender.0 as usize] = true,
            _ => {}
        }
    }
}

/// Whether the note is a send to this core.
fn is_sent_to(core: CoreNo, note: &Note<u64>) -> bool
    ensures { (before : Notes ℕ) → length (accepted_orders core (note.now ∷ before)) ≡ length (accepted_orders core before) + number_if result }
{
    match *note {
        Note::Sent(name, _) => name.to == core,
        _ => false,
    }
}

/// How many orders to this core were accepted.
fn sent_count(core: CoreNo, journal: &Journal<u64>) -> usize
    ensures { result ≡ length (accepted_orders core journal.now.notes) }
{
    let mut count = 0;
    for place in 0..journal.len() {
        let note = note_at(journal, place);
        if is_sent_to(core, &note) {
            count += 1;
        }
    }
    count
}

/// Whether the gate of this sender is shut at the right count.
fn is_final_count(assembly: &Assembly, core: CoreNo, sender: ActorNo, count: u64) -> bool
    ensures right { IsTrue result → count ≡ length (accepted_orders core (journal_of sender assembly.now)) }
    ensures only { count ≡ length (accepted_orders core (journal_of sender assembly.now)) → IsTrue result }
{
    if sender.0 > assembly.cores() {
        return count == 0;
    }
    count == sent_count(core, assembly.journal(sender)) as u64
}

/// Whether a note keeps to what was closed before it.
fn respects_closes(assembly: &Assembly, core: CoreNo, closes: &Closes, note: &Note<u64>) -> bool
    ensures right { (before : Notes ℕ) → KnowsCloses closes.now before → IsTrue result → RespectsCloses assembly.now core note.now before }
    ensures only { (before : Notes ℕ) → KnowsCloses closes.now before → RespectsCloses assembly.now core note.now before → IsTrue result }
{
    match *note {
        Note::Took(_, queue) => !closes.queues[queue.0 as usize] && !closes.returning,
        Note::Created(_, _) => !closes.core,
        Note::Shut(sender, count) => {
            closes.core
                && !closes.gates[sender.0 as usize]
                && is_final_count(assembly, core, sender, count)
        }
        _ => true,
    }
}

/// The line of the first note that doesn't keep to what was closed before it.
pub fn closes_fault(assembly: &Assembly, core: CoreNo) -> Option<usize>
    requires { core < assembly.now.cores }
    ensures kept { result ≡ None → EachNote (RespectsCloses assembly.now core) (journal_of core assembly.now) }
    ensures named { IfSome result (IsFirstFault (RespectsCloses assembly.now core) (journal_of core assembly.now)) }
{
    let journal = assembly.journal(ActorNo(core.0));
    let mut closes = Closes::new();
    for place in 0..journal.len() {
        let note = note_at(journal, place);
        if !respects_closes(assembly, core, &closes, &note) {
            return Some(place + 1);
        }
        closes.add(&note);
    }
    None
}
