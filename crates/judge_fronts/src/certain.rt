//! Whether what a rule asks of other journals at a note is told.

ghost use Rattle.std.specs.Prelude.{◌-◌, ◌≤◌, IsTrue, length};
ghost use Rattle.base_words.specs.Assembly.{journal_of};
ghost use Rattle.base_words.specs.Filters.{accepted_orders, given_outcomes, collected_outcomes};
ghost use Rattle.base_words.specs.Journal.{at_place};
ghost use Rattle.base_words.specs.declared.note.Note.TheVariants.{Start, Resume, Shut};
ghost use Rattle.judge_fronts.specs.Certain.{StartsTold, DeliveryTold, CollectionTold, OrderTold, ClosesTold, IsTold};

use crate::counts::{Side, count_all, count_told};
use crate::gates::is_wrong_shut;
use crate::past::{is_wrong_resume, is_wrong_start};
use crate::told::{has_order, has_outcome};
use base_words::{ActorNo, CoreNo, JobId, Note};
use note_journal::Assembly;

/// Whether the order of the job is told, or it may not start behind the notes before this place.
fn is_start_told(assembly: &Assembly, core: ActorNo, before: usize, name: &JobId) -> bool
    requires here { core ≤ assembly.now.cores }
    requires within { before ≤ length (journal_of core assembly.now) }
    ensures right { IsTrue result → StartsTold assembly.now (Start name.now) (at_place before (journal_of core assembly.now)) }
    ensures only { StartsTold assembly.now (Start name.now) (at_place before (journal_of core assembly.now)) → IsTrue result }
{
    if has_order(assembly, name) {
        return true;
    }
    is_wrong_start(assembly.journal(core), before, name)
}

/// Whether the order of the job is told, or it may not resume behind the notes before this place.
fn is_resume_told(assembly: &Assembly, core: ActorNo, before: usize, name: &JobId) -> bool
    requires here { core ≤ assembly.now.cores }
    requires within { before ≤ length (journal_of core assembly.now) }
    ensures right { IsTrue result → StartsTold assembly.now (Resume name.now) (at_place before (journal_of core assembly.now)) }
    ensures only { StartsTold assembly.now (Resume name.now) (at_place before (journal_of core assembly.now)) → IsTrue result }
{
    if has_order(assembly, name) {
        return true;
    }
    is_wrong_resume(assembly.journal(core), before, name)
}

fn starts_told(assembly: &Assembly, core: ActorNo, before: usize, note: &Note<u64>) -> bool
    requires here { core ≤ assembly.now.cores }
    requires within { before ≤ length (journal_of core assembly.now) }
    ensures right { IsTrue result → StartsTold assembly.now note.now (at_place before (journal_of core assembly.now)) }
    ensures only { StartsTold assembly.now note.now (at_place before (journal_of core assembly.now)) → IsTrue result }
{
    match *note {
        Note::Start(name) => is_start_told(assembly, core, before, &name),
        Note::Resume(name) => is_resume_told(assembly, core, before, &name),
        _ => false,
    }
}

/// Whether this sender has sent so many orders to this core.
fn are_sent(assembly: &Assembly, core: ActorNo, sender: ActorNo, count: usize) -> bool
    ensures right { IsTrue result → count ≤ length (accepted_orders core (journal_of sender assembly.now)) }
    ensures only { count ≤ length (accepted_orders core (journal_of sender assembly.now)) → IsTrue result }
{
    if sender.0 > assembly.cores() {
        return count == 0;
    }
    count <= count_all(&Side::Sent(CoreNo(core.0)), assembly.journal(sender))
}

/// Whether the place of this name among the deliveries of its link is told, or isn't its own.
fn is_delivery_told(assembly: &Assembly, core: ActorNo, line: usize, name: &JobId) -> bool
    requires here { core ≤ assembly.now.cores }
    requires within { line ≤ length (journal_of core assembly.now) }
    ensures right { IsTrue result → DeliveryTold assembly.now core line name.now }
    ensures only { DeliveryTold assembly.now core line name.now → IsTrue result }
{
    let delivered = count_told(&Side::Delivered(name.from), assembly.journal(core), line);
    if name.number != delivered as u64 {
        return true;
    }
    are_sent(assembly, core, name.from, delivered)
}

/// Whether as many outcomes were given as were collected, on the link to this core, up to this line.
fn are_as_many_given(assembly: &Assembly, sender: ActorNo, line: usize, core: CoreNo) -> bool
    requires here { sender ≤ assembly.now.cores }
    requires within { line ≤ length (journal_of sender assembly.now) }
    ensures right { IsTrue result → length (collected_outcomes core (at_place line (journal_of sender assembly.now))) ≤ length (given_outcomes sender (journal_of core assembly.now)) }
    ensures only { length (collected_outcomes core (at_place line (journal_of sender assembly.now))) ≤ length (given_outcomes sender (journal_of core assembly.now)) → IsTrue result }
{
    let collected = count_told(&Side::Collected(core), assembly.journal(sender), line);
    if core.0 > assembly.cores() {
        return collected == 0;
    }
    collected <= count_all(&Side::Given(sender), assembly.journal(ActorNo(core.0)))
}

/// Whether the place of this name among the collections of its link is told.
fn is_collection_told(assembly: &Assembly, sender: ActorNo, line: usize, name: &JobId) -> bool
    requires here { sender ≤ assembly.now.cores }
    requires within { line ≤ length (journal_of sender assembly.now) }
    ensures right { IsTrue result → CollectionTold assembly.now sender line name.now }
    ensures only { CollectionTold assembly.now sender line name.now → IsTrue result }
{
    if has_outcome(assembly, name) {
        return true;
    }
    are_as_many_given(assembly, sender, line, name.to)
}

fn order_told(assembly: &Assembly, actor: ActorNo, line: usize, note: &Note<u64>) -> bool
    requires here { actor ≤ assembly.now.cores }
    requires within { line ≤ length (journal_of actor assembly.now) }
    ensures right { IsTrue result → OrderTold assembly.now actor line note.now }
    ensures only { OrderTold assembly.now actor line note.now → IsTrue result }
{
    match *note {
        Note::Start(_) => true,
        Note::Sent(_, _) => true,
        Note::Took(name, _) => is_delivery_told(assembly, actor, line, &name),
        Note::Back(name, _) => is_delivery_told(assembly, actor, line, &name),
        Note::Answered(name, _) => is_delivery_told(assembly, actor, line, &name),
        Note::Collected(name, _) => is_collection_told(assembly, actor, line, &name),
        _ => false,
    }
}

/// Whether as many orders are told as the gate of this sender is shut at, or it may not be shut behind the notes before this place.
fn is_shut_told(
    assembly: &Assembly,
    core: ActorNo,
    before: usize,
    sender: ActorNo,
    count: u64,
) -> bool
    requires here { core ≤ assembly.now.cores }
    requires within { before ≤ length (journal_of core assembly.now) }
    ensures right { IsTrue result → ClosesTold assembly.now core (Shut sender count) (at_place before (journal_of core assembly.now)) }
    ensures only { ClosesTold assembly.now core (Shut sender count) (at_place before (journal_of core assembly.now)) → IsTrue result }
{
    if are_sent(assembly, core, sender, count as usize) {
        return true;
    }
    is_wrong_shut(assembly.journal(core), before, sender)
}

fn closes_told(assembly: &Assembly, core: ActorNo, before: usize, note: &Note<u64>) -> bool
    requires here { core ≤ assembly.now.cores }
    requires within { before ≤ length (journal_of core assembly.now) }
    ensures right { IsTrue result → ClosesTold assembly.now core note.now (at_place before (journal_of core assembly.now)) }
    ensures only { ClosesTold assembly.now core note.now (at_place before (journal_of core assembly.now)) → IsTrue result }
{
    match *note {
        Note::Took(_, _) => true,
        Note::Created(_, _) => true,
        Note::Shut(sender, count) => is_shut_told(assembly, core, before, sender, count),
        _ => false,
    }
}

/// Whether what this rule, one of the first three, asks of other journals at the note of this line is told.
pub(crate) fn is_told(
    assembly: &Assembly,
    actor: ActorNo,
    line: usize,
    rule: u8,
    note: &Note<u64>,
) -> bool
    requires here { actor ≤ assembly.now.cores }
    requires some { 1 ≤ line }
    requires within { line ≤ length (journal_of actor assembly.now) }
    ensures right { IsTrue result → IsTold assembly.now actor line rule note.now (at_place (line - 1) (journal_of actor assembly.now)) }
    ensures only { IsTold assembly.now actor line rule note.now (at_place (line - 1) (journal_of actor assembly.now)) → IsTrue result }
{
    match rule {
        1 => starts_told(assembly, actor, line - 1, note),
        2 => order_told(assembly, actor, line, note),
        3 => closes_told(assembly, actor, line - 1, note),
        _ => false,
    }
}
