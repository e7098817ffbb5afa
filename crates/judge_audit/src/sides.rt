//! The four lists of a link, each told by one of its two actors.

ghost use Rattle.std.specs.Prelude.{◌≡◌};
ghost use Rattle.base_words.specs.Filters.{if_to, if_from, name_delivered};
ghost use Rattle.judge_audit.specs.Sides.{name_told, name_sent, name_given, name_collected};

use base_words::{ActorNo, CoreNo, JobId, Note};

/// A list of names that an actor's notes tell.
#[derive(Clone, Copy)]
pub(crate) enum Side {
    /// What was sent to this core.
    Sent(CoreNo),
    /// What was delivered from this actor.
    Delivered(ActorNo),
    /// What was given to this actor.
    Given(ActorNo),
    /// What was collected of this core.
    Collected(CoreNo),
}

fn if_to(core: CoreNo, name: JobId) -> Option<JobId>
    ensures { result ≡ if_to core name name }
{
    if name.to.0 == core.0 {
        Some(name)
    } else {
        None
    }
}

fn if_from(actor: ActorNo, name: JobId) -> Option<JobId>
    ensures { result ≡ if_from actor name name }
{
    if name.from.0 == actor.0 {
        Some(name)
    } else {
        None
    }
}

fn name_sent(core: CoreNo, note: &Note<u64>) -> Option<JobId>
    ensures { result ≡ name_sent core note.now }
{
    match *note {
        Note::Sent(name, _) => if_to(core, name),
        _ => None,
    }
}

fn name_delivered(actor: ActorNo, note: &Note<u64>) -> Option<JobId>
    ensures { result ≡ name_delivered actor note.now }
{
    match *note {
        Note::Took(name, _) => if_from(actor, name),
        Note::Back(name, _) => if_from(actor, name),
        Note::Answered(name, _) => if_from(actor, name),
        _ => None,
    }
}

fn name_given(actor: ActorNo, note: &Note<u64>) -> Option<JobId>
    ensures { result ≡ name_given actor note.now }
{
    match *note {
        Note::Done(name, _, _) => if_from(actor, name),
        Note::Back(name, _) => if_from(actor, name),
        Note::Returned(name, _) => if_from(actor, name),
        Note::Answered(name, _) => if_from(actor, name),
        _ => None,
    }
}

fn name_collected(core: CoreNo, note: &Note<u64>) -> Option<JobId>
    ensures { result ≡ name_collected core note.now }
{
    match *note {
        Note::Collected(name, _) => if_to(core, name),
        _ => None,
    }
}

/// The name that a note tells of this list.
pub(crate) fn name_told(side: &Side, note: &Note<u64>) -> Option<JobId>
    ensures { result ≡ name_told side.now note.now }
{
    match *side {
        Side::Sent(core) => name_sent(core, note),
        Side::Delivered(actor) => name_delivered(actor, note),
        Side::Given(actor) => name_given(actor, note),
        Side::Collected(core) => name_collected(core, note),
    }
}
