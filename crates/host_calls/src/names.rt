//! The name of a submission, as a struct of C.

ghost use Rattle.std.specs.Prelude.{◌≡◌};
ghost use Rattle.host_calls.specs.Names.{IsTicketOf, name_told};

use base_words::{ActorNo, CoreNo, JobId, Ticket};

/// The name of a submission, as `fx_name` of the header has it.
#[repr(C)]
#[derive(Clone, Copy)]
pub struct Name {
    pub number: u64,
    pub from: u32,
    pub to: u32,
}

/// This name for the host.
pub(crate) fn told(name: JobId) -> Name
    ensures { result ≡ name_told name }
{
    Name {
        number: name.number,
        from: u32::from(name.from.0),
        to: u32::from(name.to.0),
    }
}

/// The ticket of this name, if an actor and a core can have these numbers.
pub(crate) fn ticket(name: &Name) -> Option<Ticket>
    ensures { IsTicketOf name.now result }
{
    let Ok(from) = u8::try_from(name.from) else {
        return None;
    };
    let Ok(to) = u8::try_from(name.to) else {
        return None;
    };
    Some(Ticket::named(JobId {
        from: ActorNo(from),
        to: CoreNo(to),
        number: name.number,
    }))
}
