//! What passes between a core and its links, and how the core ends.

ghost use Rattle.std.specs.Prelude.{◌≡◌};
ghost use Rattle.host_calls.specs.Links.{ClosesTold, DeliversTold, IsTold, ShutsTold, code_of_closed, code_of_found, code_of_shut};
ghost use Rattle.host_calls.specs.Orders.{mode_of_number};

use crate::code::{Code, code_of};
use crate::orders::mode_numbered;
use base_words::ActorNo;
use host_core::{Hosted, Refusal};

/// Delivers the next order of this sender, if one shows.
pub(crate) fn deliver(core: &mut Hosted, sender: u32) -> Code
    ensures { DeliversTold sender core.old result core.new }
{
    let Ok(sender) = u8::try_from(sender) else {
        return Code::NoActor;
    };
    tell_found(core.deliver(ActorNo(sender)))
}

/// The code of a delivery.
fn tell_found(found: Result<bool, Refusal>) -> Code
    ensures { result ≡ code_of_found found }
{
    match found {
        Ok(true) => Code::Ok,
        Ok(false) => Code::Idle,
        Err(refusal) => code_of(refusal),
    }
}

/// Shuts the gate of this sender.
pub(crate) fn shut(core: &mut Hosted, sender: u32) -> Code
    ensures { ShutsTold sender core.old result core.new }
{
    let Ok(sender) = u8::try_from(sender) else {
        return Code::NoActor;
    };
    tell_shut(core.shut(ActorNo(sender)))
}

/// The code of a call that answers nothing else.
pub(crate) fn tell_shut(shut: Result<(), Refusal>) -> Code
    ensures { result ≡ code_of_shut shut }
{
    match shut {
        Ok(()) => Code::Ok,
        Err(refusal) => code_of(refusal),
    }
}

/// Closes the core by itself, by the number of a mode.
pub(crate) fn close(core: &mut Hosted, mode: u32) -> Code
    ensures { ClosesTold (mode_of_number mode) core.old result core.new }
{
    let Some(mode) = mode_numbered(mode) else {
        return Code::BadNumber;
    };
    tell_closed(core.close(mode))
}

/// The code of a closing.
fn tell_closed(closed: Result<bool, Refusal>) -> Code
    ensures { result ≡ code_of_closed closed }
{
    match closed {
        Ok(true) => Code::Ok,
        Ok(false) => Code::CoreClosed,
        Err(refusal) => code_of(refusal),
    }
}

/// Whether the core is drained.
pub(crate) fn drained(core: &Hosted) -> Code
    ensures { IsTold core.now result }
{
    if core.is_drained() {
        Code::Ok
    } else {
        Code::NotDrained
    }
}
