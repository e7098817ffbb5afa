//! Puts the trace of a run.

ghost use Rattle.std.specs.Prelude.{◌≡◌, ◌++◌, OnOk, string_bytes};
ghost use Rattle.fairview_pictures.specs.Traces as spec;

use crate::actors::put_actor;
use crate::times::Times;
use base_words::ActorNo;
use note_journal::Assembly;
use std::alloc::{AllocError, Global};

/// Puts the trace of a run by its journals: a process for each actor with a track for each queue, an event for each poll, and an arrow
/// from where a submission is sent to where it is taken, done and redeemed.
///
/// # Errors
///
/// `AllocError` for want of memory. A first part of the text may then stand on the page.
pub fn put_trace(alloc: Global, assembly: &Assembly, page: &mut String) -> Result<(), AllocError>
    ensures { OnOk result (string_bytes page.new ≡ string_bytes page.old ++ spec.trace_text assembly.now) }
{
    page.push_str(
        "{\"displayTimeUnit\":\"ns\",\"traceEvents\":[\n{\"name\":\"process_sort_index\",\"ph\":\"M\",\"pid\":0,\"args\":{\"sort_index\":0}}",
    )?;
    put_actors(alloc, assembly, page)?;
    page.push_str("\n]}\n")?;
    Ok(())
}

/// Puts the events of all actors.
fn put_actors(alloc: Global, assembly: &Assembly, page: &mut String) -> Result<(), AllocError>
    ensures { OnOk result (string_bytes page.new ≡ string_bytes page.old ++ spec.all_actors_text assembly.now) }
{
    let times = Times::of(assembly);
    for actor in 0..assembly.cores() as u16 + 1 {
        let actor = ActorNo(actor as u8);
        put_actor(alloc, &times, actor, assembly.journal(actor), page)?;
    }
    Ok(())
}
