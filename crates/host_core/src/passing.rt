//! How a core hands on the notes that its journal keeps.

ghost use Rattle.std.specs.Prelude.{◌≡◌};
ghost use Rattle.note_journal.specs.Journals.{passed_all};
ghost use Rattle.host_text.specs.Parts.{PassesPart};
ghost use Rattle.actor_seat.specs.Seats.{IsSeated};
ghost use Rattle.host_core.specs.Jobs.{host_meaning};

use crate::job::HostJob;
use actor_seat::Seat;
use base_words::ActorNo;
use host_text::{PassError, copy_kept};
use note_journal::Discard;
use std::alloc::Global;

/// Hands on the text of the notes that the journal keeps, and forgets them.
pub(crate) fn hand_on(
    alloc: Global,
    number: ActorNo,
    seat: &mut Seat<HostJob>,
    passed: &mut Discard,
    bytes: &mut [u8],
) -> Result<u64, PassError>
    requires { passed.old ≡ seat.old.recorded.journal.passed }
    ensures parts { PassesPart number seat.old.recorded.journal bytes.old result bytes.new seat.new.recorded.journal }
    ensures rest { seat.new ≡ record seat.old { recorded = record seat.old.recorded { journal = seat.new.recorded.journal } } }
    ensures has { passed.new ≡ seat.new.recorded.journal.passed }
    ensures seated { IsSeated host_meaning seat.new }
{
    let count = copy_kept(alloc, number, seat.recorded().journal(), bytes)?;
    forget(seat, passed);
    Ok(count)
}

/// Passes on all notes that the journal keeps, to a sink that keeps none.
pub(crate) fn forget(seat: &mut Seat<HostJob>, passed: &mut Discard)
    requires { passed.old ≡ seat.old.recorded.journal.passed }
    ensures rest { seat.new ≡ record seat.old { recorded = record seat.old.recorded { journal = passed_all seat.old.recorded.journal } } }
    ensures has { passed.new ≡ seat.new.recorded.journal.passed }
    ensures seated { IsSeated host_meaning seat.new }
{
    let Ok(()) = seat.pass_on(passed) else {
        unreachable!()
    };
}
