//! How the outside actor hands on the notes that its journal keeps.

ghost use Rattle.std.specs.Prelude.{◌≡◌};
ghost use Rattle.note_journal.specs.Journals.{passed_all};
ghost use Rattle.host_text.specs.Parts.{PassesPart};

use actor_seat::OutsideSeat;
use base_words::ActorNo;
use host_core::HostJob;
use host_text::{PassError, copy_kept};
use note_journal::Discard;
use std::alloc::Global;

/// Hands on the text of the notes that the journal keeps, and forgets them.
pub(crate) fn hand_on(
    alloc: Global,
    number: ActorNo,
    seat: &mut OutsideSeat<HostJob>,
    passed: &mut Discard,
    bytes: &mut [u8],
) -> Result<u64, PassError>
    requires { passed.old ≡ seat.old.desk.journal.passed }
    ensures parts { PassesPart number seat.old.desk.journal bytes.old result bytes.new seat.new.desk.journal }
    ensures rest { seat.new ≡ record seat.old { desk = record seat.old.desk { journal = seat.new.desk.journal } } }
    ensures has { passed.new ≡ seat.new.desk.journal.passed }
{
    let count = copy_kept(alloc, number, seat.journal(), bytes)?;
    forget(seat, passed);
    Ok(count)
}

/// Passes on all notes that the journal keeps, to a sink that keeps none.
pub(crate) fn forget(seat: &mut OutsideSeat<HostJob>, passed: &mut Discard)
    requires { passed.old ≡ seat.old.desk.journal.passed }
    ensures rest { seat.new ≡ record seat.old { desk = record seat.old.desk { journal = passed_all seat.old.desk.journal } } }
    ensures has { passed.new ≡ seat.new.desk.journal.passed }
{
    let Ok(()) = seat.pass_on(passed) else {
        unreachable!()
    };
}
