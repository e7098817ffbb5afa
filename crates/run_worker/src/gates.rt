//! When a journal is short, how a core closes by itself, and how all its gates are shut.

ghost use Rattle.std.specs.Prelude.{◌≡◌, ◌+◌, ◌<◌, ◌≤◌, IsSome, length, true};
ghost use Rattle.base_words.specs.Closing.{core_mode};
ghost use Rattle.run_worker.specs.Asks.{NotesNoPoll};
ghost use Rattle.actor_seat.specs.Linked.{IsLinked, StaysLinked};
ghost use Rattle.run_worker.specs.Gates.{LeavesShut, LeavesUnless, ShutsFirst};
ghost use Rattle.run_worker.specs.Rooms.{ActsAsItMay, ActsByCommand, HasSpare, IsEnding, IsShort, least_free};
ghost use Rattle.run_worker.specs.Rounds.{TellsNotes};
ghost use Rattle.run_worker.specs.Shown.{TellsAlone};

use actor_seat::Seat;
use base_jobs::Task;
use base_words::{ActorNo, Mode};

/// With fewer notes free than this a journal is short: in a house of so many cores, where a link has so many places and a turn so many polls.
pub(crate) fn least_of(cores: u8, cap: u16, burst: u8) -> u32
    ensures { result ≡ least_free cores cap burst }
{
    let places = (cores as u32 + 1) * (cap as u32 + 1);
    let further = (burst as u32).saturating_sub(1);
    8 * places + 2 * further
}

/// Shuts the gate of this sender in a closed core, if it is open. Whether it was.
fn shut_if_open<J: Task<Out = u64>>(seat: &mut Seat<J>, sender: ActorNo) -> bool
    requires known { sender ≤ seat.old.recorded.core.cores }
    requires closed { IsSome (core_mode seat.old.recorded.journal.notes) }
    requires room { length seat.old.recorded.journal.notes < seat.old.recorded.journal.room }
    requires linked { IsLinked J.meaning seat.old }
    ensures leaves { LeavesShut sender seat.old seat.new }
    ensures tells { TellsNotes result seat.old.recorded.journal.notes seat.new.recorded.journal.notes }
    ensures linked { IsLinked J.meaning seat.new }
{
    let shut = seat.recorded().gate(sender).is_some();
    if !shut {
        seat.shut(sender);
    }
    // The end tells how many orders may be without an outcome.
    seat.look_at(sender);
    !shut
}

/// The same, unless this sender is spared.
fn shut_unless<J: Task<Out = u64>>(seat: &mut Seat<J>, sender: ActorNo, spared: usize) -> bool
    requires known { sender ≤ seat.old.recorded.core.cores }
    requires closed { IsSome (core_mode seat.old.recorded.journal.notes) }
    requires room { length seat.old.recorded.journal.notes < seat.old.recorded.journal.room }
    requires linked { IsLinked J.meaning seat.old }
    ensures leaves { LeavesUnless spared sender seat.old seat.new }
    ensures tells { TellsNotes result seat.old.recorded.journal.notes seat.new.recorded.journal.notes }
    ensures linked { IsLinked J.meaning seat.new }
{
    if sender.0 as usize == spared {
        return false;
    }
    shut_if_open(seat, sender)
}

/// Shuts each gate that is open, in a closed core of a house of so many, except that of the sender that is spared. Whether there was one.
pub(crate) fn shut_gates<J: Task<Out = u64>>(seat: &mut Seat<J>, cores: u8, spared: usize) -> bool
    requires closed { IsSome (core_mode seat.old.recorded.journal.notes) }
    requires room { length seat.old.recorded.journal.notes + seat.old.recorded.core.cores + 1 ≤ seat.old.recorded.journal.room }
    requires linked { IsLinked J.meaning seat.old }
    requires cores { cores ≡ seat.old.recorded.core.cores }
    ensures shuts { ShutsFirst spared (seat.old.recorded.core.cores + 1) seat.old seat.new }
    ensures tells { TellsNotes result seat.old.recorded.journal.notes seat.new.recorded.journal.notes }
    ensures linked { IsLinked J.meaning seat.new }
{
    let mut some = false;
    for sender in 0..cores as usize + 1 {
        if shut_unless(seat, ActorNo(sender as u8), spared) {
            some = true;
        }
    }
    some
}

/// Closes the core in mode `Return` and shuts each gate, where the journal is short. Whether it closed by itself.
///
/// Once in a worker's life: it stands apart, so that the look at the room before each step stays short.
#[cold]
#[inline(never)]
pub(crate) fn end<J: Task<Out = u64>>(seat: &mut Seat<J>, cores: u8) -> bool
    requires spare { HasSpare seat.old.recorded }
    requires short { IsShort seat.old.recorded }
    requires acts { ActsByCommand seat.old.recorded.journal.notes }
    requires linked { IsLinked J.meaning seat.old }
    requires cores { cores ≡ seat.old.recorded.core.cores }
    ensures alone { TellsAlone result seat.new.recorded.journal.notes }
    ensures ending { IsEnding seat.new.recorded }
    ensures acts { ActsAsItMay true seat.new.recorded }
    ensures polls { NotesNoPoll seat.old.recorded.journal.notes seat.new.recorded.journal.notes }
    ensures stays { StaysLinked seat.old seat.new }
    ensures linked { IsLinked J.meaning seat.new }
{
    let alone = seat.close(Mode::Return);
    // All of them: no sender has this number.
    shut_gates(seat, cores, cores as usize + 1);
    alone
}
