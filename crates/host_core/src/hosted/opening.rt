//! How a core of a host is opened, and given up.

ghost use Rattle.std.specs.Prelude.{◌≡◌, ◌↔◌, [], true, false, IfErr, IfOk, IsTrue};
ghost use Rattle.base_words.specs.Closing.{IsDrained};
ghost use Rattle.base_words.specs.Commands.{IsOpening};
ghost use Rattle.actor_core.specs.Ends.{IsSameSeat};
ghost use Rattle.actor_core.specs.Steps.{CreatesQueue};
ghost use Rattle.actor_seat.specs.Opening.{AreEndsOf, IsOpenedOver};
ghost use Rattle.host_core.specs.Hosted.{IsAtRest, IsHosted, MayCreate};

use super::Hosted;
use crate::job::HostJob;
use actor_core::{Recorded, RunningJournal};
use actor_seat::Seat;
use base_words::{CoreNo, QueueNo, Shares};
use core_queues::CreateError;
use link_ring::Ends;
use note_journal::Discard;
use std::alloc::{AllocError, Global};

impl Hosted {
    /// Opens the core that has these ends, with queue 0 alone. It writes to the memory of all notes, so that no turn is the first to touch a page of them.
    pub fn open(
        alloc: Global,
        ends: Ends<HostJob>,
        cores: u8,
        cap: u16,
        burst: u8,
        room: u32,
    ) -> Result<Self, AllocError>
        requires { AreEndsOf cores cap ends }
        ensures { IfOk result (λ hosted. IsOpenedOver cores cap burst room ends hosted) }
    {
        let number = ends.number;
        let core = CoreNo(number.0);
        let mut recorded = Recorded::open_burst(alloc, alloc, core, cores, cap, burst, room)?;
        recorded.prefault();
        Ok(Hosted {
            cores,
            seat: Seat::of(recorded, ends),
            run: None,
            passed: Discard::new(),
        })
    }

    /// Whether nothing was done but queues made at the opening, and all their notes are kept.
    fn is_opening(&self) -> bool
        ensures yes { result ≡ true → (self.now.recorded.journal.passed ≡ []) × IsOpening self.now.recorded.journal.notes }
        ensures no { result ≡ false → self.now.recorded.journal.passed ≡ [] → IsOpening self.now.recorded.journal.notes → ⊥ }
    {
        if self.has_passed() {
            return false;
        }
        let noted = self.seat.recorded().journal().kept_count();
        noted == usize::from(self.queue_count()) - 1
    }

    /// Whether nothing was done but queues made at the opening, and there is room for the note of one more.
    pub fn may_create(&self) -> bool
        ensures { IsTrue result ↔ MayCreate self.now.recorded }
    {
        self.is_opening() && self.has_room(1)
    }

    /// Makes a queue before anything else is done.
    ///
    /// # Errors
    ///
    /// `TooMany` where the core has 256 queues; otherwise `Memory`. Nothing changes.
    pub fn create(&mut self, shares: Shares) -> Result<QueueNo, CreateError>
        requires { MayCreate self.old.recorded }
        ensures creates { CreatesQueue shares self.old.recorded result self.new.recorded }
        ensures same { self.new.ends ≡ self.old.ends }
        ensures seat { IsSameSeat self.old.recorded self.new.recorded }
        ensures hosted { IsHosted self.new }
    {
        self.seat.create(shares)
    }

    /// The ends of this core, which is given up with its notes.
    pub fn into_ends(self) -> Ends<HostJob>
        ensures ends { result ≡ self.ends }
        ensures hosted { IsHosted self }
    {
        let Hosted { seat, .. } = self;
        let (_recorded, ends) = seat.into_parts();
        ends
    }

    /// The notes of this core and its ends, which are given up.
    ///
    /// # Errors
    ///
    /// The core comes back if it isn't drained.
    pub fn end(self) -> Result<(RunningJournal<u64>, Ends<HostJob>), Self>
        ensures ended { IfOk result (λ parts. (parts.0 ≡ self.recorded.journal) × (parts.1 ≡ self.ends)) }
        ensures drained { IfOk result (λ _. IsAtRest self.recorded × IsDrained self.recorded.core.cores self.recorded.journal.notes) }
        ensures refused { IfErr result (λ same. (same ≡ self) × (IsAtRest self.recorded × IsDrained self.recorded.core.cores self.recorded.journal.notes → ⊥)) }
    {
        if !self.is_drained() {
            return Err(self);
        }
        let Hosted { seat, .. } = self;
        let (recorded, ends) = seat.into_parts();
        Ok((recorded.into_journal(), ends))
    }
}
