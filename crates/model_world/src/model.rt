//! The cores of one executor as one value, moved by events.

ghost use Rattle.std.specs.Prelude.{◌≡◌, ◌≤◌, ◌<◌, []};
ghost use Rattle.base_words.specs.Joining.{AreJoined};
ghost use Rattle.base_words.specs.Sound.{IsSound};
ghost use Rattle.actor_core.specs.Recorded.{IsRecorded};
ghost use Rattle.model_world.specs.State.{journal_at, assembly_of};

use crate::closed::Closed;
use crate::links::Links;
use actor_core::{Recorded, RecordedDesk};
use base_jobs::Task;
use base_words::{ActorNo, CoreNo};
use note_journal::{Assembly, Journal};
use std::alloc::{AllocError, Allocator, Global};
use std::marker::Model;

mod acts;
mod closings;
mod events;
mod opening;
mod receipts;
mod sound;
mod stats;
mod steps;
mod tickets;

/// The cores of one executor, the links between all actors, and a journal for each actor.
///
/// A contract sees the journals, and the orders that each link has accepted.
#[derive(Drop)]
pub struct World<J: Task<Out = u64>, A: Allocator + Clone = Global> {
    cores: u8,
    cap: u16,
    burst: u8,
    room: u32,
    /// The cores by number, each beside its journal.
    inside: Closed<Recorded<J, A>>,
    outside: RecordedDesk<J>,
    links: Links<J>,
    /// Without a journal. It has the memory for those that a run ends with.
    gathered: Closed<Journal<u64>>,
}

impl<J: Task<Out = u64>, A: Allocator + Clone> Model for World<J, A> {
    ghost use Rattle.std.specs.Prelude.{ℕ};
    ghost use Rattle.model_world.specs.State.{WorldView};

    ghost Value = { WorldView J ℕ };

    ghost use Rattle.std.specs.Prelude.{◌+◌};
    ghost use Rattle.model_world.specs.Inside.{world_of, IsWorld, IsAtRest, HasRoomFor};
    ghost use Rattle.model_world.specs.Opening.{IsConfig};

    ghost view = { λ w. world_of (record { cores = w.cores; cap = w.cap; burst = w.burst; room = w.room; inside = w.inside.items; outside = w.outside; links = w.links }) };

    ghost invariant = { λ w.
        IsConfig w.cores w.cap w.burst w.room
        × IsWorld J.meaning
        (record { cores = w.cores; cap = w.cap; burst = w.burst; room = w.room; inside = w.inside.items; outside = w.outside; links = w.links })
        × HasRoomFor (w.cores + 1) w.gathered.items w.gathered.cap
        × IsAtRest (record { cores = w.cores; cap = w.cap; burst = w.burst; room = w.room; inside = w.inside.items; outside = w.outside; links = w.links }) };
}

/// Why a world can't be opened.
#[derive(Clone, Copy, PartialEq, Eq, Debug, thiserror::Error)]
pub enum WorldError {
    /// There is no core, no place in a link, or no poll in a turn; or more cores, places, polls or notes are asked for than the limits
    /// of base_words allow.
    #[error("cores, capacity, burst or room out of range")]
    BadConfig,
    /// There is no memory for all of it.
    #[error("out of memory")]
    Memory,
}

impl From<AllocError> for WorldError {
    ghost use Rattle.std.specs.Prelude.{◌≡◌};
    ghost use Rattle.model_world.specs.declared.model.WorldError.{WorldError};

    ghost from_gives = { λ _ error. error ≡ WorldError.Memory };

    fn from(_error: AllocError) -> Self {
        WorldError::Memory
    }
}

impl<J: Task<Out = u64>, A: Allocator + Clone> World<J, A> {
    // The journals alone, which are sound together.
    fn into_assembly(self) -> Assembly
        ensures value { result ≡ assembly_of self }
        ensures sound { IsSound result }
        ensures joined { AreJoined result }
    {
        let mut gathered = self.gathered.opened();
        let inside = self.inside.opened();
        for core in inside {
            gathered.push_reserved(core.into_journal().into_kept());
        }
        gathered.push_reserved(self.outside.into_journal().into_kept());
        Assembly::of_burst(self.cores, self.cap, self.burst, gathered)
    }

    // The core of this number, beside its journal.
    fn recorded(&self, core: CoreNo) -> &Recorded<J, A>
        requires { core < self.now.cores }
        ensures number { result.now.core.core ≡ core }
        ensures cores { result.now.core.cores ≡ self.now.cores }
        ensures burst { result.now.core.bursts.burst ≡ self.now.burst }
        ensures notes { result.now.journal.notes ≡ journal_at core self.now }
        ensures room { result.now.journal.room ≡ self.now.room }
        ensures whole { result.now.journal.passed ≡ [] }
        ensures sound { IsRecorded J.meaning result.now }
    {
        &self.inside[core.0 as usize]
    }

    /// How many cores there are. The outside actor has the number behind them.
    pub fn cores(&self) -> u8
        ensures { result ≡ self.now.cores }
    {
        self.cores
    }

    /// How many polls a turn may have.
    pub fn burst(&self) -> u8
        ensures { result ≡ self.now.burst }
    {
        self.burst
    }

    /// The notes of one actor, and the room that they have.
    pub fn journal(&self, actor: ActorNo) -> &Journal<u64>
        requires { actor ≤ self.now.cores }
        ensures notes { result.now.notes ≡ journal_at actor self.now }
        ensures room { result.now.room ≡ self.now.room }
    {
        if actor.0 < self.cores {
            self.recorded(CoreNo(actor.0)).journal().kept()
        } else {
            self.outside.journal().kept()
        }
    }
}
