//! How a world opens, and the queues that it opens with.

ghost use Rattle.std.specs.Prelude.{◌≡◌, ◌↔◌, ◌+◌, ◌*◌, ◌<◌, length, IsTrue};
ghost use Rattle.model_world.specs.State.{journal_at};
ghost use Rattle.model_world.specs.Opening.{IsConfig, IsUnbegun, Opens, CreatesAtOpening};

use super::{World, WorldError};
use crate::closed::Closed;
use crate::cores::open_cores;
use crate::links::Links;
use actor_core::RecordedDesk;
use base_jobs::Task;
use base_words::{
    ActorNo, CoreNo, MOST_BURST, MOST_CAPACITY, MOST_CORES, MOST_NOTES, QueueNo, Shares,
};
use core_queues::CreateError;
use std::alloc::{Allocator, Global};

// Whether a world may have these numbers.
fn is_config(cores: u8, cap: u16, burst: u8, room: u32) -> bool
    ensures { IsTrue result ↔ IsConfig cores cap burst room }
{
    cores >= 1
        && cores <= MOST_CORES
        && cap >= 1
        && cap <= MOST_CAPACITY
        && burst >= 1
        && burst <= MOST_BURST
        && room as usize <= MOST_NOTES
}

impl<J: Task<Out = u64>, A: Allocator + Clone> World<J, A> {
    /// Opens a world of `cores` cores (1 to `MOST_CORES`) with queue 0 alone, links of capacity `cap` (1 to `MOST_CAPACITY`), and
    /// journals of `room` notes (at most `MOST_NOTES`). A turn is a single poll. Cores take their memory from `core_alloc`, all else
    /// from `alloc`.
    ///
    /// # Errors
    ///
    /// `BadConfig` exactly where a number is out of its range, else `Memory` where there isn't enough.
    pub fn try_new(
        alloc: Global,
        core_alloc: A,
        cores: u8,
        cap: u16,
        room: u32,
    ) -> Result<Self, WorldError>
        ensures { Opens cores cap 1 room result }
    {
        Self::try_new_burst(alloc, core_alloc, cores, cap, 1, room)
    }

    /// The same, where a turn may have up to `burst` polls (1 to `MOST_BURST`). With a burst of 1 it is `try_new`.
    ///
    /// # Errors
    ///
    /// `BadConfig` exactly where a number is out of its range, else `Memory` where there isn't enough.
    pub fn try_new_burst(
        alloc: Global,
        core_alloc: A,
        cores: u8,
        cap: u16,
        burst: u8,
        room: u32,
    ) -> Result<Self, WorldError>
        ensures { Opens cores cap burst room result }
    {
        if !is_config(cores, cap, burst, room) {
            return Err(WorldError::BadConfig);
        }
        let links = Links::open(alloc, cores, cap)?;
        let gathered = Vec::with_capacity(alloc, cores as usize + 1)?;
        let outside = RecordedDesk::open_burst(alloc, ActorNo(cores), cores, cap, burst, room)?;
        let inside = open_cores(alloc, core_alloc, cores, cap, burst, room)?;
        Ok(World {
            cores,
            cap,
            burst,
            room,
            inside: Closed::of(inside),
            outside,
            links,
            gathered: Closed::of(gathered),
        })
    }

    /// Makes a queue of the core under the next number, before the first event.
    ///
    /// # Errors
    ///
    /// `TooMany` exactly where the core has `MOST_QUEUES` queues, else `Memory` where there isn't enough. Nothing changes then.
    pub fn create(&mut self, core: CoreNo, shares: Shares) -> Result<QueueNo, CreateError>
        requires core { core < self.old.cores }
        requires unbegun { IsUnbegun self.old }
        requires room { length (journal_at core self.old) < self.old.room }
        ensures { CreatesAtOpening core shares self.old result self.new }
    {
        self.inside[core.0 as usize].create(shares)
    }
}
