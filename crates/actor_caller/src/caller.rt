//! The caller of a house: its outside actor, and what it sees of the cores.

ghost use Rattle.std.specs.Prelude.{◌≡◌, false, length};
ghost use Rattle.link_ends.specs.Fits.{Fits};
ghost use Rattle.actor_caller.specs.Closings.{IsFirstOpenOf, TellsOpen};
ghost use Rattle.actor_caller.specs.Stored.{IsHeld, IsRuntime, view_of};
ghost use Rattle.actor_caller.specs.Teams.{IsBeside};
ghost use Rattle.actor_caller.specs.Watching.{AreWatched};

use crate::rings::Rings;
use actor_seat::{Bells, OutsideSeat};
use base_jobs::Task;
use base_sealed::SealedVec;
use base_words::CoreNo;
use note_journal::{Journal, Sink, Whole};
use run_watch::Watcher;
use std::alloc::Global;
use std::marker::Model;

/// What stands beside a caller: the workers of its house. The caller keeps it, and asks nothing of it.
pub trait Beside: Drop {
    ghost use Rattle.std.specs.Prelude.{ℕ};
    ghost use Rattle.actor_caller.specs.Teams.{TeamView};

    /// What its cores run.
    type Job: Task<Out = u64>;

    // What is seen of the workers.
    ghost team: { Self → TeamView Self.Job ℕ };
}

/// The outside actor of a house, in the hands of the caller, who sends on its links, waits for outcomes and watches the cores.
#[derive(Drop)]
pub struct Caller<J: Task<Out = u64>, S: Sink, H: Beside<Job = J>> {
    pub(crate) cores: u8,
    pub(crate) cap: u16,
    pub(crate) room: u32,
    /// The outside actor: its journal, and its end to each core.
    pub(crate) outside: OutsideSeat<J>,
    /// The outside actor's sink, and whether it refused when it was last asked.
    pub(crate) sink: S,
    pub(crate) refused: bool,
    /// The bell of each core.
    pub(crate) bells: Rings<J>,
    /// For each core whether the caller closed it: an order to close it was accepted, or a send to it was answered `Closed`.
    pub(crate) closing: SealedVec<bool, Global>,
    /// The watcher of each core's board.
    pub(crate) watchers: SealedVec<Watcher, Global>,
    pub(crate) house: H,
}

impl<J: Task<Out = u64>, S: Sink, H: Beside<Job = J>> Model for Caller<J, S, H> {
    ghost use Rattle.std.specs.Prelude.{ℕ};
    ghost use Rattle.actor_caller.specs.State.{RuntimeView};

    ghost Value = { RuntimeView J ℕ };

    ghost use Rattle.link_ends.specs.Fits.{Fits};
    ghost use Rattle.actor_caller.specs.Stored.{IsHeld, view_of};
    ghost use Rattle.actor_caller.specs.Watching.{AreWatched};

    ghost view = { λ r. view_of S.asks S.mark r.outside r.closing.items (H.team r.house) r.room r.bells r.refused r.sink r.watchers.items };

    ghost invariant = { λ r.
        AreWatched (H.team r.house) r.watchers.items
        × IsHeld (Fits J.meaning) S.has S.refused (view_of S.asks S.mark r.outside r.closing.items (H.team r.house) r.room r.bells r.refused r.sink r.watchers.items) r.cores r.cap r.sink };
}

/// The first core that the caller didn't close.
fn first_open(cores: u8, closing: &[bool]) -> Option<u8>
    requires { length closing.now ≡ cores }
    ensures { IsFirstOpenOf closing.now result }
{
    for core in 0..cores {
        if !closing[core as usize] {
            return Some(core);
        }
    }
    None
}

impl<J: Task<Out = u64>, S: Sink, H: Beside<Job = J>> Caller<J, S, H> {
    /// A caller that closed nothing yet, whose hands haven't rung these bells.
    pub fn of(
        cores: u8,
        cap: u16,
        room: u32,
        outside: OutsideSeat<J>,
        sink: S,
        bells: Bells,
        closing: Vec<bool>,
        watchers: Vec<Watcher>,
        house: H,
    ) -> Self
        requires watched { AreWatched (H.team house) watchers.items }
        requires held { IsHeld (Fits J.meaning) S.has S.refused (view_of S.asks S.mark outside closing.items (H.team house) room (record { names = bells.names; times = bells.rings; over = outside.ends }) false sink watchers.items) cores cap sink }
        ensures { result ≡ view_of S.asks S.mark outside closing.items (H.team house) room (record { names = bells.names; times = bells.rings; over = outside.ends }) false sink watchers.items }
    {
        let bells = Rings::of(bells, outside.ends());
        Caller {
            cores,
            cap,
            room,
            outside,
            sink,
            refused: false,
            bells,
            closing: SealedVec::sealed(closing),
            watchers: SealedVec::sealed(watchers),
            house,
        }
    }

    /// The outside actor, its sink, what stands beside it, and the watchers.
    pub fn into_parts(self) -> (OutsideSeat<J>, S, H, SealedVec<Watcher, Global>)
        ensures is { view_of S.asks S.mark result.0 self.closing (H.team result.2) self.room self.rung self.refused result.1 result.3.items ≡ self }
        ensures runtime { IsRuntime (Fits J.meaning) (view_of S.asks S.mark result.0 self.closing (H.team result.2) self.room self.rung self.refused result.1 result.3.items) }
        ensures passed { S.has result.1 ≡ result.0.desk.journal.passed }
        ensures watched { AreWatched (H.team result.2) result.3.items }
    {
        let Caller {
            outside,
            sink,
            watchers,
            house,
            ..
        } = self;
        (outside, sink, house, watchers)
    }

    /// What stands beside the caller.
    pub(crate) fn house(&self) -> &H
        ensures { IsBeside (H.team result.now) self.now }
    {
        &self.house
    }

    /// The same caller beside workers that look the same. What stood beside it comes back.
    pub(crate) fn with_house<K: Beside<Job = J>>(self, house: K) -> (Caller<J, S, K>, H)
        requires { IsBeside (K.team house) self }
        ensures same { result.0 ≡ self }
        ensures beside { IsBeside (H.team result.1) self }
    {
        let Caller {
            cores,
            cap,
            room,
            outside,
            sink,
            refused,
            bells,
            closing,
            watchers,
            house: before,
        } = self;
        let caller = Caller {
            cores,
            cap,
            room,
            outside,
            sink,
            refused,
            bells,
            closing,
            watchers,
            house,
        };
        (caller, before)
    }

    /// How many cores the house has.
    pub fn cores(&self) -> u8
        ensures { result ≡ self.now.desk.cores }
    {
        self.cores
    }

    /// The first core that the caller didn't close.
    pub fn first_open(&self) -> Option<CoreNo>
        ensures { TellsOpen self.now result }
    {
        match first_open(self.cores, self.closing.as_slice()) {
            Some(core) => Some(CoreNo(core)),
            None => None,
        }
    }
}

impl<J: Task<Out = u64>, H: Beside<Job = J>> Caller<J, Whole, H> {
    /// The outside actor's journal. It is whole: nothing is passed on of it.
    pub fn journal(&self) -> &Journal<u64>
        ensures { result.now ≡ self.now.desk.journal }
    {
        self.outside.journal().kept()
    }
}
