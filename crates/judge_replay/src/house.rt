//! A house of which all journals are read, and which writes them anew.
//!
//! Each note makes the call of which it tells, of its actor alone; the links between the actors do the rest. So a note may be read as soon as what it
//! took or collected was sent or given, whatever else was read. A gate is shut behind all sends that it counts: they are read before.

ghost use Rattle.std.specs.Prelude.{◌≡◌, ◌≢◌, ℕ, [], ◌+◌, ◌*◌, ◌<◌, ◌≤◌, true, All, IfOk, map};
ghost use Rattle.base_words.specs.Assembly.{Assembly};
ghost use Rattle.base_words.specs.Sound.{IsSound};
ghost use Rattle.run_team.specs.Works.{Together};
ghost use Rattle.judge_replay.specs.Houses.{HasRead, IsEndOf, IsFresh, OpensReplay, read_at};
ghost use Rattle.judge_replay.specs.Reads.{Reads};

use crate::ahead::Replayed;
use crate::cores::CoreReplay;
use crate::laws::read_is_sound;
use crate::outside::OutsideReplay;
use base_words::{ActorNo, Note};
use host_core::{HostJob, Hosted};
use host_house::{HostedHouse, OpenError, open_dense};
use link_ring::{Ends, reunite_all};
use std::alloc::{AllocError, Global};
use std::marker::Model;

/// How many notes a journal of the house keeps, beside as many as a link has places.
const ROOM: u32 = 1024;

/// As many actors as there may be.
const ACTORS: usize = 17;

/// As many as there may be senders and cores.
const SENDS: usize = ACTORS * 16;

/// The cores and the outside actor of a house, and what was read of each.
#[derive(Drop)]
pub struct Replay {
    count: u8,
    cap: u16,
    burst: u8,
    cores: Vec<CoreReplay>,
    outside: OutsideReplay,
    /// The number of the last send that was read, by sender and core.
    sent: Vec<u64>,
    /// How many notes were read, by actor.
    counts: Vec<u64>,
    /// 1 where the last of them is a pick, by actor, else 0.
    picks: Vec<u64>,
}

impl Model for Replay {
    ghost use Rattle.judge_replay.specs.Houses.{HouseRead, IsHouse};

    ghost Value = { HouseRead };

    ghost view = { λ r. record { count = r.count; cap = r.cap; burst = r.burst; cores = r.cores.items; outside = r.outside } };

    ghost invariant = { λ r. IsHouse (record { count = r.count; cap = r.cap; burst = r.burst; cores = r.cores.items; outside = r.outside }) };
}

/// The place of the last send of a sender to a core.
fn place(sender: ActorNo, core: u8) -> usize
    ensures { result ≡ 16 * sender + core }
{
    16 * sender.0 as usize + core as usize
}

/// The number at this place, 0 if there is none.
fn number_at(numbers: &[u64], place: usize) -> u64 {
    match numbers.get(place) {
        Some(number) => *number,
        None => 0,
    }
}

fn is_pick(note: &Note<u64>) -> bool {
    match note {
        Note::Pick(..) => true,
        _ => false,
    }
}

/// The cores of a house that was just opened, of which nothing was read.
fn unread(alloc: Global, cores: Vec<Hosted>) -> Result<Vec<CoreReplay>, AllocError>
    requires { All (λ hosted. hosted.recorded.journal.passed ≡ []) cores.items }
    ensures { IfOk result (λ made. Together IsFresh cores.items made.items) }
{
    let mut made = Vec::with_capacity(alloc, cores.len())?;
    for hosted in cores {
        made.push_reserved(CoreReplay::of(hosted));
    }
    Ok(made)
}

/// Whether all that these cores wrote was read, and none has a turn open; and their ends.
fn end_all(alloc: Global, cores: Vec<CoreReplay>) -> Result<(bool, Vec<Ends<HostJob>>), AllocError>
    ensures { IfOk result (λ ended. Together (IsEndOf ended.0) cores.items ended.1.items) }
{
    let mut whole = true;
    let mut all = Vec::with_capacity(alloc, cores.len().saturating_add(1))?;
    for core in cores {
        let (is_whole, ends) = core.end();
        whole &= is_whole;
        all.push_reserved(ends);
    }
    Ok((whole, all))
}

impl Replay {
    /// A house of so many cores, with so many places for submissions on each link and turns of so many polls, of which nothing was read.
    ///
    /// # Errors
    ///
    /// `BadConfig` for a number that is out of its range, else `Memory`.
    pub fn open(alloc: Global, cores: u8, cap: u16, burst: u8) -> Result<Self, OpenError>
        ensures { OpensReplay cores cap burst result }
    {
        let HostedHouse {
            cores: opened,
            outside,
        } = open_dense(alloc, cores, cap, burst, ROOM + u32::from(cap))?;
        let (Ok(made), Ok(sent)) = (unread(alloc, opened), Vec::from_elem(alloc, 0, SENDS)) else {
            return Err(OpenError::Memory);
        };
        let (Ok(counts), Ok(picks)) = (
            Vec::from_elem(alloc, 0, ACTORS),
            Vec::from_elem(alloc, 0, ACTORS),
        ) else {
            return Err(OpenError::Memory);
        };
        Ok(Replay {
            count: cores,
            cap,
            burst,
            cores: made,
            outside: OutsideReplay::of(outside),
            sent,
            counts,
            picks,
        })
    }

    /// Whether sends have to be read before this note: a gate is shut behind all that were accepted.
    fn waits_for_sends(&self, actor: ActorNo, note: &Note<u64>) -> bool {
        let Note::Shut(sender, count) = note else {
            return false;
        };
        match self.sent.get(place(*sender, actor.0)) {
            Some(sent) => *sent < *count,
            None => false,
        }
    }

    /// How many notes of each actor were read, and one more of this one. A pick that ends those of another is left out: it is sound once it is
    /// followed.
    pub(crate) fn counts_with(self, actor: u8) -> Vec<u64> {
        let Replay {
            mut counts,
            picks,
            ..
        } = self;
        for place in 0..counts.len() {
            counts[place] = if place == usize::from(actor) {
                counts[place].saturating_add(1)
            } else {
                counts[place].saturating_sub(number_at(&picks, place))
            };
        }
        counts
    }

    /// Counts a note that was read.
    fn count_note(&mut self, actor: ActorNo, note: &Note<u64>)
        ensures { self.new ≡ self.old }
    {
        let place = usize::from(actor.0);
        if place < self.counts.len() && place < self.picks.len() {
            self.counts[place] = self.counts[place].saturating_add(1);
            self.picks[place] = u64::from(is_pick(note));
        }
    }

    /// Counts a send that was read.
    fn count_send(&mut self, actor: ActorNo, note: &Note<u64>)
        ensures { self.new ≡ self.old }
    {
        if let Note::Sent(name, _) = note {
            let place = place(actor, name.to.0);
            if place < self.sent.len() {
                self.sent[place] = name.number;
            }
        }
    }

    /// Reads the next note of a core.
    fn read_core(&mut self, core: u8, note: &Note<u64>) -> Replayed
        requires known { core < self.old.count }
        ensures reads { Reads note.now (read_at core self.old) result (read_at core self.new) }
        ensures others { (other : ℕ) → other ≢ core → read_at other self.new ≡ read_at other self.old }
        ensures numbers { self.new ≡ record self.old { cores = self.new.cores; outside = self.new.outside } }
    {
        self.cores[core as usize].read(note)
    }

    /// Reads the next note of the outside actor.
    fn read_outside(&mut self, note: &Note<u64>) -> Replayed
        ensures reads { Reads note.now (read_at self.old.count self.old) result (read_at self.old.count self.new) }
        ensures others { (other : ℕ) → other ≢ self.old.count → read_at other self.new ≡ read_at other self.old }
        ensures numbers { self.new ≡ record self.old { cores = self.new.cores; outside = self.new.outside } }
    {
        self.outside.read(note)
    }

    /// Reads the next note of an actor, whatever it asks for.
    fn read_now(&mut self, actor: ActorNo, note: &Note<u64>) -> Replayed
        requires known { actor ≤ self.old.count }
        ensures reads { Reads note.now (read_at actor self.old) result (read_at actor self.new) }
        ensures others { (other : ℕ) → other ≢ actor → read_at other self.new ≡ read_at other self.old }
        ensures numbers { self.new ≡ record self.old { cores = self.new.cores; outside = self.new.outside } }
    {
        if actor.0 < self.count {
            self.read_core(actor.0, note)
        } else {
            self.read_outside(note)
        }
    }

    /// Reads the next note of an actor.
    pub fn read(&mut self, actor: ActorNo, note: &Note<u64>) -> Replayed
        requires known { actor ≤ self.old.count }
        ensures reads { Reads note.now (read_at actor self.old) result (read_at actor self.new) }
        ensures others { (other : ℕ) → other ≢ actor → read_at other self.new ≡ read_at other self.old }
        ensures numbers { self.new ≡ record self.old { cores = self.new.cores; outside = self.new.outside } }
    {
        if self.waits_for_sends(actor, note) {
            return Replayed::Waits;
        }
        let told = self.read_now(actor, note);
        if told == Replayed::Taken {
            self.count_note(actor, note);
            self.count_send(actor, note);
        }
        told
    }

    /// Whether the journals that were read are sound, as far as that can be told: if not, an audit tells.
    ///
    /// # Errors
    ///
    /// If there is no memory.
    pub fn is_sound(self, alloc: Global) -> Result<bool, AllocError>
        ensures { IfOk result (λ sound. sound ≡ true → (assembly : Assembly ℕ) → HasRead self assembly → IsSound assembly) }
    {
        let Replay {
            count,
            cores,
            outside,
            ..
        } = self;
        let (whole, mut all) = end_all(alloc, cores)?;
        let (told, last) = outside.end();
        all.push(last)?;
        reunite_all(all, count);
        read_is_sound();
        Ok(whole && told)
    }
}
