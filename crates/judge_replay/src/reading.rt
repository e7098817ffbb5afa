//! Journals are read side by side, each as far as the others let it.
//!
//! A note waits where it tells of an order or an outcome that no other journal told yet. Then the next actor is read on. After each round over
//! all actors the teller says whether to read on: it alone knows whether more may come. Where nothing does, and no actor went on, nothing would
//! change: so either all journals have ended, or they are not what a house writes.

ghost use Rattle.std.specs.Prelude.{◌≡◌, ◌≢◌, ℕ, ◌≤◌, [], None, Ok, IfOk, OnErr};
ghost use Rattle.base_words.specs.Assembly.{Assembly};
ghost use Rattle.base_words.specs.Journal.{Journal};
ghost use Rattle.base_words.specs.Sound.{IsSound};
ghost use Rattle.judge_replay.specs.Houses.{HasRead, read_at};
ghost use Rattle.judge_replay.specs.Tellers.{AreRead, HasTold, IfEnded, IsReadOf, ReadsOne, TellsOne, with_next};
ghost use Rattle.judge_replay.specs.declared.reading.Found.TheVariants.{Sound};
ghost use Rattle.judge_replay.specs.declared.reading.Round.TheVariants as rounds;
ghost use Rattle.judge_replay.specs.declared.reading.Went.TheVariants as went;

use crate::ahead::Replayed;
use crate::house::Replay;
use crate::teller::{Teller, Untold};
use base_words::{ActorNo, Note};
use host_house::OpenError;
use std::alloc::Global;

/// Why journals were not read to their end.
#[derive(Drop)]
pub enum ReplayError<E> {
    /// The numbers of the house are out of their range.
    BadConfig,
    /// There is no memory.
    Memory,
    /// A journal can't be told.
    Untold(E),
}

/// How far the journal of an actor was read.
#[derive(Clone, Copy, PartialEq, Eq)]
pub enum Went {
    /// To its end.
    Ended,
    /// To a note that waits for other journals.
    Waits,
    /// To a note that no house writes there.
    Differs,
}

/// What a round over all actors came to.
#[derive(Clone, Copy)]
pub enum Round {
    /// All journals have ended.
    Ended,
    /// Some notes were read, and some are left.
    Went,
    /// No note can be read on.
    Stuck,
    /// The next note of this actor is another one in a house.
    Differs(u8),
}

/// What journals are that were done again.
#[derive(Drop)]
pub enum Found {
    /// They are sound.
    Sound,
    /// A house writes another note than the last one that was read of this actor, where `read` counts those of each. An audit tells what that means.
    Differs { actor: u8, read: Vec<u64> },
    /// They end where a house goes on, or wait for each other. An audit tells what that means.
    Open,
}

/// The note that is tried next: the one that waits, or the next of its journal.
fn next_note<T: Teller>(
    teller: &mut T,
    waiting: &mut Option<Note<u64>>,
    actor: ActorNo,
) -> Result<Option<Note<u64>>, Untold<T::Error>>
    ensures told { IfOk result (λ found. (read : Journal ℕ) → T.told teller.old actor ≡ with_next waiting.old read → T.told teller.new actor ≡ with_next found read) }
    ensures untold { OnErr result ((read : Journal ℕ) → T.told teller.old actor ≡ with_next waiting.old read → T.told teller.new actor ≡ read) }
    ensures ends { result ≡ Ok None → T.ends teller.new actor }
    ensures none { waiting.new ≡ None }
    ensures one { TellsOne T.told T.ends T.from actor teller.old teller.new }
{
    let waits = *waiting;
    *waiting = None;
    match waits {
        Some(note) => Ok(Some(note)),
        None => teller.next(actor),
    }
}

/// Reads the journal of an actor on as far as it goes. How far that is, and whether a note was read.
fn read_on<T: Teller>(
    replay: &mut Replay,
    teller: &mut T,
    waiting: &mut Option<Note<u64>>,
    actor: ActorNo,
) -> Result<(Went, bool), T::Error>
    requires known { actor ≤ replay.old.count }
    requires read { IsReadOf (T.told teller.old) waiting.old replay.old actor }
    ensures read { IfOk result (λ _. IsReadOf (T.told teller.new) waiting.new replay.new actor) }
    ensures over { IfOk result (λ far. far.0 ≡ went.Ended → (waiting.new ≡ None) × T.ends teller.new actor) }
    ensures tells { TellsOne T.told T.ends T.from actor teller.old teller.new }
    ensures reads { ReadsOne actor replay.old replay.new }
{
    let mut some = false;
    for _turn in 0..u64::MAX {
        let note = match next_note(teller, waiting, actor) {
            Ok(Some(note)) => note,
            Ok(None) => return Ok((Went::Ended, some)),
            Err(Untold::Later) => return Ok((Went::Waits, some)),
            Err(Untold::Failed(error)) => return Err(error),
        };
        match replay.read(actor, &note) {
            Replayed::Taken => some = true,
            Replayed::Waits => {
                *waiting = Some(note);
                return Ok((Went::Waits, some));
            }
            Replayed::Differs => {
                *waiting = Some(note);
                return Ok((Went::Differs, some));
            }
        }
    }
    Ok((Went::Waits, some))
}

/// Reads the journal of each actor on as far as it goes.
fn read_round<T: Teller>(
    replay: &mut Replay,
    teller: &mut T,
    waiting: &mut Vec<Option<Note<u64>>>,
    cores: u8,
) -> Result<Round, T::Error>
    requires cores { replay.old.count ≡ cores }
    requires read { AreRead (T.told teller.old) waiting.old.items replay.old }
    ensures read { IfOk result (λ _. AreRead (T.told teller.new) waiting.new.items replay.new) }
    ensures over { IfOk result (λ round. IfEnded round ((actor : ℕ) → actor ≤ cores → (T.told teller.new actor ≡ read_at actor replay.new) × T.ends teller.new actor)) }
    ensures numbers { replay.new ≡ record replay.old { cores = replay.new.cores; outside = replay.new.outside } }
    ensures same { T.from teller.new ≡ T.from teller.old }
{
    let mut some = false;
    let mut ended = true;
    for actor in 0..u16::from(cores) + 1 {
        let (far, went) = read_on(
            replay,
            teller,
            &mut waiting[usize::from(actor)],
            ActorNo(actor as u8),
        )?;
        if far == Went::Differs {
            return Ok(Round::Differs(actor as u8));
        }
        ended &= far == Went::Ended;
        some |= went;
    }
    Ok(match (ended, some) {
        (true, _) => Round::Ended,
        (false, true) => Round::Went,
        (false, false) => Round::Stuck,
    })
}

/// Whether some notes were read in this round.
fn went_on(round: Round) -> bool {
    match round {
        Round::Went => true,
        _ => false,
    }
}

/// What the journals are that are told. If a house writes them, whose links hold at most so many submissions, they are sound.
///
/// # Errors
///
/// `BadConfig` for a number of the house that is out of its range; `Memory`; `Untold` where a journal can't be told.
pub fn replays<T: Teller>(
    alloc: Global,
    cores: u8,
    places: u16,
    burst: u8,
    teller: &mut T,
) -> Result<Found, ReplayError<T::Error>>
    requires { (actor : ℕ) → T.told teller.old actor ≡ [] }
    ensures sound { result ≡ Ok Sound → (assembly : Assembly ℕ) → HasTold cores burst (T.told teller.new) assembly → IsSound assembly }
    ensures whole { result ≡ Ok Sound → (actor : ℕ) → actor ≤ cores → T.ends teller.new actor }
    ensures same { T.from teller.new ≡ T.from teller.old }
{
    let mut replay = match Replay::open(alloc, cores, places, burst) {
        Ok(replay) => replay,
        Err(OpenError::BadConfig) => return Err(ReplayError::BadConfig),
        Err(OpenError::Memory) => return Err(ReplayError::Memory),
    };
    let Ok(mut waiting) = Vec::from_elem(alloc, None, usize::from(cores) + 1) else {
        return Err(ReplayError::Memory);
    };
    for _round in 0..u64::MAX {
        let round = match read_round(&mut replay, teller, &mut waiting, cores) {
            Ok(round) => round,
            Err(error) => return Err(ReplayError::Untold(error)),
        };
        if let Round::Differs(actor) = round {
            let read = replay.counts_with(actor);
            return Ok(Found::Differs { actor, read });
        }
        if !teller.goes_on(went_on(round)) {
            return left(alloc, replay, round);
        }
    }
    Ok(Found::Open)
}

/// What journals are of which nothing more is read, after this round.
fn left<E>(alloc: Global, replay: Replay, round: Round) -> Result<Found, ReplayError<E>>
    ensures sound { result ≡ Ok Sound → (assembly : Assembly ℕ) → HasRead replay assembly → IsSound assembly }
    ensures ended { result ≡ Ok Sound → round ≡ rounds.Ended }
{
    let Round::Ended = round else {
        return Ok(Found::Open);
    };
    match replay.is_sound(alloc) {
        Ok(true) => Ok(Found::Sound),
        Ok(false) => Ok(Found::Open),
        Err(_) => Err(ReplayError::Memory),
    }
}
