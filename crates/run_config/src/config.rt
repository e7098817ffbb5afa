//! What a runtime is started with.

ghost use Rattle.std.specs.Prelude.{◌≡◌, ◌<◌, ◌↔◌, ℕ, IsTrue};
ghost use Rattle.run_config.specs.Configs.{AreNumbersGood, IsCoreGood, IsGood, queues_of, strays};

use base_words::{CoreNo, MOST_BURST, MOST_CAPACITY, MOST_CORES, MOST_NOTES, MOST_QUEUES, Shares};

/// How many cores there are, how many submissions may be outstanding on a link, how many polls a turn may have, how many notes a journal
/// has room for, and the queues that there are from the start beside queue 0 of each core.
#[derive(Drop)]
pub struct Config {
    pub cores: u8,
    pub cap: u16,
    /// From 1 to 64. At 1 the journals are of form 1.
    pub burst: u8,
    pub room: u32,
    /// Each is the next queue of its core.
    pub queues: Vec<(CoreNo, Shares)>,
}

// How many queues this core is to have beside queue 0.
#[tactic(auto, using(crate::proofs::Counts::queues_here, crate::proofs::Counts::queues_away, crate::proofs::Counts::queues_none))]
fn count_of(core: u8, queues: &[(CoreNo, Shares)]) -> usize
    ensures { result ≡ queues_of core queues.now }
{
    let mut count = 0;
    for index in 0..queues.len() {
        let of = queues[index].0;
        if of.0 == core {
            count += 1;
        }
    }
    count
}

// How many queues are of no core.
#[tactic(auto, using(crate::proofs::Counts::stray_here, crate::proofs::Counts::stray_away, crate::proofs::Counts::strays_none))]
fn count_strays(cores: u8, queues: &[(CoreNo, Shares)]) -> usize
    ensures { result ≡ strays cores queues.now }
{
    let mut count = 0;
    for index in 0..queues.len() {
        let of = queues[index].0;
        if of.0 >= cores {
            count += 1;
        }
    }
    count
}

fn are_numbers_good(cores: u8, cap: u16, burst: u8, room: u32) -> bool
    ensures { IsTrue result ↔ AreNumbersGood cores cap burst room }
{
    cores > 0
        && cores <= MOST_CORES
        && cap > 0
        && cap <= MOST_CAPACITY
        && burst > 0
        && burst <= MOST_BURST
        && room as usize <= MOST_NOTES
}

fn is_core_good(
    cores: u8,
    cap: u16,
    burst: u8,
    room: u32,
    core: u8,
    queues: &[(CoreNo, Shares)],
) -> bool
    requires { AreNumbersGood cores cap burst room }
    ensures { IsTrue result ↔ IsCoreGood cores cap burst room core queues.now }
{
    let least = 16 * ((cores as usize + 1) * (cap as usize + 1)) + 4 * (burst as usize - 1);
    let count = count_of(core, queues);
    count < MOST_QUEUES && least + count <= room as usize
}

fn are_cores_good(cores: u8, cap: u16, burst: u8, room: u32, queues: &[(CoreNo, Shares)]) -> bool
    requires { AreNumbersGood cores cap burst room }
    ensures { IsTrue result ↔ ((core : ℕ) → core < cores → IsCoreGood cores cap burst room core queues.now) }
{
    for core in 0..cores {
        if !is_core_good(cores, cap, burst, room, core, queues) {
            return false;
        }
    }
    true
}

/// Whether a runtime can be started so, with this many clocks and gates.
pub fn is_good(config: &Config, clocks: usize, gates: usize) -> bool
    ensures { IsTrue result ↔ IsGood config.now.cores config.now.cap config.now.burst config.now.room config.now.queues.items clocks gates }
{
    let cores = config.cores;
    are_numbers_good(cores, config.cap, config.burst, config.room)
        && count_strays(cores, &config.queues) == 0
        && are_cores_good(cores, config.cap, config.burst, config.room, &config.queues)
        && clocks == cores as usize
        && gates == cores as usize
}
