//! How a house is opened.

ghost use Rattle.std.specs.Prelude.{◌≡◌, ◌↔◌, All, IfOk, IsTrue, map};
ghost use Rattle.run_team.specs.Works.{Together};
ghost use Rattle.actor_seat.specs.Opening.{AreEndsOf, IsOpenedOver};
ghost use Rattle.host_house.specs.Houses.{AreGood, IsOpened, OpensHouse};

use crate::outside::Outside;
use base_words::{MOST_BURST, MOST_CAPACITY, MOST_CORES, MOST_NOTES};
use host_core::{HostJob, Hosted};
use link_board::Spacing;
use link_ring::{Ends, open_spaced};
use std::alloc::{AllocError, Global};
use std::marker::Model;

/// The cores of a house by their numbers, and the outside actor. Each may go to a thread of its own.
#[derive(Drop)]
pub struct HostedHouse {
    pub cores: Vec<Hosted>,
    pub outside: Outside,
}

impl Model for HostedHouse {
    ghost use Rattle.host_house.specs.Houses.{HouseView};

    ghost Value = { HouseView };

    ghost view = { λ house. record { cores = house.cores.items; outside = house.outside } };
}

/// Why no house was opened.
#[derive(Clone, Copy)]
pub enum OpenError {
    /// A number is out of its range.
    BadConfig,
    /// There is no memory.
    Memory,
}

/// Whether the numbers are within the limits of a house.
fn are_good(cores: u8, cap: u16, burst: u8, room: u32) -> bool
    ensures { IsTrue result ↔ AreGood cores cap burst room }
{
    cores > 0
        && cores <= MOST_CORES
        && cap > 0
        && cap <= MOST_CAPACITY
        && burst > 0
        && burst <= MOST_BURST
        && room as usize <= MOST_NOTES
}

/// Opens the core of each of these ends.
fn open_cores(
    alloc: Global,
    all: Vec<Ends<HostJob>>,
    cores: u8,
    cap: u16,
    burst: u8,
    room: u32,
) -> Result<Vec<Hosted>, AllocError>
    requires each { All (AreEndsOf cores cap) all.items }
    ensures { IfOk result (λ opened. Together (IsOpenedOver cores cap burst room) all.items opened.items) }
{
    let mut opened = Vec::with_capacity(alloc, all.len())?;
    for ends in all {
        opened.push_reserved(Hosted::open(alloc, ends, cores, cap, burst, room)?);
    }
    Ok(opened)
}

/// Opens a house of numbers within the limits.
fn open_within(
    alloc: Global,
    cores: u8,
    cap: u16,
    burst: u8,
    room: u32,
    spacing: Spacing,
) -> Result<HostedHouse, AllocError>
    ensures { IfOk result (IsOpened cores cap burst room) }
{
    let Ok(mut all) = open_spaced::<HostJob>(alloc, cores, cap, spacing) else {
        return Err(AllocError);
    };
    let Some(last) = all.pop() else {
        unreachable!()
    };
    let outside = Outside::open(alloc, last, cores, cap, burst, room)?;
    let cores = open_cores(alloc, all, cores, cap, burst, room)?;
    Ok(HostedHouse { cores, outside })
}

/// Opens a house: so many cores, each with queue 0 alone, so many places for submissions on each link, turns of so many polls, and journals with
/// room for so many notes. No later call of a core or of the outside actor has an allocator in reach, except the making of a queue, and
/// `pass_on`, which takes one.
///
/// # Errors
///
/// `BadConfig` for a number that is out of its range, else `Memory`.
pub fn open_house(
    alloc: Global,
    cores: u8,
    cap: u16,
    burst: u8,
    room: u32,
) -> Result<HostedHouse, OpenError>
    ensures { OpensHouse cores cap burst room result }
{
    open_with(alloc, cores, cap, burst, room, Spacing::Apart)
}

/// Opens such a house in less memory. Its calls take longer if two threads make them.
///
/// # Errors
///
/// As `open_house`.
pub fn open_dense(
    alloc: Global,
    cores: u8,
    cap: u16,
    burst: u8,
    room: u32,
) -> Result<HostedHouse, OpenError>
    ensures { OpensHouse cores cap burst room result }
{
    open_with(alloc, cores, cap, burst, room, Spacing::Dense)
}

/// Opens a house if its numbers are within the limits.
fn open_with(
    alloc: Global,
    cores: u8,
    cap: u16,
    burst: u8,
    room: u32,
    spacing: Spacing,
) -> Result<HostedHouse, OpenError>
    ensures { OpensHouse cores cap burst room result }
{
    if !are_good(cores, cap, burst, room) {
        return Err(OpenError::BadConfig);
    }
    match open_within(alloc, cores, cap, burst, room, spacing) {
        Ok(house) => Ok(house),
        Err(_) => Err(OpenError::Memory),
    }
}
