//! How all links of a house are opened, and each actor gets its ends.

ghost use Rattle.std.specs.Prelude.{◌≡◌, ◌+◌, ◌<◌, ◌≤◌, OnOk, IfOk};
ghost use Rattle.link_ring.specs.Grid.{IsOpening, IsGrid, AreAllFresh};

use crate::ends::{Ends, Unsealed};
use crate::link::{OpenError, RingLink};
use base_jobs::Task;
use base_words::{ActorNo, CoreNo};
use link_board::Spacing;
use std::alloc::{AllocError, Global};

// Opens the link from a sender to a core, and gives each of the two its end.
fn connect<J: Task>(
    alloc: Global,
    all: &mut Vec<Unsealed<J>>,
    cores: u8,
    cap: u16,
    sender: usize,
    core: usize,
    spacing: Spacing,
) -> Result<(), AllocError>
    requires sender { sender ≤ cores }
    requires core { core < cores }
    requires opening { IsOpening cores cap sender core all.old.items }
    ensures { OnOk result (IsOpening cores cap sender (core + 1) all.new.items) }
{
    let (from, to) = (ActorNo(sender as u8), CoreNo(core as u8));
    let opened = RingLink::open_spaced::<J>(alloc, from, to, cap, 0, spacing);
    let Ok((out, inward)) = opened else {
        return Err(AllocError);
    };
    all[sender].push_out(out)?;
    all[core].push_in(inward)?;
    Ok(())
}

// Opens the links from a sender to all cores.
fn connect_row<J: Task>(
    alloc: Global,
    all: &mut Vec<Unsealed<J>>,
    cores: u8,
    cap: u16,
    sender: usize,
    spacing: Spacing,
) -> Result<(), AllocError>
    requires sender { sender ≤ cores }
    requires opening { IsOpening cores cap sender 0 all.old.items }
    ensures { OnOk result (IsOpening cores cap (sender + 1) 0 all.new.items) }
{
    for core in 0..cores as usize {
        connect(alloc, all, cores, cap, sender, core, spacing)?;
    }
    Ok(())
}

// The actors without an end.
fn bare<J: Task>(alloc: Global, cores: u8, cap: u16) -> Result<Vec<Unsealed<J>>, AllocError>
    ensures { IfOk result (λ all. IsOpening cores cap 0 0 all.items) }
{
    let _ = cap;
    let count = cores as u16 + 1;
    let mut all = Vec::with_capacity(alloc, count as usize)?;
    for number in 0..count {
        let ins = if number < cores as u16 { count } else { 0 };
        all.push(Unsealed::bare(alloc, ActorNo(number as u8), cores, ins)?)?;
    }
    Ok(all)
}

// Opens all links, row by row.
fn open_rows<J: Task>(
    alloc: Global,
    cores: u8,
    cap: u16,
    spacing: Spacing,
) -> Result<Vec<Unsealed<J>>, AllocError>
    ensures { IfOk result (λ all. IsOpening cores cap (cores + 1) 0 all.items) }
{
    let mut all = bare::<J>(alloc, cores, cap)?;
    for sender in 0..cores as usize + 1 {
        connect_row(alloc, &mut all, cores, cap, sender, spacing)?;
    }
    Ok(all)
}

// Each actor's ends, sealed.
fn seal_all<J: Task>(alloc: Global, all: Vec<Unsealed<J>>) -> Result<Vec<Ends<J>>, AllocError>
    ensures { IfOk result (λ dealt. dealt.items ≡ all.items) }
{
    let mut dealt = Vec::with_capacity(alloc, all.len())?;
    for ends in all {
        dealt.push(ends.sealed())?;
    }
    Ok(dealt)
}

// Opens all links, and seals the ends of each actor.
fn open_sealed<J: Task>(
    alloc: Global,
    cores: u8,
    cap: u16,
    spacing: Spacing,
) -> Result<Vec<Ends<J>>, AllocError>
    ensures { IfOk result (λ all. IsOpening cores cap (cores + 1) 0 all.items) }
{
    let all = open_rows::<J>(alloc, cores, cap, spacing)?;
    seal_all(alloc, all)
}

/// Opens a link from each actor to each core, and deals their ends to the actors. The outside actor is the last one.
///
/// At most `cap` submissions are outstanding on each.
/// The memory of these links is taken here; that their ends ask for none is said by no clause.
///
/// # Errors
///
/// `Memory` where there is none.
pub fn open_all<J: Task>(alloc: Global, cores: u8, cap: u16) -> Result<Vec<Ends<J>>, OpenError>
    ensures grid { IfOk result (λ all. IsGrid cores all.items) }
    ensures fresh { IfOk result (λ all. AreAllFresh cores cap all.items) }
{
    open_spaced(alloc, cores, cap, Spacing::Apart)
}

/// The same, with cells as far apart as this says.
///
/// # Errors
///
/// As `open_all`.
pub fn open_spaced<J: Task>(
    alloc: Global,
    cores: u8,
    cap: u16,
    spacing: Spacing,
) -> Result<Vec<Ends<J>>, OpenError>
    ensures grid { IfOk result (λ all. IsGrid cores all.items) }
    ensures fresh { IfOk result (λ all. AreAllFresh cores cap all.items) }
{
    match open_sealed::<J>(alloc, cores, cap, spacing) {
        Ok(all) => Ok(all),
        Err(_) => Err(OpenError::Memory),
    }
}
