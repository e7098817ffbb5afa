//! The links between all actors, in a row for each sender.

ghost use Rattle.std.specs.Prelude.{◌≡◌, ◌<◌, length, IfOk};
ghost use Rattle.std.specs.Borrow.{sem};
ghost use Rattle.model_world.specs.Links.{link_at, row_of, IsFreshRow, AreFresh};

use base_jobs::Task;
use base_sealed::SealedVec;
use base_words::{ActorNo, CoreNo};
use link_ends::PlainLink;
use std::alloc::{AllocError, Global};
use std::marker::Model;

/// A row of links for each sender, with a link for each core. A contract sees the links.
///
/// The rows and their list have their room for good, and lend no allocator.
#[derive(Drop)]
pub struct Links<J: Task<Out = u64>> {
    pub(crate) rows: SealedVec<SealedVec<PlainLink<J>, Global>, Global>,
}

impl<J: Task<Out = u64>> Model for Links<J> {
    ghost use Rattle.std.specs.Prelude.{ℕ, List};
    ghost use Rattle.link_ends.specs.declared.plain.Whole.{Whole};

    ghost Value = { List (List (Whole J ℕ)) };

    ghost use Rattle.std.specs.Prelude.{map};

    ghost view = { λ links. map (λ row. row.items) links.rows.items };
}

impl<J: Task<Out = u64>> Links<J> {
    ghost use Rattle.model_world.specs.LinkLending.{LendsLink};

    /// A link from each core, and from the outside actor, to each core. Each has this capacity.
    pub fn open(alloc: Global, cores: u8, cap: u16) -> Result<Self, AllocError>
        ensures { IfOk result (λ links. AreFresh cores cap links) }
    {
        let count = cores as usize + 1;
        let mut rows = Vec::with_capacity(alloc, count)?;
        for sender in 0..count {
            let row = open_row(alloc, ActorNo(sender as u8), cores, cap)?;
            rows.push_reserved(SealedVec::sealed(row));
        }
        Ok(Links {
            rows: SealedVec::sealed(rows),
        })
    }

    /// The link from the actor to the core.
    pub fn link_mut(&mut self, from: ActorNo, to: CoreNo) -> &mut PlainLink<J>
        requires sender { from < length self.old }
        requires core { to < length (row_of from self.old) }
        ensures value { result.now ≡ link_at from to self.old }
        ensures* lends { sem 𝓛 (LendsLink J.row J.Local.row J.Task self.entry from to result) }
    {
        let row = &mut self.rows[from.0 as usize];
        &mut row[to.0 as usize]
    }
}

// The links of one sender to the first cores.
fn open_row<J: Task>(
    alloc: Global,
    from: ActorNo,
    cores: u8,
    cap: u16,
) -> Result<Vec<PlainLink<J>>, AllocError>
    ensures { IfOk result (λ row. IsFreshRow from cores cap row.items) }
{
    let mut row = Vec::with_capacity(alloc, cores as usize)?;
    for core in 0..cores {
        let link = PlainLink::open(alloc, from, CoreNo(core), cap)?;
        row.push_reserved(link);
    }
    Ok(row)
}
