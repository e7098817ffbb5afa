//! A slot of a row whose value is taken out without a write.
#![tactic(auto)]

ghost use Rattle.std.specs.Prelude.{◌≡◌, Option, Some, None};
ghost use Rattle.std.specs.Coded.{coded_option};
ghost use base.Fml.{ftrue};
ghost use denote.RawPtr.{InBlock};
ghost use Rattle.atomic_blocks.specs.Cells.{me};
ghost use Rattle.link_cells.specs.Taken.{if_there};

use atomic_blocks::rows::{Link, RowRule, Rows, Seat};
use std::alloc::Allocator;
use std::marker::{Move, Owns};
use std::mem::ManuallyDrop;

/// The place of a slot in its cell, in bytes: it stands behind the word and the link.
const SLOT: usize = 16;

/// A value, or the bytes of one that was taken out. Those own nothing.
///
/// Dropping it drops nothing, also where the value is still there: `take_out` gives it.
pub struct MaybeTaken<X> {
    bits: X,
}

impl<X> Owns for MaybeTaken<X> {
    ghost Value = { Option X };

    ghost coded = { coded_option X.code };

    ghost shr_at = { λ _ _ _. ftrue };
}

impl<X> Move for MaybeTaken<X> {
    ghost own_val = { λ value vs. if_there (λ x. Fields.own_val (record { bits = x }) vs) value };
}

impl<X> MaybeTaken<X> {
    /// The value, which is there.
    #[inline]
    pub fn of(value: X) -> MaybeTaken<X>
        ensures { result ≡ Some value }
    {
        MaybeTaken { bits: value }
    }

    /// The bytes of a value, which is forgotten: nobody has what it owned.
    #[inline]
    pub fn bytes_of(value: X) -> MaybeTaken<X>
    where
        X: Drop,
        ensures { result ≡ None }
    {
        MaybeTaken { bits: value }
    }
}

impl<X: Drop> Drop for MaybeTaken<X> {
    fn drop(self) {
        let _forgotten = unsafe { ManuallyDrop::new_unchecked(self) };
    }
}

unsafe impl<X: Send> Send for MaybeTaken<X> {}

/// Takes the value out of the slot that is out with the seat. It reads the slot, and writes nothing there.
#[inline(always)]
pub fn take_out<X, V, K, P: RowRule<MaybeTaken<X>, V, K>, A: Allocator>(
    rows: &Rows<MaybeTaken<X>, V, K, P, A>,
    seat: &mut Seat<MaybeTaken<X>, V, A>,
    link: Link<MaybeTaken<X>>,
    index: usize,
) -> X
    requires { (seat.old.rows ≡ rows.now.id) × InBlock link.ptr × ((x : X) × (seat.old.me.hand ≡ Some (link.ptr, index, Some x))) }
    ensures seat { (seat.new.rows ≡ seat.old.rows) × (seat.new.heap ≡ seat.old.heap) × (seat.new.id ≡ seat.old.id) }
    ensures slot { (seat.old.me.hand ≡ Some (link.ptr, index, Some result)) × (seat.new.me ≡ me seat.old.me.view (Some (link.ptr, index, None)) seat.old.me.spare) }
{
    unsafe {
        let cell = link.ptr.add(index) as *mut u8;
        (cell.add(SLOT) as *mut X).read()
    }
}
