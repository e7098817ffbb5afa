//! A lock whose value fits a key, which a clause reads on the lock.
//!
//! # What is shared
//!
//! A word and a place (`Table` of atomic_table). The word is 0 while the value is in its place, and 2 before there was one. Whoever finds 0, and
//! leaves 1, has the value, and nobody else touches the place until the word is 0 again.
//!
//! # In which order
//!
//! 1. Who takes the value swaps 1 into the word, a few times while it is out, and then lies down on `freed`, tries once more, and parks.
//! 2. Who gives it back stores 0, and then rings `freed`.

ghost use Rattle.std.specs.Prelude.{◌≡◌, IfErr, IfOk, IfSome};
ghost use Rattle.actor_caller.specs.Halls.{Guarded, HasOnly, Seized};

use atomic_table::{Play, Seat, Table, TableRule};
use crossbeam_utils::sync::EventCount;
use std::alloc::{AllocError, Global};
use std::hint::spin_loop;
use std::marker::PhantomData;
use std::sync::Wait;

/// How often one looks at the word while the value is out, before one lies down.
const LOOKS: u32 = 128;

/// The word while the value is in its place.
const HERE: u64 = 0;

/// The word while the value is out.
const OUT: u64 = 1;

/// The word before there was a value.
const VACANT: u64 = 2;

/// What stands behind a lock.
pub(crate) trait Keyed<K> {
    /// What holds of it whenever it is in its place, by a key that is fixed when the lock is made.
    ghost fits: { K → Self → Type 0 };
}

/// The rule of the lock, and what the step tells that takes the value.
pub(crate) struct Guard<T, K> {
    of: PhantomData<(T, K)>,
}

impl<T: Keyed<K>, K> TableRule<Option<T>, K, K> for Guard<T, K> {
    ghost holds = { λ key. Guarded (T.fits key) };

    ghost first = { λ key. key };
}

impl<T: Keyed<K>, K> Play<Option<T>, K> for Guard<T, K> {
    ghost then = { λ step me found new. found ≡ 0 → Seized (T.fits me.0) new };
}

/// What the step tells that makes room for the first value.
struct Fill;

impl<T, K> Play<Option<T>, K> for Fill {
    ghost then = { λ step me found new. found ≡ 2 → HasOnly new };
}

/// What the step tells that gives the value back: nothing.
struct Release;

impl<T, K> Play<Option<T>, K> for Release {
    ghost then = { λ step me found new. Unit {0} };
}

/// A value behind a lock.
#[derive(Drop)]
pub(crate) struct Hall<T: Keyed<K>, K> {
    table: Table<Option<T>, K, K, Guard<T, K>, Global>,
    freed: EventCount,
    ghost sized: { (table.shared.table_id.words ≡ 1) × (table.shared.table_id.slots ≡ 1) },
}

/// That the value is out. It can't be dropped: only `give` and `close` end it.
pub(crate) struct Loan<T, K> {
    seat: Seat<Option<T>, K>,
}

impl<T: Keyed<K> + Drop, K> Hall<T, K> {
    /// A lock with nothing behind it yet.
    ///
    /// # Errors
    ///
    /// If there is no memory.
    pub(crate) fn vacant(alloc: Global, key: &K) -> Result<Self, AllocError>
        ensures { IfOk result (λ hall. hall.table.shared.key ≡ key.now) }
    {
        let (table, _seat) = Table::vacant(alloc, &[VACANT], 1, key)?;
        Ok(Hall {
            table,
            freed: EventCount::new(),
        })
    }

    /// Puts the first value behind the lock.
    ///
    /// # Errors
    ///
    /// If there was one. The value comes back.
    pub(crate) fn fill(&self, value: T) -> Result<(), T>
        requires { T.fits self.now.table.shared.key value }
        ensures { IfErr result (λ back. back ≡ value) }
    {
        let (found, seat) = self.table.shared.swap_new_seat::<Fill>(0, OUT);
        if found != VACANT {
            return Err(value);
        }
        self.give(value, Loan { seat });
        Ok(())
    }

    /// Takes the value out, if it is there.
    #[inline(always)]
    fn try_take(&self) -> Option<(T, Loan<T, K>)>
        ensures { IfSome result (λ taken. T.fits self.now.table.shared.key taken.0 × (taken.1.seat.table_id ≡ self.now.table.shared.table_id) × HasOnly taken.1.seat.me) }
    {
        // step: take
        let (found, mut seat) = self.table.shared.swap_new_seat::<Guard<T, K>>(0, OUT);
        if found != HERE {
            return None;
        }
        let value = self.table.shared.exchange(&mut seat, 0, None).unwrap();
        Some((value, Loan { seat }))
    }

    /// The same, each time that the word shows the value, at most so often as one looks before one lies down.
    #[inline(never)]
    fn take_soon(&self) -> Option<(T, Loan<T, K>)>
        ensures { IfSome result (λ taken. T.fits self.now.table.shared.key taken.0 × (taken.1.seat.table_id ≡ self.now.table.shared.table_id) × HasOnly taken.1.seat.me) }
    {
        for _ in 0..LOOKS {
            if self.table.shared.peek(0) == HERE {
                if let Some(taken) = self.try_take() {
                    return Some(taken);
                }
            }
            spin_loop();
        }
        None
    }

    /// Waits until the value is there, and takes it out.
    #[inline(never)]
    fn take_late<R: Wait>(&self, rt: &R) -> (T, Loan<T, K>)
        ensures fits { T.fits self.now.table.shared.key result.0 }
        ensures loan { (result.1.seat.table_id ≡ self.now.table.shared.table_id) × HasOnly result.1.seat.me }
    {
        for _ in rt.forever() {
            if let Some(taken) = self.take_soon() {
                return taken;
            }
            // step: lie down
            let key = self.freed.prepare_wait();
            if let Some(taken) = self.try_take() {
                return taken;
            }
            // step: park
            key.wait(rt);
        }
        unreachable!()
    }

    /// Takes the value out. Waits as long as another has it.
    #[inline(always)]
    pub(crate) fn take<R: Wait>(&self, rt: &R) -> (T, Loan<T, K>)
        ensures fits { T.fits self.now.table.shared.key result.0 }
        ensures loan { (result.1.seat.table_id ≡ self.now.table.shared.table_id) × HasOnly result.1.seat.me }
    {
        match self.try_take() {
            Some(taken) => taken,
            None => self.take_late(rt),
        }
    }

    /// Puts the value back, and wakes one who waits for it.
    #[inline(always)]
    pub(crate) fn give(&self, value: T, loan: Loan<T, K>)
        requires fits { T.fits self.now.table.shared.key value }
        requires loan { (loan.seat.table_id ≡ self.now.table.shared.table_id) × HasOnly loan.seat.me }
    {
        let Loan { mut seat } = loan;
        let none = self.table.shared.exchange(&mut seat, 0, Some(value));
        drop(none);
        // step: give
        self.table.shared.store::<Release>(&mut seat, 0, HERE);
        // step: ring
        self.freed.notify_one();
    }

    /// Takes the value out for good. Waits as long as another has it.
    pub(crate) fn close<R: Wait>(&self, rt: &R) -> T
        ensures { T.fits self.now.table.shared.key result }
    {
        let (value, loan) = self.take(rt);
        let Loan { seat: _ } = loan;
        value
    }
}
