//! A caller behind a lock, whose calls are made by handles on any threads.

ghost use Rattle.std.specs.Prelude.{◌≡◌, ◌+◌, IfErr, IfOk};
ghost use Rattle.std.specs.Arc.{arc_value};
ghost use Rattle.actor_caller.specs.Callers.{CallsMake};

use crate::caller::{Beside, Caller};
use crate::handle::Handle;
use crate::shared::{Away, Shared, put_behind, shared_of, taken_out};
use base_jobs::Task;
use note_journal::Sink;
use std::alloc::{AllocError, Global};
use std::error::Error;
use std::fmt;
use std::marker::Model;
use std::snapshot::Snapshot;
use std::sync::{Arc, Wait};

/// A caller behind a lock, what stands beside it, and the handles that were given.
pub struct Callers<J: Task<Out = u64>, S: Sink, H: Beside<Job = J>> {
    house: H,
    shared: Arc<Shared<J, S, H>, Global>,
    /// One for each handle that isn't gone, and for some that are: its number, which is counted twice as long as the handle lives.
    lives: Vec<Arc<u64, Global>>,
    given: u64,
}

impl<J: Task<Out = u64>, S: Sink, H: Beside<Job = J>> Model for Callers<J, S, H> {
    ghost use Rattle.actor_caller.specs.Callers.{CallersView};

    ghost Value = { CallersView J };

    ghost use Rattle.std.specs.Arc.{arc_value};
    ghost use Rattle.actor_caller.specs.Teams.{IsBeside};

    ghost view = { λ c. record { begun = (arc_value c.shared).hall.table.shared.key.value; given = c.given } };

    ghost invariant = { λ c. IsBeside (H.team c.house) (arc_value c.shared).hall.table.shared.key.value };
}

// Written out, so that no crate above proves again that what is below can be dropped.
impl<J: Task<Out = u64>, S: Sink, H: Beside<Job = J>> Drop for Callers<J, S, H> {
    fn drop(self) {
        let Self {
            house: _,
            shared: _,
            lives: _,
            given: _,
        } = self;
    }
}

/// The handle of this number isn't gone. What was to be taken comes back.
#[derive(Drop)]
pub struct HandleOut<B> {
    pub number: u64,
    pub back: B,
}

impl<B> fmt::Display for HandleOut<B> {
    fn fmt<W: fmt::Write>(&self, f: &mut fmt::Formatter<W>) -> fmt::Result {
        let number = self.number;
        write!(f, "handle {number} is not gone")
    }
}

/// The text without what comes back.
impl<B> fmt::Debug for HandleOut<B> {
    fn fmt<W: fmt::Write>(&self, f: &mut fmt::Formatter<W>) -> fmt::Result {
        fmt::Display::fmt(self, f)
    }
}

impl<B: Drop> Error for HandleOut<B> {}

/// The number of the first handle that isn't gone.
fn first_out(lives: &[Arc<u64, Global>]) -> Option<u64> {
    for place in 0..lives.len() {
        if Arc::strong_count(&lives[place]) > 1 {
            return Some(*lives[place]);
        }
    }
    None
}

/// Keeps the number of a new handle, in the place of one that is gone if there is one.
fn keep(lives: &mut Vec<Arc<u64, Global>>, life: Arc<u64, Global>) -> Result<(), AllocError> {
    for place in 0..lives.len() {
        if Arc::strong_count(&lives[place]) == 1 {
            lives[place] = life;
            return Ok(());
        }
    }
    lives.push(life)?;
    Ok(())
}

impl<J: Task<Out = u64>, S: Sink, H: Beside<Job = J>> Caller<J, S, H> {
    /// Puts the caller behind a lock, so that handles on any threads make its calls.
    ///
    /// # Errors
    ///
    /// If there is no memory. The caller comes back.
    pub fn into_callers(self, alloc: Global) -> Result<Callers<J, S, H>, Self>
        ensures ok { IfOk result (λ callers. (callers.begun ≡ self) × (callers.given ≡ 0)) }
        ensures refused { IfErr result (λ back. back ≡ self) }
    {
        let origin = Snapshot::of(&self);
        let (Ok(waker), Ok(shared)) = (self.waker(alloc), shared_of(alloc, &origin)) else {
            return Err(self);
        };
        let away = Away::of(self.house());
        let (caller, house) = self.with_house(away);
        match put_behind(&shared, alloc, caller, waker) {
            Ok(()) => Ok(Callers {
                house,
                shared,
                lives: Vec::new(alloc),
                given: 0,
            }),
            Err(caller) => Err(caller.with_house(house).0),
        }
    }
}

impl<J: Task<Out = u64>, S: Sink, H: Beside<Job = J>> Callers<J, S, H> {
    /// A handle, which may go to any thread. Its number is how many were given before it.
    ///
    /// # Errors
    ///
    /// If there is no memory. Nothing was given then.
    pub fn handle(&mut self) -> Result<Handle<J, S, H>, AllocError>
        ensures ok { IfOk result (λ handle. (handle.begun ≡ self.old.begun) × (handle.number ≡ self.old.given) × (self.new ≡ record self.old { given = self.old.given + 1 })) }
        ensures refused { IfErr result (λ _. self.new ≡ self.old) }
    {
        let number = self.given;
        if number == u64::MAX {
            return Err(AllocError);
        }
        let shared = Arc::try_clone(&self.shared)?;
        let life = Arc::new(*self.lives.allocator(), number)?;
        let theirs = Arc::try_clone(&life)?;
        keep(&mut self.lives, life)?;
        self.given = number + 1;
        Ok(Handle::of(number, shared, theirs))
    }

    /// The caller, once all handles are gone: what the calls of all of them made of it.
    ///
    /// # Errors
    ///
    /// `HandleOut` with the number of the first handle that isn't gone. The callers come back.
    pub fn into_caller<R: Wait>(self, rt: &R) -> Result<Caller<J, S, H>, HandleOut<Self>>
        ensures ok { IfOk result (CallsMake J.meaning self.begun) }
        ensures refused { IfErr result (λ out. out.back ≡ self) }
    {
        if let Some(number) = first_out(self.lives.as_slice()) {
            return Err(HandleOut { number, back: self });
        }
        let Callers {
            house,
            shared,
            lives: _,
            given: _,
        } = self;
        Ok(taken_out(&*shared, rt, house))
    }
}
