//! The two ends of a place for one answer.

ghost use Rattle.std.specs.Prelude.{◌≡◌, IfNone, IfOk, IfSome, None, Some};

use crate::answer::Noted;
use std::alloc::{AllocError, Global};
use std::marker::Model;
use std::sync::{Arc, OnceLock};

/// The end of a place that fills it, once. The job has it.
#[derive(Drop)]
pub struct Reply<A: Drop> {
    shared: Arc<OnceLock<Option<A>>, Global>,
}

/// The end of a place that reads it. Whoever submits the job has it.
#[derive(Drop)]
pub struct Asked<A: Drop> {
    shared: Arc<OnceLock<Option<A>>, Global>,
}

/// A contract sees the name of its place.
impl<A: Drop> Model for Reply<A> {
    ghost use Rattle.std.specs.Prelude.{ℕ};

    ghost Value = { ℕ };

    ghost view = { λ reply. reply.shared.value.id };
}

/// A contract sees the name of its place.
impl<A: Drop> Model for Asked<A> {
    ghost use Rattle.std.specs.Prelude.{ℕ};

    ghost Value = { ℕ };

    ghost view = { λ asked. asked.shared.value.id };
}

/// Opens an empty place: the end for the job, and the end for whoever asks. It allocates once.
///
/// # Errors
///
/// There is no memory.
pub fn open<A: Drop>(alloc: Global) -> Result<(Reply<A>, Asked<A>), AllocError>
    ensures pair { IfOk result (λ ends. ends.0 ≡ ends.1) }
{
    let shared = Arc::new(alloc, OnceLock::new())?;
    let reply = Reply {
        shared: Arc::try_clone(&shared)?,
    };
    Ok((reply, Asked { shared }))
}

impl<A: Noted> Reply<A> {
    /// Fills the place, and gives the number for the job to answer: `Step::Done(reply.fill(answer))`. It waits for nobody and allocates nothing.
    pub fn fill(self, answer: A) -> u64
        ensures { result ≡ A.number answer }
    {
        let number = answer.noted();
        let _filled = self.shared.try_set(Some(answer)).is_ok();
        number
    }
}

impl<A: Noted> Asked<A> {
    /// The answer, if the place has one with this number: the one that was redeemed. It waits for nobody.
    pub fn answer(&self, number: u64) -> Option<&A>
        ensures { IfSome result (λ answer. A.number answer.now ≡ number) }
    {
        let answer = self.shared.get()?.as_ref()?;
        if answer.noted() == number {
            Some(answer)
        } else {
            None
        }
    }

    /// Takes the answer out of the place, if it has one with this number and the other end is gone. That end is gone once its `fill` returned,
    /// and so once the number was redeemed. If it gives nothing, all stays as it was: no clause sees what a place has, so `take_if` says it of
    /// what it is lent.
    pub fn take(&mut self, number: u64) -> Option<A>
        ensures { IfSome result (λ answer. A.number answer ≡ number) }
    {
        let kept = Arc::get_mut(&mut self.shared)?.get_mut()?;
        take_if(kept, number)
    }
}

/// Takes what is kept, if it has this number.
fn take_if<A: Noted>(kept: &mut Option<A>, number: u64) -> Option<A>
    ensures number { IfSome result (λ answer. A.number answer ≡ number) }
    ensures taken { IfSome result (λ answer. kept.old ≡ Some answer) }
    ensures gone { IfSome result (λ _. kept.new ≡ None) }
    ensures refused { IfNone result (kept.new ≡ kept.old) }
{
    let answer = kept.as_ref()?;
    if answer.noted() != number {
        return None;
    }
    kept.take()
}
