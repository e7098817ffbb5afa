//! What a thread is to do.

ghost use Rattle.run_team.specs.Works.{HasEndedFrom};

use std::snapshot::Snapshot;
use std::sync::Wait;
use std::thread::Promise;

/// What a worker is to give back: the bound of types that hold one.
pub trait Promised: Drop {
    type Ended: Drop;

    // What this worker owes of what it gives back.
    ghost keeps: { Self → Self.Ended → Type 0 };
}

/// What a worker does on its thread: the bound of functions that run one.
pub trait Work: Promised {
    /// Works to its end. It may wait.
    fn run<R: Wait>(self, rt: &R) -> Self::Ended
        ensures { Self.keeps self result };
}

/// What became of a worker.
#[derive(Drop)]
pub enum Left<W: Promised> {
    /// It never began.
    Unbegun(W),
    /// It has ended, and this is what it gave back.
    Ended(W::Ended),
}

/// That a thread gives back its worker, or what that worker owes.
#[derive(Drop)]
pub struct AsGiven<W: Promised>(pub(crate) Snapshot<W>);

impl<W: Promised> Promise<Left<W>> for AsGiven<W> {
    ghost use Rattle.run_team.specs.Works.{IsLeft};

    ghost kept_by = { λ p left. IsLeft W.keeps p.0.value left };
}

/// What a worker gives back; one that never began is run here.
pub(crate) fn end_of<W: Work, R: Wait>(rt: &R, left: Left<W>) -> W::Ended
    ensures { HasEndedFrom W.keeps left result }
{
    match left {
        Left::Unbegun(worker) => worker.run(rt),
        Left::Ended(end) => end,
    }
}
