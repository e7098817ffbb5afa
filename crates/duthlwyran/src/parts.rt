//! What the cores of a house are given beside their queues.

ghost use Rattle.std.specs.Prelude.{◌≡◌, ◌+◌, IfOk, length};

use note_journal::Whole;
use run_config::{NoGate, SystemClock};
use std::alloc::{AllocError, Global};

/// The clock, the gate, the sink and the shared state of each core, by its number. The last sink is the caller's.
#[derive(Drop)]
pub struct Parts<C, G, S, L> {
    pub clocks: Vec<C>,
    pub gates: Vec<G>,
    pub sinks: Vec<S>,
    pub locals: Vec<L>,
}

/// So many of these.
fn each<T: Copy + Drop>(alloc: Global, one: T, count: usize) -> Result<Vec<T>, AllocError>
    ensures { IfOk result (λ all. length all.items ≡ count) }
{
    let mut all = Vec::with_capacity(alloc, count)?;
    for _ in 0..count {
        all.push_reserved(one);
    }
    Ok(all)
}

impl<R: Copy + Drop> Parts<SystemClock<R>, NoGate, Whole, ()> {
    /// The parts of so many cores that read the system's clock, ask no gate, pass nothing on and share nothing.
    pub fn of(rt: R, alloc: Global, cores: u8) -> Result<Self, AllocError>
        ensures clocks { IfOk result (λ parts. length parts.clocks.items ≡ cores) }
        ensures gates { IfOk result (λ parts. length parts.gates.items ≡ cores) }
        ensures sinks { IfOk result (λ parts. length parts.sinks.items ≡ cores + 1) }
        ensures locals { IfOk result (λ parts. length parts.locals.items ≡ cores) }
    {
        let cores = cores as usize;
        Ok(Parts {
            clocks: each(alloc, SystemClock::new(rt), cores)?,
            gates: each(alloc, NoGate, cores)?,
            sinks: each(alloc, Whole, cores + 1)?,
            locals: each(alloc, (), cores)?,
        })
    }
}

impl<C: Drop, G: Drop, S: Drop, L: Drop> Parts<C, G, S, L> {
    /// The same parts with these clocks.
    pub fn with_clocks<D>(self, clocks: Vec<D>) -> Parts<D, G, S, L>
        ensures { result ≡ record { clocks = clocks; gates = self.gates; sinks = self.sinks; locals = self.locals } }
    {
        let Parts {
            gates,
            sinks,
            locals,
            ..
        } = self;
        Parts {
            clocks,
            gates,
            sinks,
            locals,
        }
    }

    /// The same parts with these gates.
    pub fn with_gates<H>(self, gates: Vec<H>) -> Parts<C, H, S, L>
        ensures { result ≡ record { clocks = self.clocks; gates = gates; sinks = self.sinks; locals = self.locals } }
    {
        let Parts {
            clocks,
            sinks,
            locals,
            ..
        } = self;
        Parts {
            clocks,
            gates,
            sinks,
            locals,
        }
    }

    /// The same parts with these sinks, none of which has a note yet.
    pub fn with_sinks<T>(self, sinks: Vec<T>) -> Parts<C, G, T, L>
        ensures { result ≡ record { clocks = self.clocks; gates = self.gates; sinks = sinks; locals = self.locals } }
    {
        let Parts {
            clocks,
            gates,
            locals,
            ..
        } = self;
        Parts {
            clocks,
            gates,
            sinks,
            locals,
        }
    }

    /// The same parts with these states, one for each core.
    pub fn with_locals<M>(self, locals: Vec<M>) -> Parts<C, G, S, M>
        ensures { result ≡ record { clocks = self.clocks; gates = self.gates; sinks = self.sinks; locals = locals } }
    {
        let Parts {
            clocks,
            gates,
            sinks,
            ..
        } = self;
        Parts {
            clocks,
            gates,
            sinks,
            locals,
        }
    }
}
