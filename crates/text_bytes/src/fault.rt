//! Why a line isn't taken.

ghost use Rattle.std.specs.Prelude.{◌≡◌};
ghost use Rattle.text_bytes.specs.Faults as spec;

use std::alloc::{AllocError, AllocFailed};
use text_words::Fault;

/// Why a draft doesn't take a line.
#[derive(Drop)]
pub enum Stop<C> {
    /// The line is faulty.
    Cause(C),
    /// There is no memory.
    Memory,
}

impl<C> From<AllocError> for Stop<C> {
    ghost use Rattle.text_bytes.specs.declared.fault.Stop.TheVariants.{Memory};

    ghost from_gives = { λ _ stop. stop ≡ Memory };

    fn from(_error: AllocError) -> Stop<C> {
        Stop::Memory
    }
}

impl<C, T: Drop> From<AllocFailed<T>> for Stop<C> {
    ghost use Rattle.text_bytes.specs.declared.fault.Stop.TheVariants.{Memory};

    ghost from_gives = { λ _ stop. stop ≡ Memory };

    fn from(_failed: AllocFailed<T>) -> Stop<C> {
        Stop::Memory
    }
}

/// The fault of a draft that stops at this line.
pub fn stopped<C>(line: u32, stop: Stop<C>) -> Fault<C>
    ensures { result ≡ spec.stopped line stop }
{
    match stop {
        Stop::Cause(cause) => Fault::Text { line, cause },
        Stop::Memory => Fault::Memory,
    }
}
