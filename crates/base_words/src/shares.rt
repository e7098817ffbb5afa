//! Shares of the processor, and what a poll costs under them.
ghost use Rattle.std.specs.Prelude.{◌≡◌, ℕ, ◌+◌, ◌*◌, ◌^◌, ◌<◌, ◌≤◌, ◌⊎◌, ◌↔◌, OnOk, IfOk, IsErr, IsTrue};
ghost use Rattle.base_words.specs.Charge.{placed};
ghost use Rattle.base_words.specs.Charge as spec;

use std::marker::Model;

/// The time of a poll counts for less than this.
const LONGEST: u64 = (1 << 40) - 1;

/// How much of the processor a queue receives relative to the others: 1 to 10000.
#[derive(Clone, Copy, PartialEq, Eq, Debug)]
pub struct Shares {
    weight: u16,
}

impl Model for Shares {
    ghost use Rattle.std.specs.Prelude.{ℕ};

    ghost Value = { ℕ };

    ghost use Rattle.base_words.specs.Charge.{InRange};

    ghost view = { λ s. s.weight };

    ghost invariant = { λ s. InRange s.weight };

    ghost inverse = { λ w. record { weight = w } };
}

/// What a queue has unless told otherwise.
impl Default for Shares {
    ghost use Rattle.std.specs.Prelude.{◌≡◌};

    ghost is_default = { λ s. s ≡ 1000 };

    fn default() -> Self {
        Shares { weight: 1000 }
    }
}

/// The number is 0 or above 10000.
#[derive(Clone, Copy, PartialEq, Eq, Debug)]
pub struct BadShares;

impl Shares {
    /// Shares of this number.
    ///
    /// # Errors
    ///
    /// `BadShares` for 0 and for more than 10000.
    pub fn try_new(w: u32) -> Result<Self, BadShares>
        ensures value { IfOk result (λ s. s ≡ w) }
        ensures refused { IsErr result ↔ ((w ≡ 0) ⊎ (10000 < w)) }
    {
        if w == 0 || w > 10000 {
            Err(BadShares)
        } else {
            Ok(Shares { weight: w as u16 })
        }
    }

    /// The number, 1 to 10000.
    pub fn get(&self) -> u32
        ensures value { result ≡ self.now }
        ensures positive { 1 ≤ result }
        ensures bounded { result ≤ 10000 }
    {
        self.weight as u32
    }
}

/// The virtual runtime that a poll of so many nanoseconds adds: its time in thousandths of the shares, rounded up.
pub fn charge(time: u64, shares: &Shares) -> u64
    ensures value { result ≡ spec.charge time shares.now }
    ensures bounded { result < 2 ^ 50 }
{
    let counted = clamped(time);
    let weight = shares.get() as u64;
    // The counted time is below 2^40 and 1000 below 2^10, so the product fits, and the charge is below 2^50.
    (counted * 1000 + (weight - 1)) / weight
}

/// The virtual runtime at which a queue without work starts as it gets a job.
pub fn placed(runtime: u128, floor: u128) -> u128
    ensures { result ≡ spec.placed runtime floor }
{
    runtime.max(floor)
}

/// The time of a poll that counts: at least 1 ns, at most 2^40 - 1 ns.
pub fn clamped(time: u64) -> u64
    ensures value { result ≡ spec.clamped time }
    ensures bounded { result < 2 ^ 40 }
{
    time.min(LONGEST).max(1)
}
