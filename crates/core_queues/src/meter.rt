//! What tells the time that a poll takes.

ghost use Rattle.std.specs.Prelude.{ℕ};

/// Measures a poll: it is told that the poll begins, and tells the time when the poll has ended.
pub trait Meter {
    /// What it may tell of a poll that begins with the next start, and what it is behind that poll.
    ghost Tells: { Self → ℕ → Self → Type 0 };

    /// What it may tell of the poll that began with the last start, and what it is behind that poll.
    ghost TellsBegun: { Self → ℕ → Self → Type 0 };

    /// The poll begins right after this call.
    fn start(&mut self)
        ensures { (time : ℕ) (after : Self) → TellsBegun self.new time after → Tells self.old time after };

    /// The poll has just ended. The nanoseconds that it took.
    fn spent(&mut self) -> u64
        ensures { TellsBegun self.old result self.new };
}

/// A time that is known before the poll.
impl Meter for u64 {
    ghost use Rattle.std.specs.Prelude.{◌≡◌};

    ghost Tells = { λ known time _. time ≡ known };

    ghost TellsBegun = { λ known time _. time ≡ known };

    fn start(&mut self) {}

    fn spent(&mut self) -> u64 {
        *self
    }
}
