//! What a job answers, and the number by which a note tells it.

ghost use Rattle.std.specs.Prelude.{◌≡◌, ℕ, length};

/// What a job can answer. A note tells its number, and nothing else of it. Two answers may have one number.
pub trait Noted: Drop {
    ghost number: { Self → ℕ };

    /// The number that a note tells.
    fn noted(&self) -> u64
        ensures { result ≡ number self.now };
}

/// A number is noted as it is.
impl Noted for u64 {
    ghost number = { λ n. n };

    fn noted(&self) -> u64 {
        *self
    }
}

/// Nothing is noted as 0.
impl Noted for () {
    ghost number = { λ _. 0 };

    fn noted(&self) -> u64 {
        0
    }
}

/// A list is noted by its length, in items.
impl<T: Drop> Noted for Vec<T> {
    ghost number = { λ list. length list.items };

    fn noted(&self) -> u64 {
        self.len() as u64
    }
}

/// A text is noted by its length, in bytes.
impl Noted for String {
    ghost number = { λ text. length text.bytes.items };

    fn noted(&self) -> u64 {
        self.len() as u64
    }
}
