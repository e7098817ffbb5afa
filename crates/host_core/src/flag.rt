//! Whether something is so, in a word of its own.

ghost use Rattle.std.specs.Prelude.{◌≡◌};

use std::marker::Model;

/// Whether something is so. A byte beside a word would leave seven bytes of padding, which are moved along with it, by parts.
#[derive(Drop)]
pub struct Flag {
    word: u64,
}

impl Model for Flag {
    ghost use Rattle.std.specs.Prelude.{Bool};
    ghost use Rattle.host_core.specs.Flags.{is_set};

    ghost Value = { Bool };

    ghost view = { λ flag. is_set flag.word };
}

impl Flag {
    /// A word that says so, or not.
    pub fn of(is_set: bool) -> Self
        ensures { result ≡ is_set }
    {
        Flag {
            word: if is_set { 1 } else { 0 },
        }
    }

    /// What the word says.
    pub fn get(&self) -> bool
        ensures { result ≡ self.now }
    {
        self.word != 0
    }
}
