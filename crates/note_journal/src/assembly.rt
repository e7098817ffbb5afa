//! The journals of all actors, after a run.

ghost use Rattle.std.specs.Prelude.{◌≡◌, ◌≤◌, ◌+◌, length, map};
ghost use Rattle.base_words.specs.Assembly.{journal_of};

use crate::journal::Journal;
use base_words::ActorNo;
use std::marker::Model;

/// The journals of the cores and of the outside actor, with the numbers that they were made under.
#[derive(Drop)]
pub struct Assembly {
    cores: u8,
    cap: u16,
    burst: u8,
    journals: Vec<Journal<u64>>,
}

impl Model for Assembly {
    ghost use Rattle.std.specs.Prelude.{ℕ, ◌≡◌, ◌+◌, length, map};
    ghost use Rattle.base_words.specs.Assembly.{Assembly};

    ghost Value = { Assembly ℕ };

    ghost view = { λ assembly. record {
      cores = assembly.cores;
      cap = assembly.cap;
      burst = assembly.burst;
      journals = map (λ journal. journal.notes) assembly.journals.items;
    } };

    ghost invariant = { λ assembly. length assembly.journals.items ≡ assembly.cores + 1 };
}

impl Assembly {
    /// The journals, one for each core and one for the outside actor. Each turn is a single poll.
    pub fn of(cores: u8, cap: u16, journals: Vec<Journal<u64>>) -> Self
        requires { length journals.items ≡ cores + 1 }
        ensures { result ≡ record { cores = cores; cap = cap; burst = 1; journals = map (λ journal. journal.notes) journals.items } }
    {
        Assembly::of_burst(cores, cap, 1, journals)
    }

    /// The journals, where a turn may have so many polls.
    pub fn of_burst(cores: u8, cap: u16, burst: u8, journals: Vec<Journal<u64>>) -> Self
        requires { length journals.items ≡ cores + 1 }
        ensures { result ≡ record { cores = cores; cap = cap; burst = burst; journals = map (λ journal. journal.notes) journals.items } }
    {
        Assembly {
            cores,
            cap,
            burst,
            journals,
        }
    }

    /// How many cores there are. The outside actor has the number behind them.
    pub fn cores(&self) -> u8
        ensures value { result ≡ self.now.cores }
        ensures journals { length self.now.journals ≡ self.now.cores + 1 }
    {
        self.cores
    }

    /// How many submissions may be outstanding on each link.
    pub fn cap(&self) -> u16
        ensures { result ≡ self.now.cap }
    {
        self.cap
    }

    /// How many polls a turn may have.
    pub fn burst(&self) -> u8
        ensures { result ≡ self.now.burst }
    {
        self.burst
    }

    /// The notes of one actor.
    pub fn journal(&self, actor: ActorNo) -> &Journal<u64>
        requires { actor ≤ self.now.cores }
        ensures { result.now.notes ≡ journal_of actor self.now }
    {
        &self.journals[actor.0 as usize]
    }
}
