//! Numbers of cores, actors and queues, names of submissions, and tickets.

ghost use Rattle.std.specs.Prelude.{◌≡◌, ◌↔◌, IsTrue};
ghost use Rattle.base_words.specs.Keys.{KeyBefore};

use std::marker::Model;

/// A core, by its number.
#[derive(Clone, Copy, PartialEq, Eq, Debug)]
pub struct CoreNo(pub u8);

impl Model for CoreNo {
    ghost use Rattle.std.specs.Prelude.{ℕ};

    ghost Value = { ℕ };

    ghost view = { λ c. c.0 };

    ghost inverse = { λ n. record { 0 = n } };
}

/// A core, or the outside actor, whose number is the count of the cores.
#[derive(Clone, Copy, PartialEq, Eq, Debug)]
pub struct ActorNo(pub u8);

impl Model for ActorNo {
    ghost use Rattle.std.specs.Prelude.{ℕ};

    ghost Value = { ℕ };

    ghost view = { λ a. a.0 };

    ghost inverse = { λ n. record { 0 = n } };
}

/// A queue of a core, by its number.
#[derive(Clone, Copy, PartialEq, Eq, PartialOrd, Debug)]
pub struct QueueNo(pub u8);

impl Model for QueueNo {
    ghost use Rattle.std.specs.Prelude.{ℕ};

    ghost Value = { ℕ };

    ghost view = { λ q. q.0 };

    ghost inverse = { λ n. record { 0 = n } };
}

/// The name of a submission: its sender, its receiver and its number on that link.
#[derive(Clone, Copy, PartialEq, Eq, Debug)]
pub struct JobId {
    pub from: ActorNo,
    pub to: CoreNo,
    pub number: u64,
}

/// The place of a queue in the timeline: by virtual runtime, then by number.
#[derive(Clone, Copy, PartialEq, Eq, PartialOrd, Debug)]
pub struct Key {
    pub vr: u128,
    pub queue: QueueNo,
}

impl Key {
    /// Whether this key stands before the other.
    pub fn is_before(&self, other: &Key) -> bool
        ensures { IsTrue result ↔ KeyBefore self.now.vr self.now.queue other.now.vr other.now.queue }
    {
        self < other
    }
}

/// The right to ask for the outcome of the submission of this name.
#[derive(Clone, Copy, PartialEq, Eq, Debug)]
pub struct Ticket {
    name: JobId,
}

impl Model for Ticket {
    ghost use Rattle.base_words.specs.declared.names.JobId.{JobId};

    ghost Value = { JobId };

    ghost view = { λ t. t.name };

    ghost inverse = { λ name. record { name = name } };
}

impl Ticket {
    /// Any name may be asked for; who is asked judges it.
    pub fn named(name: JobId) -> Self
        ensures { result ≡ name }
    {
        Ticket { name }
    }

    /// The name that it asks for.
    pub fn name(&self) -> JobId
        ensures { result ≡ self.now }
    {
        self.name
    }
}

/// Why a ticket gives no outcome.
#[derive(Clone, Copy, PartialEq, Eq, Debug, thiserror::Error)]
pub enum TicketError {
    /// The name is another actor's, names no core, or has a number that was never given.
    #[error("no such submission")]
    Unknown,
    /// It was redeemed or detached before.
    #[error("redeemed or detached before")]
    Gone,
    /// Its outcome isn't collected yet.
    #[error("not collected yet")]
    Pending,
}
