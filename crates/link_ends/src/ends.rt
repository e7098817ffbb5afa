//! The two ends of a link, as code that is proved once for every kind of link sees them.
//!
//! Each end is described by what it knows. Of the other end it knows what it has seen, which is a beginning of what
//! the other end has done: between threads that may be less than all.

ghost use Rattle.std.specs.Prelude.{◌≡◌, ℕ, List};

use base_jobs::Task;
use base_words::{ActorNo, CoreNo, Envelope, Order, Outcome, SendError};
use std::collections::LinkedList;

/// What a sender's end knows. No value of it is made.
pub struct Outward<J, T> {
    /// The sender.
    pub from: ActorNo,
    /// The receiver.
    pub to: CoreNo,
    /// The number before the first.
    pub base: u64,
    /// How many may be outstanding.
    pub capacity: u64,
    /// All that was sent. The first has the number `base + 1`.
    pub sent: LinkedList<Order<J>>,
    /// The outcomes that it has seen, each with its order's number, as they were given.
    pub seen: LinkedList<(u64, Outcome<J, T>)>,
    /// How many of these it has got, from the first on.
    pub got: u64,
    /// Whether it has seen the gate shut.
    pub closed: bool,
}

/// What a receiver's end knows. No value of it is made.
pub struct Inward<J, T> {
    /// The sender.
    pub from: ActorNo,
    /// The receiver.
    pub to: CoreNo,
    /// The number before the first.
    pub base: u64,
    /// How many may be outstanding.
    pub capacity: u64,
    /// The orders that it has seen, as they were sent. The first has the number `base + 1`.
    pub seen: LinkedList<Order<J>>,
    /// How many of these it has taken, from the first on.
    pub taken: u64,
    /// All outcomes that were given, each with its order's number.
    pub given: LinkedList<(u64, Outcome<J, T>)>,
    /// Whether it has shut the gate.
    pub shut: bool,
}

/// The end that sends orders and collects their outcomes.
pub trait OutEnd<J: Task> {
    ghost use Rattle.std.specs.Prelude.{◌+◌, ◌-◌, ◌<◌, length, OnSome};
    ghost use Rattle.base_jobs.specs.Ready.{HasReadyJob};
    ghost use Rattle.link_ends.specs.declared.ends.Outward.{Outward};
    ghost use Rattle.link_ends.specs.Calls.{Sends, Collects};
    ghost use Rattle.link_ends.specs.Ends.{AreOf, SoundOut};
    ghost use Rattle.link_ends.specs.Fits.{Fits};

    // What no call of this end changes: which link it is, where the ends are two values, and what only the other end changes.
    ghost untouched: { Self → List ℕ };

    ghost out: { Self → Outward J J.Out };

    // How many credits were given back.
    ghost credited: { Self → ℕ };

    /// Sends an order. The number is its own on this link.
    ///
    /// # Errors
    ///
    /// Tried in this order, and the order comes back: `Closed` where the gate is shut, with the last accepted number;
    /// `Full` where as many are outstanding as may be; `Spent` after number 2^63 - 1.
    fn send(&mut self, order: Order<J>) -> Result<u64, SendError<J>>
        requires ready { HasReadyJob J.meaning order }
        ensures untouched { untouched self.new ≡ untouched self.old }
        ensures credited { credited self.new ≡ credited self.old }
        ensures sends { Sends (out self.old) (credited self.old) order (out self.new) result };

    /// The next outcome and the number of its order. `None`: all that this end sees is got.
    ///
    /// An outcome earns a credit.
    fn collect(&mut self) -> Option<(u64, Outcome<J, J::Out>)>
        ensures untouched { untouched self.new ≡ untouched self.old }
        ensures credited { credited self.new ≡ credited self.old }
        ensures collects { Collects (out self.old) (out self.new) result }
        ensures earned { OnSome result (credited self.new < (out self.new).got) }
        ensures sound { SoundOut (out self.new) (credited self.new) }
        ensures named { AreOf (Fits J.meaning) (out self.new).base (out self.new).sent (out self.new).seen };

    /// From now on one submission whose outcome was collected is no longer outstanding.
    fn credit(&mut self)
        requires { credited self.old < (out self.old).got }
        ensures untouched { untouched self.new ≡ untouched self.old }
        ensures credited { credited self.new ≡ credited self.old + 1 }
        ensures same { out self.new ≡ out self.old };

    /// How many submissions are outstanding.
    fn outstanding(&self) -> u64
        ensures value { result ≡ length (out self.now).sent - credited self.now }
        ensures sound { SoundOut (out self.now) (credited self.now) };
}

/// The end that takes orders and gives their outcomes.
pub trait InEnd<J: Task> {
    ghost use Rattle.std.specs.Prelude.{◌∷◌, [], ◌++◌, IfSome};
    ghost use Rattle.base_jobs.specs.Ready.{HasReadyJob};
    ghost use Rattle.link_ends.specs.declared.ends.Inward.{Inward};
    ghost use Rattle.link_ends.specs.Calls.{Takes, MayGive, Shuts, final_of};
    ghost use Rattle.link_ends.specs.Ends.{AreNamed, SoundIn};
    ghost use Rattle.link_ends.specs.Fits.{Fits};

    // What no call of this end changes: which link it is, where the ends are two values, and what only the other end changes.
    ghost untouched: { Self → List ℕ };

    ghost inward: { Self → Inward J J.Out };

    /// The next order, under its name. `None`: all that this end sees is taken.
    fn take(&mut self) -> Option<Envelope<J>>
        ensures untouched { untouched self.new ≡ untouched self.old }
        ensures named { AreNamed (inward self.old).base (inward self.old).taken (inward self.old).given }
        ensures takes { Takes (inward self.old) (inward self.new) result }
        ensures sound { SoundIn (inward self.new) }
        ensures ready { IfSome result (λ envelope. HasReadyJob J.meaning envelope.order) };

    /// Gives the outcome of the order of this number, which was taken and has none yet.
    fn give(&mut self, number: u64, outcome: Outcome<J, J::Out>)
        requires { MayGive (Fits J.meaning) (inward self.old) number outcome }
        ensures untouched { untouched self.new ≡ untouched self.old }
        ensures gives { inward self.new ≡ record (inward self.old) { given = (inward self.old).given ++ (number, outcome) ∷ [] } };

    /// Shuts the gate: no order is accepted from now on. The number is that of the last one that was.
    ///
    /// A second call answers the same.
    fn shut(&mut self) -> u64
        ensures untouched { untouched self.new ≡ untouched self.old }
        ensures shuts { Shuts (inward self.old) (inward self.new) result }
        ensures sound { SoundIn (inward self.new) };

    /// The number of the last accepted order, once the gate is shut.
    fn final_count(&self) -> Option<u64>
        ensures value { result ≡ final_of (inward self.now) (inward self.now).shut }
        ensures sound { SoundIn (inward self.now) };
}
