//! What stands behind a handle of a house.

ghost use Rattle.std.specs.Prelude.{◌≡◌, ◌↔◌, IsTrue};
ghost use Rattle.host_calls.specs.Links.{ClosesTold, DeliversTold, IsTold, ShutsTold};
ghost use Rattle.host_calls.specs.Members.{IsActor, OnCore, OnSleepers};
ghost use Rattle.host_calls.specs.Orders.{mode_of_number};
ghost use Rattle.host_calls.specs.Sleepers.{SettlesUntil, TellsNext, WakesDueTold};
ghost use Rattle.host_calls.specs.Turns.{NextsTold, SettlesTold, StepsTold, step_of};

use crate::code::Code;
use crate::house::KeptHouse;
use crate::links::{close, deliver, drained, shut};
use crate::sleepers::Sleepers;
use crate::turns::{TurnTold, next, settle, settle_and_next};
use host_core::Hosted;
use host_house::Outside;
use host_text::EndedHouse;

/// The house, an actor of it, what it left behind, or the timers of a core.
#[derive(Drop)]
pub enum Member {
    /// The seats that nobody took yet, and the journals that were handed in.
    House(KeptHouse),
    /// A core.
    Core(Hosted),
    /// The outside actor.
    Outside(Outside),
    /// The journals of all actors.
    Ended(EndedHouse),
    /// The timers of the jobs of one core, in this house or alone.
    Sleepers(Sleepers),
}

impl Member {
    /// Whether it is an actor.
    pub(crate) fn is_actor(&self) -> bool
        ensures { IsTrue result ↔ IsActor self.now }
    {
        match self {
            Member::Core(_) | Member::Outside(_) => true,
            Member::House(_) | Member::Ended(_) | Member::Sleepers(_) => false,
        }
    }

    /// Tells which job of the core to run now.
    pub fn next(&mut self, turn: &mut TurnTold) -> Code
        ensures { OnCore self.old (turn.new ≡ turn.old) result self.new (λ old told new. NextsTold old turn.old told turn.new new) }
    {
        match self {
            Member::Core(core) => next(core, turn),
            _ => Code::Empty,
        }
    }

    /// Settles the run of the job that `next` told.
    pub fn settle(&mut self, step: u32, answer: u64, spent: u64) -> Code
        ensures { OnCore self.old (Unit {0}) result self.new (λ old told new. SettlesTold old (step_of step answer) spent told new) }
    {
        match self {
            Member::Core(core) => settle(core, step, answer, spent),
            _ => Code::Empty,
        }
    }

    /// Settles the run of the job that `next` told, and tells which job to run now.
    pub fn step(&mut self, step: u32, answer: u64, spent: u64, turn: &mut TurnTold) -> Code
        ensures { OnCore self.old (turn.new ≡ turn.old) result self.new (λ old told new. StepsTold old (step_of step answer) spent turn.old told turn.new new) }
    {
        match self {
            Member::Core(core) => settle_and_next(core, step, answer, spent, turn),
            _ => Code::Empty,
        }
    }

    /// Settles the run of the job that `next` told. If it parks, its job sleeps until this time.
    pub fn settle_until(
        &mut self,
        timers: &mut Member,
        step: u32,
        answer: u64,
        spent: u64,
        time: u64,
    ) -> Code
        ensures { OnCore self.old (timers.new ≡ timers.old) result self.new (λ old told new.
            OnSleepers timers.old (new ≡ old) told timers.new (λ before code after. SettlesUntil (step_of step answer) (record { spent = spent; until = time }) old before code new after)) }
    {
        match self {
            Member::Core(core) => match timers {
                Member::Sleepers(sleepers) => {
                    sleepers.settle_until(core, step, answer, spent, time)
                }
                _ => Code::Empty,
            },
            _ => Code::Empty,
        }
    }

    /// Wakes the job of the core whose timer is due next, if one is due by now.
    pub fn wake_due(&mut self, timers: &mut Member, now: u64) -> Code
        ensures { OnCore self.old (timers.new ≡ timers.old) result self.new (λ old told new.
            OnSleepers timers.old (new ≡ old) told timers.new (λ before code after. WakesDueTold now old before code new after)) }
    {
        match self {
            Member::Core(core) => match timers {
                Member::Sleepers(sleepers) => sleepers.wake_due(core, now),
                _ => Code::Empty,
            },
            _ => Code::Empty,
        }
    }

    /// Tells when the next timer is due.
    pub fn next_time(&self, time: &mut u64) -> Code
        ensures { OnSleepers self.now (time.new ≡ time.old) result self.now (λ before code after. TellsNext before time.old code time.new × (after ≡ before)) }
    {
        match self {
            Member::Sleepers(sleepers) => sleepers.next_time(time),
            _ => Code::Empty,
        }
    }

    /// Delivers the next order of this actor to the core, if one shows.
    pub fn deliver(&mut self, sender: u32) -> Code
        ensures { OnCore self.old (Unit {0}) result self.new (λ old told new. DeliversTold sender old told new) }
    {
        match self {
            Member::Core(core) => deliver(core, sender),
            _ => Code::Empty,
        }
    }

    /// Shuts the gate of this actor in the core.
    pub fn shut(&mut self, sender: u32) -> Code
        ensures { OnCore self.old (Unit {0}) result self.new (λ old told new. ShutsTold sender old told new) }
    {
        match self {
            Member::Core(core) => shut(core, sender),
            _ => Code::Empty,
        }
    }

    /// Closes the core by itself, by the number of a mode.
    pub fn close(&mut self, mode: u32) -> Code
        ensures { OnCore self.old (Unit {0}) result self.new (λ old told new. ClosesTold (mode_of_number mode) old told new) }
    {
        match self {
            Member::Core(core) => close(core, mode),
            _ => Code::Empty,
        }
    }

    /// Whether the core has come to its end.
    pub fn drained(&mut self) -> Code
        ensures { OnCore self.old (Unit {0}) result self.new (λ old told new. (new ≡ old) × IsTold old told) }
    {
        match self {
            Member::Core(core) => drained(core),
            _ => Code::Empty,
        }
    }
}
