//! A script job whose polls are written one after another, where it stands.

ghost use Rattle.std.specs.Prelude.{◌≡◌, ◌<◌, length};
ghost use Rattle.base_jobs.specs.declared.poll.Poll.TheVariants.{Done, Park, Submit};
ghost use Rattle.base_jobs.specs.Filling as spec;

use super::ScriptJob;
use crate::poll::{Early, Yielding};
use base_words::{CoreNo, QueueNo};

impl ScriptJob {
    /// One more poll that yields, before the last one. A job has at most 64 polls.
    pub fn add_yield(&mut self, told: u64)
        requires few { length self.old.polls < 64 }
        requires fresh { self.old.polled ≡ 0 }
        ensures polls { self.new.polls ≡ spec.with_yield told self.old.polls }
        ensures fresh { self.new.polled ≡ 0 }
    {
        self.yields.push(Yielding {
            told,
            does: Early::Yields,
        });
    }

    /// One more poll that submits and yields, before the last one. A job has at most 64 polls.
    pub fn add_submit(&mut self, told: u64, core: CoreNo, queue: QueueNo)
        requires few { length self.old.polls < 64 }
        requires fresh { self.old.polled ≡ 0 }
        ensures polls { self.new.polls ≡ spec.with_poll (Submit told core queue) self.old.polls }
        ensures fresh { self.new.polled ≡ 0 }
    {
        self.yields.push(Yielding {
            told,
            does: Early::Submits(core, queue),
        });
    }

    /// One more poll that is parked, before the last one. A job has at most 64 polls.
    pub fn add_park(&mut self, told: u64)
        requires few { length self.old.polls < 64 }
        requires fresh { self.old.polled ≡ 0 }
        ensures polls { self.new.polls ≡ spec.with_poll (Park told) self.old.polls }
        ensures fresh { self.new.polled ≡ 0 }
    {
        self.yields.push(Yielding {
            told,
            does: Early::Parks,
        });
    }

    /// Another last poll, which tells the time and is done with the value.
    pub fn set_last(&mut self, told: u64, value: u64)
        requires { self.old.polled ≡ 0 }
        ensures polls { self.new.polls ≡ spec.with_last (Done told value) self.old.polls }
        ensures fresh { self.new.polled ≡ 0 }
    {
        self.last_told = told;
        self.answer = value;
    }
}
