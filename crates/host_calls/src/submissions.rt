//! What an actor does with its submissions.

ghost use Rattle.std.specs.Prelude.{◌≡◌};
ghost use Rattle.host_calls.specs.Submissions.{CollectsOn, CollectsTold, PostsOn, SendsTold, ShowsTold, code_of_count, code_of_sent, count_told, name_after};
ghost use Rattle.host_calls.specs.Tickets.{DetachesOn, DetachesTold, RedeemsOn, RedeemsTold};

use crate::code::{Code, code_of};
use crate::links::tell_shut;
use crate::member::Member;
use crate::names::{Name, ticket, told};
use crate::outcomes::{OUTCOME_SIZE, OutcomeTold, tell};
use base_words::{CoreNo, Order, Outcome, Ticket};
use host_core::{HostJob, Refusal};

impl Member {
    /// Submits an order to a core, and tells its name.
    pub fn send(&mut self, to: u32, order: Result<Order<u64>, Code>, name: &mut Name) -> Code
        ensures { SendsTold self.old to order name.old result name.new self.new }
    {
        if !self.is_actor() {
            return Code::Empty;
        }
        let order = match order {
            Ok(order) => order,
            Err(code) => return code,
        };
        let Ok(to) = u8::try_from(to) else {
            return Code::UnknownCore;
        };
        tell_sent(self.post(CoreNo(to), order), name)
    }

    /// Submits an order. Nobody but an actor may.
    fn post(&mut self, to: CoreNo, order: Order<u64>) -> Result<Ticket, Refusal>
        ensures { PostsOn self.old to order result self.new }
    {
        match self {
            Member::Core(core) => core.submit(to, order),
            Member::Outside(outside) => outside.submit(to, order),
            _ => Err(Refusal::NoCore),
        }
    }

    /// Collects all outcomes that the link to this core shows, and tells how many there were.
    pub fn collect(&mut self, core: u32, count: &mut u64) -> Code
        ensures { CollectsTold self.old core count.old result count.new self.new }
    {
        if !self.is_actor() {
            return Code::Empty;
        }
        let Ok(core) = u8::try_from(core) else {
            return Code::UnknownCore;
        };
        tell_count(self.collect_from(CoreNo(core)), count)
    }

    /// Collects the outcomes. Nobody but an actor has any.
    fn collect_from(&mut self, from: CoreNo) -> Result<usize, Refusal>
        ensures { CollectsOn self.old from result self.new }
    {
        match self {
            Member::Core(core) => core.collect(from),
            Member::Outside(outside) => outside.collect(from),
            _ => Err(Refusal::NoCore),
        }
    }

    /// Tells the outcome of a submission, which is gone from then on.
    pub fn redeem(&mut self, name: &Name, outcome: &mut OutcomeTold) -> Code
        ensures { RedeemsTold self.old name.now outcome.old result outcome.new self.new }
    {
        if !self.is_actor() {
            return Code::Empty;
        }
        if outcome.size != OUTCOME_SIZE {
            return Code::BadNumber;
        }
        let Some(ticket) = ticket(name) else {
            return Code::Unknown;
        };
        tell(self.redeem_by(ticket), outcome)
    }

    /// Redeems a ticket. Nobody but an actor has one.
    fn redeem_by(&mut self, ticket: Ticket) -> Result<Outcome<HostJob, u64>, Refusal>
        ensures { RedeemsOn self.old ticket result self.new }
    {
        match self {
            Member::Core(core) => core.redeem(ticket),
            Member::Outside(outside) => outside.redeem(ticket),
            _ => Err(Refusal::Unknown),
        }
    }

    /// Nobody will ask for the outcome of a submission.
    pub fn detach(&mut self, name: &Name) -> Code
        ensures { DetachesTold self.old name.now result self.new }
    {
        if !self.is_actor() {
            return Code::Empty;
        }
        let Some(ticket) = ticket(name) else {
            return Code::Unknown;
        };
        tell_shut(self.detach_by(ticket))
    }

    /// Detaches a ticket. Nobody but an actor has one.
    fn detach_by(&mut self, ticket: Ticket) -> Result<(), Refusal>
        ensures { DetachesOn self.old ticket result self.new }
    {
        match self {
            Member::Core(core) => core.detach(ticket),
            Member::Outside(outside) => outside.detach(ticket),
            _ => Err(Refusal::Unknown),
        }
    }

    /// Whether a link shows an order or an outcome that wasn't seen yet. No clause says that the answer is right.
    pub fn shows(&mut self) -> Code
        ensures { ShowsTold self.old result self.new }
    {
        let shows = match self {
            Member::Core(core) => core.shows(),
            Member::Outside(outside) => outside.shows(),
            _ => return Code::Empty,
        };
        if shows { Code::Ok } else { Code::Idle }
    }
}

/// Tells the name of a submission, or why there is none.
fn tell_sent(sent: Result<Ticket, Refusal>, name: &mut Name) -> Code
    ensures code { result ≡ code_of_sent sent }
    ensures name { name.new ≡ name_after sent name.old }
{
    match sent {
        Ok(ticket) => {
            *name = told(ticket.name());
            Code::Ok
        }
        Err(refusal) => code_of(refusal),
    }
}

/// Tells how many outcomes were collected, or why none were.
fn tell_count(collected: Result<usize, Refusal>, count: &mut u64) -> Code
    ensures code { result ≡ code_of_count collected }
    ensures count { count.new ≡ count_told collected count.old }
{
    match collected {
        Ok(found) => {
            *count = found as u64;
            Code::Ok
        }
        Err(refusal) => code_of(refusal),
    }
}
