//! The calls on a house of which notes tell.

ghost use Rattle.host_house.specs.Outside.{StaysOutside};
ghost use Rattle.judge_replay.specs.Reads.{GoesOn};

use base_jobs::Step;
use base_words::{ActorNo, CoreNo, JobId, Note, Order, Shares, Ticket};
use host_core::Hosted;
use host_house::Outside;

/// The order of which a note tells. The host has no work of its own for a job, so each has the number 0.
fn order_of(order: &Order<()>) -> Order<u64> {
    match order {
        Order::Job(queue, _) => Order::Job(*queue, 0),
        Order::Create(shares) => Order::Create(*shares),
        Order::SetShares(queue, shares) => Order::SetShares(*queue, *shares),
        Order::Close(queue, mode) => Order::Close(*queue, *mode),
        Order::CloseCore(mode) => Order::CloseCore(*mode),
        Order::Wake(from, number) => Order::Wake(*from, *number),
    }
}

/// Settles the poll of the job that is out.
fn settles(core: &mut Hosted, step: Step<u64>, time: u64)
    ensures { GoesOn core.old core.new }
{
    let _ = core.settle(step, time);
}

/// Goes on with the turn of the core, or begins one.
fn goes_on(core: &mut Hosted)
    ensures { GoesOn core.old core.new }
{
    let _ = core.next();
}

/// Ends the open turn of the core, unless it may go on.
fn ends_turn(core: &mut Hosted)
    ensures { GoesOn core.old core.new }
{
    let _ = core.follow();
}

/// Delivers the next order of this sender. Whether one shows.
fn delivers(core: &mut Hosted, sender: ActorNo) -> bool
    ensures { GoesOn core.old core.new }
{
    core.deliver(sender).unwrap_or(true)
}

/// Collects the next outcome of this core. Whether one shows.
fn collects(core: &mut Hosted, from: CoreNo) -> bool
    ensures { GoesOn core.old core.new }
{
    core.collect_one(from).unwrap_or(true)
}

/// Sends this order.
fn sends(core: &mut Hosted, to: CoreNo, order: &Order<()>)
    ensures { GoesOn core.old core.new }
{
    let _ = core.submit(to, order_of(order));
}

fn redeems(core: &mut Hosted, name: JobId)
    ensures { GoesOn core.old core.new }
{
    drop(core.redeem(Ticket::named(name)));
}

fn detaches(core: &mut Hosted, name: JobId)
    ensures { GoesOn core.old core.new }
{
    let _ = core.detach(Ticket::named(name));
}

/// Makes a queue at the opening. If that is over, or there is no memory, nothing changes.
fn creates(core: &mut Hosted, shares: Shares)
    ensures { GoesOn core.old core.new }
{
    if core.may_create() {
        let _ = core.create(shares);
    }
}

/// Makes the call of which a note tells that a core wrote. Whether all showed that the call asks for.
pub(crate) fn core_acts(core: &mut Hosted, note: &Note<u64>) -> bool
    ensures { GoesOn core.old core.new }
{
    if let Note::Created(_, shares) = note {
        creates(core, *shares);
        return true;
    }
    core_steps(core, note)
}

/// The same of a note that isn't of the opening.
fn core_steps(core: &mut Hosted, note: &Note<u64>) -> bool
    ensures { GoesOn core.old core.new }
{
    match note {
        Note::Took(name, _) | Note::Back(name, _) | Note::Answered(name, _) => {
            return delivers(core, name.from);
        }
        Note::Collected(name, _) => return collects(core, name.to),
        Note::Sent(name, order) => sends(core, name.to, order),
        Note::Redeemed(name, _) => redeems(core, *name),
        Note::Detached(name) => detaches(core, *name),
        Note::Shut(sender, _) => {
            let _ = core.shut(*sender);
        }
        Note::CoreClosed(mode) => {
            let _ = core.close(*mode);
        }
        Note::Yield(_, time) => settles(core, Step::Yield, *time),
        Note::Park(_, time) | Note::Stayed(_, time) => settles(core, Step::Park, *time),
        Note::Done(_, time, value) => settles(core, Step::Done(*value), *time),
        Note::Turned(..) => ends_turn(core),
        _ => goes_on(core),
    }
    true
}

/// The same of a note that the outside actor wrote.
pub(crate) fn outside_acts(outside: &mut Outside, note: &Note<u64>) -> bool
    ensures { StaysOutside outside.old outside.new }
{
    match note {
        Note::Collected(name, _) => return outside.collect_one(name.to).unwrap_or(true),
        Note::Sent(name, order) => {
            let _ = outside.submit(name.to, order_of(order));
        }
        Note::Redeemed(name, _) => drop(outside.redeem(Ticket::named(*name))),
        Note::Detached(name) => {
            let _ = outside.detach(Ticket::named(*name));
        }
        _ => {}
    }
    true
}
