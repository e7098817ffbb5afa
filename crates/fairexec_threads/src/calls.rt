//! The orders of a script's outside actor.

ghost use Rattle.std.specs.Prelude.{◌≡◌, ◌<◌, ◌≤◌, [], length, Some};
ghost use Rattle.base_words.specs.declared.order.Mode.TheVariants as mode;
ghost use Rattle.base_words.specs.declared.order.Order.TheVariants as order;
ghost use Rattle.fairexec_script.specs.ThreadsLimits.{IsToldOf, AreTold, HasSpare};
ghost use Rattle.fairexec_threads.specs.Counting.{IsOfScript, HasPlace, CanClose, AreClosedBelow};
ghost use Rattle.fairexec_threads.specs.Offers.{HasWords, Offers, OffersAll, closings};
ghost use Rattle.fairexec_script.specs.TextLimits.{most_lines};

use crate::house::House;
use base_jobs::ScriptJob;
use base_words::{CoreNo, Mode, Order};

/// How many polls the job of an order has, 0 if it has none. Each job that is counted is seen to be a script's.
fn polls_of(order: &Order<ScriptJob>) -> usize
    ensures { HasWords order.now }
{
    match order {
        Order::Job(_, job) => job.poll_count(),
        _ => 0,
    }
}

/// Sends one order to its core.
fn offer(house: &mut House, core: CoreNo, order: Order<ScriptJob>)
    requires told { IsToldOf house.old.desk.cores (core, order) }
    requires place { HasPlace core house.old }
    ensures { Offers (core, order) house.old house.new }
{
    let _polls = polls_of(&order);
    let _answer = house.submit(core, order);
}

/// Sends all orders, each to its core, in this order.
pub(crate) fn offer_all(house: &mut House, orders: Vec<(CoreNo, Order<ScriptJob>)>)
    requires script { IsOfScript house.old }
    requires none { house.old.desk.journal.notes ≡ [] }
    requires told { AreTold (Some (house.old.desk.cores, house.old.desk.cap)) orders.items }
    requires spare { HasSpare (Some (house.old.desk.cores, house.old.desk.cap)) orders.items }
    requires short { length orders.items ≤ most_lines }
    ensures offers { OffersAll orders.items house.old house.new }
    ensures ready { CanClose house.new }
{
    for told in orders {
        let (core, order) = told;
        offer(house, core, order);
    }
}

/// Closes one core in mode `Finish`.
fn close(house: &mut House, core: CoreNo)
    requires there { core < house.old.desk.cores }
    requires place { HasPlace core house.old }
    ensures { Offers (core, order.CloseCore mode.Finish) house.old house.new }
{
    let _answer = house.close_core(core, Mode::Finish);
}

/// Closes each core in mode `Finish`, from core 0 upwards.
pub(crate) fn close_all(house: &mut House, cores: u8)
    requires cores { house.old.desk.cores ≡ cores }
    requires ready { CanClose house.old }
    ensures offers { OffersAll (closings cores) house.old house.new }
    ensures closed { AreClosedBelow house.new.desk.cores house.new }
{
    for core in 0..cores {
        close(house, CoreNo(core));
    }
}
