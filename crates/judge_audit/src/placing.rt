//! The key at which each queue waits for its turn, as its account says.

ghost use Rattle.std.specs.Prelude.{◌≡◌};
ghost use Rattle.judge_audit.specs.Waiting.{ArePlaced, IsPlaced, IsPlacedIf, runtime_waiting};
ghost use Rattle.judge_audit.specs.Winners.{IsTree};

use crate::least::Least;
use base_words::QueueNo;
use note_facts::{Account, Accounts, Recent};

/// The virtual runtime at which a queue waits for its turn: the last one if it has no work.
fn runtime_waiting(account: &Account) -> u128
    ensures { result ≡ runtime_waiting account.now }
{
    if account.has_jobs() {
        account.virtual_runtime
    } else {
        u128::MAX
    }
}

/// Gives a queue the key at which it waits.
fn place(least: &mut Least, accounts: &Accounts, queue: QueueNo)
    requires { IsTree least.old }
    ensures tree { IsTree least.new }
    ensures placed { IsPlaced accounts.now least.old least.new queue }
{
    let account = accounts.of(queue);
    let vr = runtime_waiting(&account);
    least.set(queue, vr);
}

/// Gives a queue, if there is one, the key at which it waits.
pub fn place_if(least: &mut Least, accounts: &Accounts, queue: Option<QueueNo>)
    requires { IsTree least.old }
    ensures tree { IsTree least.new }
    ensures placed { IsPlacedIf accounts.now least.old least.new queue }
{
    if let Some(queue) = queue {
        place(least, accounts, queue);
    }
}

/// Gives each queue that was told the key at which it waits.
#[tactic(auto, using(crate::proofs::Placings::all_placed))]
pub fn place_told(least: &mut Least, accounts: &Accounts, recent: &Recent)
    requires { IsTree least.old }
    ensures tree { IsTree least.new }
    ensures placed { ArePlaced accounts.now recent.now least.old least.new }
{
    for index in 0..recent.size() {
        let queue = recent.queue_at(index);
        place(least, accounts, queue);
    }
}
