//! A storage node on two cores, for a new program to copy: reads in the foreground, compaction in the background.
//!
//! Statistics go to standard error, since times differ from run to run.
#![tactic(auto)]

use duthlwyran::{
    Assembly, CoreNo, House, Mode, Order, Parts, Queue, QueueNo, Result, SystemClock, Ticket,
    Verdict, audit, put_all_stats,
};
use std::alloc::Global;
use std::collections::BTreeSet;
use std::process::ExitCode;
use std::sync::Wait;
use std::thread::Threads;
use std::time::Clock;
use table::Table;
use work::StoreJob;

mod table;
mod work;

type Node<R> = duthlwyran::Node<StoreJob, SystemClock<R>>;

const CORES: u8 = 2;

/// The queue of reads of a core, and that of its compaction.
const READS: QueueNo = QueueNo(1);

const COMPACTION: QueueNo = QueueNo(2);

/// How long leases last, in nanoseconds. The short one runs out. The long one is given back, so the program never waits for its end.
const MILLISECOND: u64 = 1_000_000;

const HOUR: u64 = 3_600_000_000_000;

/// Starts the cores, each with a table of its own. Reads weigh nine times as much as compaction, if both have work.
fn start<R>(rt: R, alloc: Global) -> Result<Node<R>>
where
    R: Threads + Wait + Clock + Copy + Drop + Send + 'static,
{
    let (mut house, mut tables) = (House::new(alloc, CORES, 64), Vec::new(alloc));
    for core in 0..CORES {
        house.queue(CoreNo(core), "reads", 900)?;
        house.queue(CoreNo(core), "compaction", 100)?;
        let (keys, leased, reads) = (Vec::new(alloc), BTreeSet::new(alloc), 0);
        tables.push(Table {
            alloc,
            keys,
            leased,
            reads,
        })?;
    }
    let parts = Parts::of(rt, alloc, CORES)?.with_locals(tables);
    Ok(house.start_with(rt, parts)?)
}

/// Reads the value of a key.
fn read<R: Wait + Drop>(rt: &R, node: &mut Node<R>, core: CoreNo, key: u32) -> Result<u64> {
    let ticket = node.submit(Queue { core, queue: READS }, StoreJob::Read { key })?;
    Ok(node.wait(rt, ticket)?)
}

/// Submits a compaction of so many blocks, and nobody waits for it.
fn compact<R: Drop>(node: &mut Node<R>, core: CoreNo, blocks: u32) -> Result<()> {
    let (queue, left) = (COMPACTION, blocks);
    let ticket = node.submit(Queue { core, queue }, StoreJob::Compact { blocks, left })?;
    Ok(node.runtime.detach(ticket)?)
}

/// Commits a key: core 0 writes it, and its job parks until core 1 has answered. Whoever hears that answer wakes the job, so it is polled
/// twice and never in vain. A wake that comes before the park is kept.
fn commit<R: Wait + Drop>(rt: &R, node: &mut Node<R>, key: u32) -> Result<u64> {
    let (core, queue, is_written) = (CoreNo(0), READS, false);
    let ticket = node.submit(Queue { core, queue }, StoreJob::Commit { key, is_written })?;
    let name = ticket.name();
    read(rt, node, CoreNo(1), key)?;
    let wake = Order::Wake(name.from, name.number);
    let woken = node.runtime.submit(core, wake)?;
    node.runtime.detach(woken)?;
    Ok(node.wait(rt, ticket)?)
}

/// Leases a key of core 0 for so many nanoseconds.
fn lease<R: Drop>(node: &mut Node<R>, key: u32, time: u64) -> Result<Ticket> {
    let (core, queue, is_held) = (CoreNo(0), READS, false);
    let job = StoreJob::Lease { key, time, is_held };
    Ok(node.submit(Queue { core, queue }, job)?)
}

/// Gives a lease back: its key is taken out of the table of its core, and then its job is woken.
fn give_back<R: Wait + Drop>(rt: &R, node: &mut Node<R>, key: u32, lease: Ticket) -> Result<()> {
    let (core, queue) = (CoreNo(0), READS);
    let given = node.submit(Queue { core, queue }, StoreJob::GiveBack { key })?;
    node.wait(rt, given)?;
    let name = lease.name();
    let wake = Order::Wake(name.from, name.number);
    let woken = node.runtime.submit(core, wake)?;
    Ok(node.runtime.detach(woken)?)
}

/// Two leases: one runs out, and the other is given back before.
fn lend<R: Wait + Drop + Print>(rt: &R, node: &mut Node<R>) -> Result<()> {
    let short = lease(node, 1, MILLISECOND)?;
    let long = lease(node, 2, HOUR)?;
    give_back(rt, node, 2, long)?;
    let (short, long) = (node.wait(rt, short)?, node.wait(rt, long)?);
    Ok(println!(rt; "leases that ran out: {short} of a millisecond, {long} of an hour")?)
}

/// A compaction on each core, reads beside it, a commit, and leases.
fn serve<R: Wait + Drop + Print>(rt: &R, node: &mut Node<R>) -> Result<()> {
    compact(node, CoreNo(0), 1000)?;
    compact(node, CoreNo(1), 1000)?;
    let mut sum: u64 = 0;
    for key in 0..40 {
        sum = sum.saturating_add(read(rt, node, CoreNo(key as u8 % CORES), key)?);
    }
    let key = commit(rt, node, 7)?;
    println!(rt; "read {sum}, committed {key}")?;
    lend(rt, node)
}

/// Tells the statistics, and whether the journals are sound.
fn judge<R: Print + Eprint>(rt: &R, alloc: Global, journals: &Assembly) -> Result<ExitCode> {
    let mut page = String::new(alloc);
    put_all_stats(alloc, journals, &mut page)?;
    eprint!(rt; "{page}")?;
    let is_sound = matches!(audit(alloc, journals)?, Verdict::Sound);
    println!(rt; "sound: {is_sound}")?;
    Ok(ExitCode::from(!is_sound as u8))
}

/// Whatever comes of the work, the node finishes. Work that was broken off may have left a job parked, for which mode `Finish` would wait.
fn main(rt: HostRuntime) -> Result<ExitCode> {
    let mut node = start(rt, rt.alloc())?;
    let served = serve(&rt, &mut node);
    let mode = match &served {
        Ok(()) => Mode::Finish,
        Err(_) => Mode::Return,
    };
    let (journals, tables) = node.finish(&rt, mode)?;
    for table in &tables {
        println!(rt; "a table: {} reads, {} keys", table.reads, table.keys.len())?;
    }
    let code = judge(&rt, rt.alloc(), &journals)?;
    served?;
    Ok(code)
}
