//! A broker on three cores: messages are published, indexed by the next core, and fetched in the background.
//!
//! Statistics go to standard error, since times differ from run to run.
#![tactic(auto)]

ghost use Rattle.std.specs.Prelude.{◌≡◌, false, length, IfSome};
ghost use Rattle.example_broker.specs.Over.{is_over};

use duthlwyran::{
    Asked, Assembly, CoreNo, House, Mode, Order, Queue, QueueNo, Result, SystemClock, Ticket,
    Verdict, WaitError, audit, open, put_all_stats,
};
use std::alloc::Global;
use std::process::ExitCode;
use std::sync::Wait;
use std::thread::Threads;
use std::time::Clock;
use work::{BrokerJob, CORES, FETCH, PUBLISH};

mod work;

type Node<R> = duthlwyran::Node<BrokerJob, SystemClock<R>>;

/// So many messages are published on each core.
const MESSAGES: u32 = 100;

/// Starts the cores, with the shares of publishing, of indexing and of fetching.
fn start<R>(rt: R, alloc: Global) -> Result<Node<R>>
where
    R: Threads + Wait + Clock + Copy + Drop + Send + 'static,
{
    let mut house = House::new(alloc, CORES, 128);
    for core in 0..CORES {
        house.queue(CoreNo(core), "publish", 900)?;
        house.queue(CoreNo(core), "index", 90)?;
        house.queue(CoreNo(core), "fetch", 10)?;
    }
    Ok(house.start(rt)?)
}

/// Submits a job that hasn't answered.
fn submit<R: Drop>(
    node: &mut Node<R>,
    core: CoreNo,
    queue: QueueNo,
    job: BrokerJob,
) -> Result<Ticket>
    requires open { is_over job ≡ false }
{
    Ok(node.submit(Queue { core, queue }, job)?)
}

/// Waits for the answer of a job.
fn answer<R: Wait + Drop>(rt: &R, node: &mut Node<R>, ticket: Ticket) -> Result<u64> {
    Ok(node.wait(rt, ticket)?)
}

/// Publishes the messages of a core, and keeps their tickets.
fn publish<R: Drop>(node: &mut Node<R>, on: CoreNo, tickets: &mut Vec<Ticket>) -> Result<()> {
    for before in 0..MESSAGES {
        let job = BrokerJob::Publish {
            message: before + 1,
            on,
            kept: None,
            wait: None,
        };
        tickets.push(submit(node, on, PUBLISH, job)?)?;
    }
    Ok(())
}

/// Waits for these jobs. The sum of their answers.
fn sum_of<R: Wait + Drop>(rt: &R, node: &mut Node<R>, tickets: &[Ticket]) -> Result<u64> {
    let mut sum: u64 = 0;
    for ticket in tickets {
        sum = sum.saturating_add(answer(rt, node, *ticket)?);
    }
    Ok(sum)
}

/// Takes fetched places: as many as the number says that was redeemed.
fn taken(asked: &mut Asked<Vec<u64>>, number: u64) -> Option<Vec<u64>>
    ensures { IfSome result (λ places. length places.items ≡ number) }
{
    asked.take(number)
}

/// Has a job fetch places, and takes them. How many they are.
fn fetch<R: Wait + Drop>(rt: &R, node: &mut Node<R>, alloc: Global) -> Result<usize> {
    let (reply, mut asked) = open(alloc)?;
    let places = Vec::new(alloc);
    let ticket = submit(node, CoreNo(0), FETCH, BrokerJob::Fetch { places, reply })?;
    let number = answer(rt, node, ticket)?;
    Ok(match taken(&mut asked, number) {
        Some(places) => places.len(),
        None => 0,
    })
}

/// Closes the queue of a job that holds places, which then comes back with them. How many they are.
fn read_back<R: Wait + Drop>(rt: &R, node: &mut Node<R>, ticket: Ticket) -> Result<usize> {
    let closing = Order::Close(FETCH, Mode::Return);
    let closed = node.runtime.submit(CoreNo(0), closing)?;
    node.runtime.detach(closed)?;
    let Err(back) = node.wait(rt, ticket) else {
        return Ok(0);
    };
    match back.into_error() {
        WaitError::Returned(_, Order::Job(_, BrokerJob::Hold { places })) => Ok(places.len()),
        _ => Ok(0),
    }
}

/// Publishes, and then fetches in both ways. A job that holds places and one that fetches them are polled by turns, so the first has them
/// all when the second has answered.
fn serve<R: Wait + Print + Drop>(rt: &R, node: &mut Node<R>, alloc: Global) -> Result<()> {
    let mut tickets = Vec::new(alloc);
    for core in 0..CORES {
        publish(node, CoreNo(core), &mut tickets)?;
    }
    let sum = sum_of(rt, node, &tickets)?;
    println!(rt; "published {}, places {sum}", tickets.len())?;
    let places = Vec::new(alloc);
    let held = submit(node, CoreNo(0), FETCH, BrokerJob::Hold { places })?;
    let count = fetch(rt, node, alloc)?;
    println!(rt; "fetched {count} places")?;
    let count = read_back(rt, node, held)?;
    Ok(println!(rt; "a job came back with {count} places")?)
}

/// Tells the statistics, and whether the journals are sound.
fn judge<R: Print + Eprint>(rt: &R, alloc: Global, journals: &Assembly) -> Result<ExitCode> {
    let mut page = String::new(alloc);
    put_all_stats(alloc, journals, &mut page)?;
    eprint!(rt; "{page}")?;
    let is_sound = matches!(audit(alloc, journals)?, Verdict::Sound);
    println!(rt; "sound: {is_sound}")?;
    Ok(ExitCode::from(!is_sound as u8))
}

/// Whatever comes of the work, the node finishes. Work that was broken off may have left a job parked, for which mode `Finish` would wait.
fn main(rt: HostRuntime) -> Result<ExitCode> {
    let mut node = start(rt, rt.alloc())?;
    let served = serve(&rt, &mut node, rt.alloc());
    let mode = match &served {
        Ok(()) => Mode::Finish,
        Err(_) => Mode::Return,
    };
    let (journals, _states) = node.finish(&rt, mode)?;
    let code = judge(&rt, rt.alloc(), &journals)?;
    served?;
    Ok(code)
}
