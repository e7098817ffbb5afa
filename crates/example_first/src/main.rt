//! A first program: it starts a core, submits a job, waits for it, and finishes.
#![tactic(auto)]

use duthlwyran::{CoreNo, House, Mode, Plain, Result, Step, Work};

/// Counts up to a number, a step in each poll.
#[derive(Drop)]
struct Count(u64, u64);

impl Work for Count {
    fn step(&mut self) -> Step<u64> {
        if self.0 >= self.1 {
            return Step::Done(self.1);
        }
        self.0 += 1;
        Step::Yield
    }
}

fn main(rt: HostRuntime) -> Result<()> {
    let mut house = House::new(rt.alloc(), 1, 64);
    let requests = house.queue(CoreNo(0), "requests", 900)?;
    let mut node = house.start(rt)?;
    let ticket = node.submit(requests, Plain::new(Count(0, 1000)))?;
    let count = node.wait(&rt, ticket)?;
    println!(rt; "counted to {count}")?;
    node.finish(&rt, Mode::Finish)?;
    Ok(())
}
