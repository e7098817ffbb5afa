//! A script for threads as far as its lines are judged.
//!
//! Limits are tried as the lines come, each by a count that is kept here: queues and orders of a core, polls of all jobs. So a script that is
//! too long for threads is refused at the line that is too much, and no event of it is kept behind.

ghost use Rattle.std.specs.Prelude.{◌≡◌, Ok, Err, IfOk, IfErr, None, Some, OnOk, OnErr, length, nat_lt, ◌<◌, ◌≤◌, ◌+◌, ◌++◌, ◌∷◌, []};
ghost use Rattle.text_words.specs.Words.{words};
ghost use Rattle.fairexec_script.specs.Limits.{IsCoreOf, IsSize, IsBurst, MayFollow, IsEventFor};
ghost use Rattle.text_bytes.specs.Faults.{IfCause};
ghost use Rattle.text_bytes.specs.declared.fault.Stop.TheVariants.{Memory};
ghost use Rattle.fairexec_script.specs.ThreadsDrafts as spec;
ghost use Rattle.fairexec_script.specs.Orders as orders;
ghost use Rattle.fairexec_script.specs.ThreadsLimits.{IsToldFor, SendsNoPark, TellsNoPark};

use crate::counts::CoreCounts;
use crate::event::ScriptEvent;
use crate::fault::ThreadsCause;
use crate::kind::{ScriptDraft, is_skipped};
use crate::limits::MOST_QUEUE_LINES;
use crate::line::Line;
use crate::threads_line::{line_told, size_told};
use crate::threads_script::ThreadsScript;
use base_jobs::ScriptJob;
use base_words::{CoreNo, Order, Shares};
use std::alloc::Global;
use std::marker::Model;
use text_bytes::Stop;
use text_words::Cause;

/// The most polls of all jobs together. It is a limit of its own, though as many lines are allowed.
const MOST_POLLS: u32 = 4096;

/// A script for threads as far as its lines are judged.
#[derive(Drop)]
pub(crate) struct Draft {
    size: Option<(u8, u16)>,
    /// How many polls a turn may have: 1 before a line tells it.
    burst: u8,
    queues: Vec<(CoreNo, Shares)>,
    /// How many `queue` lines each core has.
    lines: CoreCounts,
    orders: Vec<(CoreNo, Order<ScriptJob>)>,
    /// How many orders each core gets.
    sent: CoreCounts,
    /// How many polls the jobs have together.
    polls: u32,
}

impl Model for Draft {
    ghost use Rattle.std.specs.Prelude.{◌≤◌, ◌≡◌};
    ghost use Rattle.fairexec_script.specs.Orders.{most_polls, polls_in};
    ghost use Rattle.fairexec_script.specs.ThreadsDrafts.{Drafted};
    ghost use Rattle.fairexec_script.specs.ThreadsLimits.{IsWithinLimits, AreCounted};

    ghost Value = { Drafted };

    ghost view = { λ d. record { size = d.size; burst = d.burst; queues = d.queues.items; orders = d.orders.items } };

    ghost invariant = { λ d. IsWithinLimits
        (record { size = d.size; burst = d.burst; queues = d.queues.items; orders = d.orders.items })
        × (d.polls ≡ polls_in d.orders.items) × (d.polls ≤ most_polls)
        × AreCounted d.queues.items d.orders.items d.lines d.sent };
}

impl Draft {
    /// Before the first line.
    pub(crate) fn new(alloc: Global) -> Draft
        ensures { result ≡ spec.empty_draft }
    {
        Draft {
            size: None,
            burst: 1,
            queues: Vec::new(alloc),
            lines: CoreCounts::new(),
            orders: Vec::new(alloc),
            sent: CoreCounts::new(),
            polls: 0,
        }
    }

    /// What a line that isn't skipped says at its place.
    fn line_at(&self, text: &[u8]) -> Result<Line, ThreadsCause>
        ensures line { result
            ≡ spec.line_at self.now.size (nat_lt 0 (length self.now.orders)) (words text.now) }
        ensures follows { IfOk result (MayFollow self.now.size) }
        ensures never { IfOk result TellsNoPark }
    {
        match self.size {
            None => size_told(text),
            Some((cores, _)) => line_told(text, cores, !self.orders.is_empty()),
        }
    }

    /// Takes what a line says.
    fn add(&mut self, line: Line) -> Result<(), Stop<ThreadsCause>>
        requires follows { MayFollow self.old.size line }
        requires never { TellsNoPark line }
        ensures ok { OnOk result (spec.with_line self.old line ≡ Ok self.new) }
        ensures faulty { IfErr result (IfCause (λ cause. spec.with_line self.old line ≡ Err cause)) }
        ensures one_more { OnOk result (length self.new.orders ≤ length self.old.orders + 1) }
        ensures err { OnErr result (self.new ≡ self.old) }
    {
        match line {
            Line::Size(cores, cap, burst) => {
                self.set_size(cores, cap, burst);
                Ok(())
            }
            Line::Queue(core, shares) => self.add_queue(core, shares),
            Line::Step(event) => self.add_event(event),
        }
    }

    /// Takes the first line.
    fn set_size(&mut self, cores: u8, cap: u16, burst: u8)
        requires first { self.old.size ≡ None }
        requires size { IsSize cores cap }
        requires burst { IsBurst burst }
        ensures { self.new ≡ record self.old { size = Some (cores, cap); burst = burst } }
    {
        self.size = Some((cores, cap));
        self.burst = burst;
    }

    /// Takes a `queue` line.
    fn add_queue(&mut self, core: CoreNo, shares: Shares) -> Result<(), Stop<ThreadsCause>>
        requires { IsCoreOf self.old.size core }
        ensures ok { OnOk result (spec.with_queue self.old core shares ≡ Ok self.new) }
        ensures faulty { IfErr result (IfCause (λ cause. spec.with_queue self.old core shares ≡ Err cause)) }
        ensures one_more { OnOk result (length self.new.orders ≤ length self.old.orders + 1) }
        ensures err { OnErr result (self.new ≡ self.old) }
    {
        if self.lines.of(core) >= MOST_QUEUE_LINES {
            return Err(Stop::Cause(ThreadsCause::Line(Cause::TooManyQueues)));
        }
        self.queues.push((core, shares))?;
        self.lines.add(core);
        Ok(())
    }

    /// Takes a line that lets something happen.
    fn add_event(&mut self, event: ScriptEvent) -> Result<(), Stop<ThreadsCause>>
        requires event { IsEventFor self.old.size event }
        requires never { SendsNoPark event }
        ensures ok { OnOk result (spec.with_event self.old event ≡ Ok self.new) }
        ensures faulty { IfErr result (IfCause (λ cause. spec.with_event self.old event ≡ Err cause)) }
        ensures one_more { OnOk result (length self.new.orders ≤ length self.old.orders + 1) }
        ensures err { OnErr result (self.new ≡ self.old) }
    {
        match event {
            ScriptEvent::Send(_, core, order) => self.add_order(core, order),
            _ => Err(Stop::Cause(ThreadsCause::NotForThreads)),
        }
    }

    /// Takes an order to a core.
    fn add_order(&mut self, core: CoreNo, order: Order<ScriptJob>) -> Result<(), Stop<ThreadsCause>>
        requires { IsToldFor self.old.size (core, order) }
        ensures ok { OnOk result (spec.with_order self.old (core, order) ≡ Ok self.new) }
        ensures faulty { IfErr result (IfCause (λ cause. spec.with_order self.old (core, order) ≡ Err cause)) }
        ensures one_more { OnOk result (length self.new.orders ≤ length self.old.orders + 1) }
        ensures err { OnErr result (self.new ≡ self.old) }
    {
        let polls = polls_of(&order);
        match self.refuses(core, polls) {
            Some(cause) => Err(Stop::Cause(cause)),
            None => self.push_order(core, order, polls),
        }
    }

    /// Takes an order to a core that there is room for.
    fn push_order(
        &mut self,
        core: CoreNo,
        order: Order<ScriptJob>,
        polls: u32,
    ) -> Result<(), Stop<ThreadsCause>>
        requires told { IsToldFor self.old.size (core, order) }
        requires polls { polls ≡ orders.polls_of order }
        requires few { orders.polls_in self.old.orders + polls ≤ orders.most_polls }
        requires room { orders.orders_to core self.old.orders + 1 < spec.cap_of self.old.size }
        ensures ok { OnOk result (self.new
            ≡ record self.old { orders = self.old.orders ++ (core, order) ∷ [] }) }
        ensures stop { IfErr result (λ stop. stop ≡ Memory) }
        ensures err { OnErr result (self.new ≡ self.old) }
    {
        self.orders.push((core, order))?;
        self.sent.add(core);
        self.polls += polls;
        Ok(())
    }

    /// Why there is no room for an order to the core whose job has so many polls.
    fn refuses(&self, core: CoreNo, polls: u32) -> Option<ThreadsCause>
        requires { polls ≤ 64 }
        ensures { result ≡ spec.refusal self.now core polls }
    {
        let most = self.cap().saturating_sub(1);
        if self.sent.of(core) >= most as usize {
            return Some(ThreadsCause::TooManyForCap);
        }
        if self.polls + polls > MOST_POLLS {
            return Some(ThreadsCause::TooManyPolls);
        }
        None
    }

    /// The capacity, 0 before it is told.
    fn cap(&self) -> u16
        ensures { result ≡ spec.cap_of self.now.size }
    {
        match self.size {
            None => 0,
            Some((_, cap)) => cap,
        }
    }
}

impl ScriptDraft for Draft {
    type Why = ThreadsCause;

    type Script = ThreadsScript;

    ghost use Rattle.std.specs.Prelude.{◌≡◌, length};
    ghost use Rattle.fairexec_script.specs.declared.fault.ThreadsCause.TheVariants.{Line};
    ghost use Rattle.fairexec_script.specs.ThreadsDrafts.{with_text};
    ghost use Rattle.fairexec_script.specs.ThreadsScripts.{drafted};

    ghost told = { Line };

    ghost with_text = { with_text };

    ghost size = { λ draft. draft.size };

    ghost steps = { λ draft. length draft.orders };

    ghost makes = { λ script draft. draft ≡ drafted script };

    fn of_any(cause: Cause) -> ThreadsCause {
        ThreadsCause::Line(cause)
    }

    fn take_text(&mut self, text: &[u8]) -> Result<(), Stop<ThreadsCause>> {
        if is_skipped(text) {
            return Ok(());
        }
        match self.line_at(text) {
            Ok(line) => self.add(line),
            Err(cause) => Err(Stop::Cause(cause)),
        }
    }

    fn finish_script(self) -> Option<ThreadsScript> {
        let Draft {
            size,
            burst,
            queues,
            lines: _,
            orders,
            sent: _,
            polls: _,
        } = self;
        let (cores, cap) = size?;
        Some(ThreadsScript {
            cores,
            cap,
            burst,
            queues,
            orders,
        })
    }
}

/// How many polls the job of an order has.
fn polls_of(order: &Order<ScriptJob>) -> u32
    ensures count { result ≡ orders.polls_of order.now }
    ensures few { result ≤ 64 }
{
    match order {
        Order::Job(_, job) => job.poll_count() as u32,
        _ => 0,
    }
}
