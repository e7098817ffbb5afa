//! What the host asks of its core: jobs that enter and are woken, queues, shares, and closing.

ghost use Rattle.base_words.specs.Commands.{job_at};
ghost use Rattle.fairexec_c.specs.Hosting.{Submits};
ghost use Rattle.fairexec_c.specs.Queueing.{MakesQueue, Reweighs, ClosesLine, ClosesAll};
ghost use Rattle.host_calls.specs.Orders.{mode_of_number};
ghost use Rattle.fairexec_c.specs.Waking.{TellsNumber, WakesInside};

use crate::hosted::Hosted;
use base_words::{ActorNo, Answer, Order, QueueNo, Reason, Shares};
use core_core::Delivered;
use core_queues::CreateError;
use host_calls::Code;
use host_calls::orders::mode_numbered;
use host_core::HostJob;

impl Hosted {
    /// Hands a job to a queue.
    pub fn submit(&mut self, queue: u32, handle: u64) -> Code
        ensures { Submits self.old queue handle result self.new }
    {
        if self.core.is_closed() {
            return Code::CoreClosed;
        }
        if !self.core.has_room() {
            return Code::Full;
        }
        if self.sent == u64::MAX {
            return Code::Spent;
        }
        let Ok(number) = u8::try_from(queue) else {
            return Code::NoQueue;
        };
        let order = Order::Job(QueueNo(number), HostJob::new(handle));
        match self.hand_in(order) {
            Delivered::Took => Code::Ok,
            Delivered::Back(Reason::NoQueue, _) => Code::NoQueue,
            Delivered::Back(_, _) => Code::QueueClosed,
            Delivered::Answered(_) => unreachable!(),
        }
    }

    /// Hands a job to a queue, and tells the number by which it is woken.
    pub fn submit_numbered(&mut self, queue: u32, handle: u64, number: &mut u64) -> Code
        ensures submits { Submits self.old queue handle result self.new }
        ensures number { TellsNumber self.old number.old result number.new }
    {
        let before = self.sent;
        let code = self.submit(queue, handle);
        if let Code::Ok = code {
            *number = before + 1;
        }
        code
    }

    /// Wakes the job of this sender and number.
    pub(crate) fn wake_from(&mut self, from: ActorNo, number: u64) -> Code
        ensures { WakesInside (job_at self.old.core from number) self.old result self.new }
    {
        if !self.core.has_room() {
            return Code::Full;
        }
        if self.sent == u64::MAX {
            return Code::Spent;
        }
        match self.hand_in(Order::Wake(from, number)) {
            Delivered::Answered(Answer::Woken) => Code::Ok,
            Delivered::Answered(Answer::NoJob) => Code::Absent,
            _ => unreachable!(),
        }
    }

    /// Makes a queue with these shares, and tells its number.
    pub fn create(&mut self, shares: u32, queue: &mut u32) -> Code
        ensures { MakesQueue self.old shares queue.old result queue.new self.new }
    {
        let Ok(shares) = Shares::try_new(shares) else {
            return Code::BadShares;
        };
        let _in_range = shares.get();
        if self.core.is_closed() {
            return Code::CoreClosed;
        }
        let (made, _notes) = self.core.create(shares);
        match made {
            Ok(number) => {
                *queue = u32::from(number.0);
                Code::Ok
            }
            Err(CreateError::TooMany) => Code::TooMany,
            Err(CreateError::Memory) => Code::NoMemory,
        }
    }

    /// Gives a queue these shares, for the runs that are settled from then on.
    pub fn set_shares(&mut self, queue: u32, shares: u32) -> Code
        ensures { Reweighs self.old queue shares result self.new }
    {
        let Ok(shares) = Shares::try_new(shares) else {
            return Code::BadShares;
        };
        let _in_range = shares.get();
        if !self.core.has_room() {
            return Code::Full;
        }
        if self.sent == u64::MAX {
            return Code::Spent;
        }
        let Ok(number) = u8::try_from(queue) else {
            return Code::NoQueue;
        };
        match self.hand_in(Order::SetShares(QueueNo(number), shares)) {
            Delivered::Answered(Answer::SharesSet) => Code::Ok,
            Delivered::Answered(Answer::NoQueue) => Code::NoQueue,
            _ => unreachable!(),
        }
    }

    /// Closes a queue, by the number of a mode.
    pub fn close_queue(&mut self, queue: u32, mode: u32) -> Code
        ensures { ClosesLine self.old queue (mode_of_number mode) result self.new }
    {
        let Some(mode) = mode_numbered(mode) else {
            return Code::BadNumber;
        };
        let Ok(number) = u8::try_from(queue) else {
            return Code::NoQueue;
        };
        let (answer, _notes) = self.core.close_queue(QueueNo(number), mode);
        match answer {
            Answer::Closed => Code::Ok,
            Answer::NoQueue => Code::NoQueue,
            Answer::AlreadyClosed => Code::QueueClosed,
            _ => unreachable!(),
        }
    }

    /// Closes the core, by the number of a mode.
    pub fn close(&mut self, mode: u32) -> Code
        ensures { ClosesAll self.old (mode_of_number mode) result self.new }
    {
        let Some(mode) = mode_numbered(mode) else {
            return Code::BadNumber;
        };
        let (closed, _notes) = self.core.close(mode);
        if closed { Code::Ok } else { Code::CoreClosed }
    }
}
