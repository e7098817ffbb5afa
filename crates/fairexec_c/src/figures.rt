//! What a core tells of itself in numbers.

ghost use Rattle.fairexec_c.specs.Figures.{TellsCore, TellsQueue, IsStatsOf};

use crate::hosted::Hosted;
use base_words::QueueStats;
use host_calls::Code;
use host_calls::figures::{
    CORE_SIZE, CoreFigures, QUEUE_SIZE, QueueFigures, low_and_high, number_of_mode, queue_figures,
};

impl Hosted {
    /// Tells the counts of the core.
    pub fn tell(&self, figures: &mut CoreFigures) -> Code
        ensures { TellsCore self.now figures.old result figures.new }
    {
        if figures.size != CORE_SIZE {
            return Code::BadNumber;
        }
        let (core, queues) = self.core.stats();
        let (floor_low, floor_high) = low_and_high(core.floor);
        *figures = CoreFigures {
            size: CORE_SIZE,
            queues: queues.len() as u32,
            room: self.room,
            held: core.held,
            turns: core.turns,
            floor_low,
            floor_high,
            running: self.running(),
            closed: number_of_mode(self.core.mode()),
        };
        Code::Ok
    }

    /// Tells the counts of a queue.
    pub fn tell_queue(&self, queue: u32, figures: &mut QueueFigures) -> Code
        ensures { TellsQueue self.now queue figures.old result figures.new }
    {
        if figures.size != QUEUE_SIZE {
            return Code::BadNumber;
        }
        let Some(of_queue) = self.stats_of(queue) else {
            return Code::NoQueue;
        };
        *figures = queue_figures(&of_queue);
        Code::Ok
    }

    /// The counts of a queue, if there is one of this number.
    fn stats_of(&self, queue: u32) -> Option<QueueStats>
        ensures { IsStatsOf self.now queue result }
    {
        let (_core, queues) = self.core.stats();
        let place = queue as usize;
        if place < queues.len() {
            Some(queues[place])
        } else {
            None
        }
    }
}
