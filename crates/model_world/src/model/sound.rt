//! What holds of each world, between any two of its events.

ghost use Rattle.base_words.specs.Joining.{AreJoined};
ghost use Rattle.base_words.specs.Sound.{IsSound};
ghost use Rattle.model_world.specs.Opening.{HasAllLists};
ghost use Rattle.model_world.specs.State.{assembly_of};

use super::World;
use base_jobs::Task;
use std::alloc::Allocator;

impl<J: Task<Out = u64>, A: Allocator + Clone> World<J, A> {
    /// The journals are sound together. A caller that makes its events by `step` learns it here.
    pub fn sound(&self)
        ensures { IsSound (assembly_of self.now) }
    {
        // To look inside is to know the world's invariant.
        let _cores = self.cores;
    }

    /// There is a journal for each actor, each is lawful, and each delivery is what the order under its name calls for.
    pub fn joined(&self)
        ensures { AreJoined (assembly_of self.now) }
    {
        let _cores = self.cores;
    }

    /// There is a journal for each actor, and a list of orders for each link.
    pub fn complete(&self)
        ensures { HasAllLists self.now }
    {
        let _cores = self.cores;
    }
}
