//! The slips of a timeline, one after another.
ghost use Rattle.std.specs.Prelude.{◌≡◌};
ghost use Rattle.std.specs.Iterator.{YieldsFirst, item_count};
ghost use Rattle.core_timeline.specs.Rising.{queues_of};

use crate::slip::Slip;
use crate::timeline::Timeline;
use std::alloc::Allocator;
use std::marker::Model;

/// The slips of a timeline by rising key. It is seen as the keys of those that are left.
#[derive(Drop)]
pub struct Slips<A: Allocator> {
    left: Timeline<A>,
}

impl<A: Allocator> Model for Slips<A> {
    ghost use Rattle.std.specs.Prelude.{List};
    ghost use Rattle.base_words.specs.declared.names.Key.{Key};

    ghost Value = { List Key };

    ghost view = { λ s. s.left.keys };
}

impl<A: Allocator> Slips<A> {
    pub(crate) fn new(left: Timeline<A>) -> Self
        ensures { result ≡ left.keys }
    {
        Slips { left }
    }
}

impl<A: Allocator> Iterator for Slips<A> {
    type Item = Slip<A>;

    ghost next_gives = { YieldsFirst queues_of };

    ghost remaining = { item_count queues_of };

    fn next(&mut self) -> Option<Slip<A>> {
        let (_, slip) = self.left.take_least()?;
        Some(slip)
    }
}
