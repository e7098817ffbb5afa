//! A node out of the tree.
ghost use Rattle.std.specs.Prelude.{◌≡◌, ◌<◌, IfOk};
ghost use Rattle.core_timeline.specs.Nodes.{IsLoose};

use crate::tree::Node;
use base_words::QueueNo;
use std::alloc::{AllocError, Allocator};
use std::marker::Model;

/// The one tree node of a queue, while it is out of the tree. It is seen as the number of its queue.
pub struct Slip<A: Allocator> {
    node: Box<Node<A>, A>,
}

impl<A: Allocator> Model for Slip<A> {
    ghost use Rattle.std.specs.Prelude.{ℕ};

    ghost Value = { ℕ };

    ghost use Rattle.core_timeline.specs.Nodes.{IsLoose};

    ghost view = { λ s. s.node.value.queue };

    ghost invariant = { λ s. IsLoose s.node.value };
}

// Written out: a derived drop is proved again in each crate above.
impl<A: Allocator> Drop for Slip<A> {
    fn drop(self) {
        let Slip { node } = self;
        drop(node);
    }
}

impl<A: Allocator> Slip<A> {
    /// The slip of a queue. It asks the allocator for one node.
    ///
    /// # Errors
    ///
    /// If the allocator has no room for the node.
    pub fn try_new(alloc: A, queue: QueueNo) -> Result<Self, AllocError>
        ensures { IfOk result (λ slip. slip ≡ queue) }
    {
        let node = Box::new(alloc, Node::loose(queue))?;
        Ok(Slip { node })
    }

    /// The queue that this slip stands for.
    pub fn queue(&self) -> QueueNo
        ensures { result ≡ self.now }
    {
        self.node.queue
    }

    pub(crate) fn from_node(node: Box<Node<A>, A>) -> Self
        requires { IsLoose node.value }
        ensures { result ≡ node.value.queue }
    {
        Slip { node }
    }

    pub(crate) fn into_node(self) -> Box<Node<A>, A>
        ensures queue { result.value.queue ≡ self }
        ensures loose { IsLoose result.value }
        ensures numbered { self < 256 }
    {
        let Slip { node } = self;
        let _number = node.queue.0;
        node
    }
}
