//! A tree of winners over the keys of all queues.

ghost use Rattle.std.specs.Prelude.{◌≡◌, ◌≢◌, ◌⊎◌, ℕ, ◌+◌, ◌<◌, ◌≤◌};
ghost use Rattle.judge_audit.specs.Winners.{AtMost, Wins, IsTree, IsAmong, node_of, key_of, last_key};

use base_words::{Key, QueueNo};

/// The key of each of 256 queues, and the least of them.
#[derive(Drop)]
pub struct Least {
    // Node 1 is the top. Below a node stand that of the double number and the next one. The queues stand from 256 on.
    nodes: [Key; 512],
}

/// The lesser of two keys.
fn winner(one: &Key, other: &Key) -> Key
    ensures first { AtMost result one.now }
    ensures second { AtMost result other.now }
    ensures either { (result ≡ one.now) ⊎ (result ≡ other.now) }
{
    if other.is_before(one) { *other } else { *one }
}

/// The node of a queue.
fn place_of(queue: QueueNo) -> usize
    ensures value { result ≡ 256 + queue }
    ensures few { result < 512 }
{
    256 + queue.0 as usize
}

impl Least {
    /// Each queue has a key above all others.
    pub fn new() -> Self
        ensures tree { IsTree result }
        ensures last { (queue : ℕ) → queue < 256 → key_of result queue ≡ last_key }
    {
        let last = Key {
            vr: u128::MAX,
            queue: QueueNo(255),
        };
        Least { nodes: [last; 512] }
    }

    /// The node has the lesser key of the two below it.
    fn refresh(&mut self, node: usize)
        requires some { 1 ≤ node }
        requires inner { node < 256 }
        ensures wins { Wins self.new node }
        ensures others { (other : ℕ) → other ≢ node → node_of self.new other ≡ node_of self.old other }
    {
        let left = self.nodes[2 * node];
        let right = self.nodes[2 * node + 1];
        self.nodes[node] = winner(&left, &right);
    }

    /// Gives a queue this virtual runtime.
    pub fn set(&mut self, queue: QueueNo, vr: u128)
        requires { IsTree self.old }
        ensures tree { IsTree self.new }
        ensures this { key_of self.new queue ≡ record { vr = vr; queue = queue } }
        ensures others { (other : ℕ) → other ≢ queue → key_of self.new other ≡ key_of self.old other }
    {
        let mut node = place_of(queue);
        self.nodes[node] = Key { vr, queue };
        while node > 1 {
            node /= 2;
            self.refresh(node);
        }
    }

    /// The least key.
    pub fn least(&self) -> Key
        ensures least { IsTree self.now → (queue : ℕ) → queue < 256 → AtMost result (key_of self.now queue) }
        ensures among { IsTree self.now → IsAmong self.now result }
    {
        self.nodes[1]
    }
}
