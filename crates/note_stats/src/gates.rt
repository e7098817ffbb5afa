//! Picks, creations, and what was delivered of each actor.

ghost use Rattle.std.specs.Prelude.{◌≡◌, ◌↔◌, ◌<◌, ◌≤◌, ◌∷◌, ℕ, [], length, get_or, IsTrue, Some};
ghost use Rattle.base_words.specs.Journal.{Journal as Notes};
ghost use Rattle.base_words.specs.Picks.{pick_count};
ghost use Rattle.note_facts.specs.Accounts.{greatest_count};
ghost use Rattle.note_stats.specs.Gates.{open_gate, gate_after};
ghost use Rattle.note_stats.specs.Gates as spec;
ghost use Rattle.note_stats.specs.Walks.{KnowsGates};

use base_words::{ActorNo, Note};

/// Of the notes that were read: how much of what an actor sent was delivered, and the final count of its gate, if it is shut.
#[derive(Clone, Copy)]
pub struct GateCount {
    pub delivered: u64,
    pub count: Option<u64>,
}

impl GateCount {
    /// No note was read.
    pub fn new() -> Self
        ensures { result ≡ open_gate }
    {
        GateCount {
            delivered: 0,
            count: None,
        }
    }

    /// Reads a note that tells of this gate.
    pub fn add(&mut self, note: &Note<u64>)
        ensures { self.new ≡ gate_after note.now self.old }
    {
        match *note {
            Note::Took(_, _) => self.delivered = self.delivered.saturating_add(1),
            Note::Back(_, _) => self.delivered = self.delivered.saturating_add(1),
            Note::Answered(_, _) => self.delivered = self.delivered.saturating_add(1),
            Note::Shut(_, count) => self.count = Some(count),
            _ => {}
        }
    }

    /// Whether the gate is shut and all behind it delivered.
    pub fn is_done(&self) -> bool
        ensures { IsTrue result ↔ (self.now.count ≡ Some self.now.delivered) }
    {
        match self.count {
            Some(count) => count == self.delivered,
            None => false,
        }
    }
}

/// The actor of whose gate a note tells.
fn gate_noted(note: &Note<u64>) -> Option<ActorNo>
    ensures { result ≡ spec.gate_noted note.now }
{
    match *note {
        Note::Took(name, _) => Some(name.from),
        Note::Back(name, _) => Some(name.from),
        Note::Answered(name, _) => Some(name.from),
        Note::Shut(sender, _) => Some(sender),
        _ => None,
    }
}

/// One for a pick.
fn pick_count(note: &Note<u64>) -> u64
    ensures { result ≡ pick_count note.now }
{
    match *note {
        Note::Pick(_, _) => 1,
        _ => 0,
    }
}

/// One for a creation.
fn creation_count(note: &Note<u64>) -> u64
    ensures { result ≡ spec.creation_count note.now }
{
    match *note {
        Note::Created(_, _) => 1,
        _ => 0,
    }
}

/// Of the notes that were read: the picks, the creations, and the gate of each actor.
#[derive(Drop)]
pub struct Gates {
    pub turns: u64,
    pub created: u64,
    pub senders: [GateCount; 256],
}

impl Gates {
    /// No note was read.
    pub fn new() -> Self
        ensures { KnowsGates {T = ℕ} result [] }
    {
        Gates {
            turns: 0,
            created: 0,
            senders: [GateCount::new(); 256],
        }
    }

    /// The gate of an actor.
    fn of(&self, sender: ActorNo) -> GateCount
        ensures { result ≡ get_or self.now.senders sender open_gate }
    {
        self.senders[sender.0 as usize]
    }

    /// Reads the next note.
    pub fn add(&mut self, note: &Note<u64>)
        ensures { (before : Notes ℕ) → length before < greatest_count → KnowsGates self.old before → KnowsGates self.new (note.now ∷ before) }
    {
        if let Some(sender) = gate_noted(note) {
            let mut gate = self.of(sender);
            gate.add(note);
            self.senders[sender.0 as usize] = gate;
        }
        self.turns = self.turns.saturating_add(pick_count(note));
        self.created = self.created.saturating_add(creation_count(note));
    }
}

/// Whether the gate of each actor is shut and all behind it delivered.
pub fn all_done(senders: &[GateCount; 256], cores: u8) -> bool
    ensures { IsTrue result ↔ ((sender : ℕ) → sender ≤ cores → (get_or senders.now sender open_gate).count ≡ Some (get_or senders.now sender open_gate).delivered) }
{
    for sender in 0..cores as usize + 1 {
        if !senders[sender].is_done() {
            return false;
        }
    }
    true
}
