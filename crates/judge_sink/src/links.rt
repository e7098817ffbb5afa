//! What the notes of a core tell of its links.
//!
//! On the core that does its notes again each gate stays open: when a gate is shut, it isn't told yet which orders come through it. So what notes
//! ask of the gates is judged here.

ghost use Rattle.std.specs.Prelude.{◌≡◌, ◌+◌, ◌<◌, ◌==◌, ◌∷◌, ℕ, [], None, length, slice_index_or, slice_set, true};
ghost use Rattle.base_words.specs.Closing.{IsCounted};
ghost use Rattle.base_words.specs.Journal.{Journal};
ghost use Rattle.base_words.specs.Filters.{accepted_orders};
ghost use Rattle.judge_sink.specs.Judged.{IsAllowed};
ghost use Rattle.judge_sink.specs.Links.{KnowsLinks, counted};
ghost use Rattle.base_words.specs.Work.{number_if};
ghost use Rattle.base_words.specs.Closing as closing;

use base_words::{ActorNo, CoreNo, JobId, LAST_NUMBER, Note};

/// What was told of the links of a core.
#[derive(Drop)]
pub(crate) struct Links {
    core: CoreNo,
    cores: u8,
    /// Whether the core is closed.
    closed: bool,
    /// How many orders the core sent to itself.
    sent: u64,
    /// How many orders were delivered of each sender.
    delivered: [u64; 256],
    /// The count of each gate that was shut.
    counts: [Option<u64>; 256],
}

impl Links {
    /// Nothing was told.
    pub(crate) fn new(core: CoreNo, cores: u8) -> Self
        ensures core { result.core ≡ core }
        ensures cores { result.cores ≡ cores }
        ensures knows { KnowsLinks result [] }
    {
        Links {
            core,
            cores,
            closed: false,
            sent: 0,
            delivered: [0; 256],
            counts: [None; 256],
        }
    }

    /// The core whose links they are.
    pub(crate) fn core(&self) -> CoreNo
        ensures { result ≡ self.now.core }
    {
        self.core
    }

    /// Whether the gate of this sender may be shut, at this count.
    fn is_next_shut(&self, sender: ActorNo, count: u64) -> bool
        ensures { (before : Journal ℕ) → KnowsLinks self.now before → result ≡ true → closing.IsNextShut self.now.cores sender count before }
    {
        let place = sender.0 as usize;
        self.closed
            && self.counts[place].is_none()
            && sender.0 <= self.cores
            && self.delivered[place] <= count
            && count <= LAST_NUMBER
    }

    /// Whether the core sent itself so many orders, if the gate is its own.
    fn shuts_own(&self, sender: ActorNo, count: u64) -> bool
        ensures { (before : Journal ℕ) → KnowsLinks self.now before → result ≡ true → sender ≡ self.now.core → count ≡ length (accepted_orders self.now.core before) }
    {
        sender.0 != self.core.0 || count == self.sent && count <= LAST_NUMBER
    }

    /// Whether the gate of its sender lets this order in.
    fn lets_in(&self, name: JobId) -> bool
        ensures { (before : Journal ℕ) → KnowsLinks self.now before → result ≡ true → IsCounted (closing.final_count name.from before) name.number }
    {
        match self.counts[name.from.0 as usize] {
            Some(count) => name.number <= count,
            None => true,
        }
    }

    /// Whether the core may send to this core: to itself until its own gate is shut.
    fn is_open(&self, to: CoreNo) -> bool
        ensures { (before : Journal ℕ) → KnowsLinks self.now before → result ≡ true → to ≡ self.now.core → closing.final_count self.now.core before ≡ None }
    {
        to.0 != self.core.0 || self.counts[self.core.0 as usize].is_none()
    }

    /// Whether a note keeps to the gates.
    pub(crate) fn allow(&self, note: &Note<u64>) -> bool
        ensures { (before : Journal ℕ) → KnowsLinks self.now before → result ≡ true → IsAllowed self.now.core self.now.cores note.now before }
    {
        match *note {
            Note::Shut(sender, count) => self.is_next_shut(sender, count)
                && self.shuts_own(sender, count),
            Note::Took(name, _) => self.lets_in(name),
            Note::Back(name, _) => self.lets_in(name),
            Note::Answered(name, _) => self.lets_in(name),
            Note::Sent(name, _) => self.is_open(name.to),
            _ => true,
        }
    }

    /// One more order of this sender was delivered.
    fn add_delivered(&mut self, sender: ActorNo)
        ensures there { sender < length self.old.delivered }
        ensures more { self.new ≡ record self.old { delivered = slice_set self.old.delivered sender (counted (slice_index_or self.old.delivered sender 0 + 1)) } }
    {
        let place = sender.0 as usize;
        self.delivered[place] = self.delivered[place].saturating_add(1);
    }

    /// One more order was sent to this core.
    fn add_sent(&mut self, to: CoreNo)
        ensures { self.new ≡ record self.old { sent = counted (self.old.sent + number_if (to == self.old.core)) } }
    {
        if to.0 == self.core.0 {
            self.sent = self.sent.saturating_add(1);
        }
    }

    /// Keeps what a note tells.
    pub(crate) fn add(&mut self, note: &Note<u64>)
        ensures core { self.new.core ≡ self.old.core }
        ensures cores { self.new.cores ≡ self.old.cores }
        ensures knows { (before : Journal ℕ) → KnowsLinks self.old before → KnowsLinks self.new (note.now ∷ before) }
    {
        match *note {
            Note::CoreClosed(_) => self.closed = true,
            Note::Shut(sender, count) => self.counts[sender.0 as usize] = Some(count),
            Note::Took(name, _) => self.add_delivered(name.from),
            Note::Back(name, _) => self.add_delivered(name.from),
            Note::Answered(name, _) => self.add_delivered(name.from),
            Note::Sent(name, _) => self.add_sent(name.to),
            _ => {}
        }
    }
}
