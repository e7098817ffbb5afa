//! What a desk knows of a submission that is still outstanding.

use base_words::Outcome;

/// What a desk knows of a submission that is still outstanding. No value of it is made: a mark stands for it.
#[derive(Drop)]
pub enum Entry<J: Drop, T: Drop> {
    /// Its outcome isn't collected yet.
    Pending,
    /// Nobody will ask for its outcome, which isn't collected yet.
    Detached,
    /// Its outcome waits to be redeemed.
    Collected(Outcome<J, T>),
}

/// What a roll holds for an entry. The outcomes stand in a slab of their own, whose memory isn't touched before the first one comes.
#[derive(Clone, Copy)]
pub(crate) enum Mark {
    Waits,
    LetGo,
    /// The outcome has this key. With 16 bits a line of a roll is 16 bytes, and with 64 it is 32.
    Holds(u16),
}

/// What stands at a number, without the outcome.
#[derive(Clone, Copy)]
pub(crate) enum Standing {
    Nothing,
    Pending,
    Detached,
    Collected,
}
