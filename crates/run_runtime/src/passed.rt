//! What a runtime leaves whose actors passed their notes on.

use note_journal::Journal;

/// All notes of one actor: the sink to which it passed them on, and what is kept behind that.
#[derive(Drop)]
pub struct ActorNotes<S> {
    /// It has the older notes.
    pub sink: S,
    /// The newer ones: none, unless the sink refused them.
    pub kept: Journal<u64>,
}

/// All notes of a house: of each core by its number, and then of the outside actor.
#[derive(Drop)]
pub struct Passed<S> {
    pub cores: u8,
    pub cap: u16,
    pub burst: u8,
    pub actors: Vec<ActorNotes<S>>,
}
