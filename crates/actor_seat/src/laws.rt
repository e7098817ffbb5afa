//! Laws over the definitions alone. Their bodies are empty: each contract is the law.

ghost use Rattle.std.specs.Prelude.{ℕ};
ghost use Rattle.actor_seat.specs.Bells.{NotesAreForLinks};

/// A note rings the bell of an actor just if it says that an order was sent to the actor, or that an outcome was given to it.
pub fn notes_are_for_links()
    ensures { NotesAreForLinks ℕ }
{}
