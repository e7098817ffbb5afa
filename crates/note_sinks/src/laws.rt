//! Laws over the definitions alone.

ghost use Rattle.note_sinks.specs.Laws.{PartsAreJoined};

/// The lines of all actors, between the head lines and the last line, are the text that `write_journal` writes.
pub fn parts_are_joined()
    ensures { PartsAreJoined }
{}
