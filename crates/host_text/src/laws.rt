//! Laws over the definitions alone.

ghost use Rattle.host_text.specs.BytesLaws.{BytesFollow};
ghost use Rattle.host_text.specs.Laws.{PartsAreJoined, PiecesAreJoined};

/// The parts that a journal handed on, joined in their order, are the lines of all notes that it passed on.
pub fn parts_are_joined()
    ensures { PartsAreJoined }
{}

/// The pieces in bytes of what a journal keeps, joined in their order, are parts with exactly these notes, each of which says how many came before.
pub fn bytes_follow()
    ensures { BytesFollow }
{}

/// The pieces of what a journal keeps, joined in their order until one has no notes, are the part that it would hand on.
pub fn pieces_are_joined()
    ensures { PiecesAreJoined }
{}
