//! A line and the note that it tells are one.

ghost use Rattle.text_journal.specs.Laws.{LineTellsNote, NoteHasOneLine};

/// The line of a note that its actor may write tells that note.
pub fn line_tells_note()
    ensures { LineTellsNote }
{}

/// A line tells only the note whose line it is, and only one that its actor may write.
pub fn note_has_one_line()
    ensures { NoteHasOneLine }
{}
