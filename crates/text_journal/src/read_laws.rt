//! A text and the journals that it tells are one.

ghost use Rattle.text_journal.specs.BadPasses.{BadPassesAreRefused};
ghost use Rattle.text_journal.specs.FaultyForms.{FaultyForms};
ghost use Rattle.text_journal.specs.ReadLaws.{FirstLinesTell, OnlyTextsAreRead, TextIsReadBack};

/// A text that tells journals is the text of these journals, and they are spelled.
pub fn only_texts_are_read()
    ensures { OnlyTextsAreRead }
{}

/// The text of journals tells these journals.
pub fn text_is_read_back()
    ensures { TextIsReadBack }
{}

/// The first two lines tell how many cores there are, how much each link may hold and how many polls a turn may have.
pub fn first_lines_tell()
    ensures { FirstLinesTell }
{}

/// A second line of the other form, or a turn's end where there is none, is faulty.
pub fn faulty_forms()
    ensures { FaultyForms }
{}

/// Notes that are not those of a text are refused.
pub fn bad_passes_are_refused()
    ensures { BadPassesAreRefused }
{}
