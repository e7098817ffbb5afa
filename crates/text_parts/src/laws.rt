//! Parts and their bytes are one, and so are journals and theirs.

ghost use Rattle.text_parts.specs.BadHouses.{BadHousesAreRefused};
ghost use Rattle.text_parts.specs.BadParts.{BadPartsAreRefused};
ghost use Rattle.text_parts.specs.HouseLaws.{FaultyAreNoJournals, JournalsAreReadBack, OnlyJournalsAreRead};
ghost use Rattle.text_parts.specs.PartLaws.{NoteIsReadBack, OnlyNotesAreRead, OnlyPartsAreRead, PartIsReadBack, SumsTellBytes};

/// Notes and their bytes are one, and so are parts and theirs. Another byte makes other sums.
pub fn bytes_are_read_back()
    ensures note { NoteIsReadBack }
    ensures only_notes { OnlyNotesAreRead }
    ensures part { PartIsReadBack }
    ensures only_parts { OnlyPartsAreRead }
    ensures sums { SumsTellBytes }
{}

/// Bytes that are no part are refused.
pub fn bad_parts_are_refused()
    ensures { BadPartsAreRefused }
{}

/// Journals and their bytes are one: a head and parts. Bytes with a fault are no journals.
pub fn houses_are_read_back()
    ensures again { JournalsAreReadBack }
    ensures only { OnlyJournalsAreRead }
    ensures faulty { FaultyAreNoJournals }
{}

/// A part that comes twice, one that is missing or cut, and an actor that goes back are refused.
pub fn bad_houses_are_refused()
    ensures { BadHousesAreRefused }
{}
