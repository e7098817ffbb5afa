//! How a poll ended.

ghost use Rattle.std.specs.Prelude.{◌≡◌};
ghost use Rattle.judge_view.specs.Ends as spec;

use base_words::Note;

/// How a poll ended.
#[derive(Clone, Copy)]
pub enum End {
    /// The job wants another poll.
    Yield,
    /// The job waits outside its line until it is woken.
    Park,
    /// The job asked to be parked, and stays in its line.
    Stayed,
    /// The job is done.
    Done,
}

impl End {
    /// Whether the job is done.
    pub fn is_done(self) -> bool
        ensures { result ≡ spec.is_done self }
    {
        match self {
            End::Done => true,
            _ => false,
        }
    }

    /// The word of the end, as that of its note.
    pub fn word(self) -> &'static str
        ensures { result.now ≡ spec.end_word self }
    {
        match self {
            End::Yield => "yield",
            End::Park => "park",
            End::Stayed => "stayed",
            End::Done => "done",
        }
    }
}

/// How the poll ended that a note settles.
pub fn end_of(note: &Note<u64>) -> End
    ensures { result ≡ spec.end_of note.now }
{
    match *note {
        Note::Park(_, _) => End::Park,
        Note::Stayed(_, _) => End::Stayed,
        Note::Done(_, _, _) => End::Done,
        _ => End::Yield,
    }
}
