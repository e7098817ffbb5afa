//! The words for what a note names: reasons and modes.

ghost use Rattle.std.specs.Prelude.{◌≡◌};
ghost use Rattle.text_words.specs.Notes as spec;

use base_words::{Mode, Reason};

/// The word of a reason.
pub fn reason_word(reason: Reason) -> &'static str
    ensures { result.now ≡ spec.reason_text reason }
{
    match reason {
        Reason::NoQueue => "noqueue",
        Reason::QueueClosed => "queueclosed",
        Reason::CoreClosing => "coreclosing",
        Reason::QueueReturned => "queuereturned",
        Reason::CoreReturned => "corereturned",
    }
}

/// The word of a mode.
pub fn mode_word(mode: Mode) -> &'static str
    ensures { result.now ≡ spec.mode_text mode }
{
    match mode {
        Mode::Finish => "finish",
        Mode::Return => "return",
    }
}
