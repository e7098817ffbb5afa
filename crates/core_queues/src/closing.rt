//! Which closing does anything.
ghost use Rattle.std.specs.Prelude.{◌≡◌};
ghost use Rattle.base_words.specs.Closing as spec;

use base_words::Mode;

/// Whether a queue or a core that was closed so, if it was, is closed by a closing in this mode.
pub fn closes(was: Option<Mode>, mode: Mode) -> bool
    ensures { result ≡ spec.closes was mode }
{
    match (was, mode) {
        (None, _) => true,
        (Some(Mode::Finish), Mode::Return) => true,
        (Some(_), _) => false,
    }
}
