//! Who takes the notes of a text.

ghost use Rattle.std.specs.Prelude.{◌<◌, IfOk, OnOk, length};
ghost use Rattle.base_words.specs.Limits.{most_notes};
ghost use Rattle.text_journal.specs.Handed.{Handed, IsLast, begun, more_handed, next_handed, nothing_handed};

use base_words::Note;
use std::alloc::AllocError;

/// Who takes the notes of a text, actor after actor, each as soon as its line is judged.
///
/// `has` says what a taker was handed. `makes` says what all of it became. After an `Err` a taker is called no more.
pub trait NoteTaker: Drop {
    /// What the notes of all actors become.
    type Whole: Drop;

    ghost has: { Self → Handed → Type 0 };

    ghost makes: { Self.Whole → Handed → Type 0 };

    /// Takes the numbers of the second line: the cores, the places of a link, and the polls of a turn. The notes of core 0 come next.
    /// After an error of this or of the calls below nothing is said of the taker, and it gets nothing more.
    fn begin(&mut self, cores: u8, cap: u16, burst: u8) -> Result<(), AllocError>
        ensures { OnOk result (has self.old nothing_handed → has self.new (begun cores cap burst)) };

    /// Takes the next note of the actor.
    fn take(&mut self, note: &Note<u64>) -> Result<(), AllocError>
        requires { (handed : Handed) × (length handed.notes < most_notes) × has self.old handed }
        ensures { OnOk result ((handed : Handed) → length handed.notes < most_notes → has self.old handed → has self.new (more_handed note.now handed)) };

    /// The journal of the actor is whole. The notes of the next actor come; the outside actor is the last one.
    fn next_actor(&mut self) -> Result<(), AllocError>
        ensures { OnOk result ((handed : Handed) → length handed.earlier < handed.cores → has self.old handed → has self.new (next_handed handed)) };

    /// All notes were taken.
    fn finish(self) -> Result<Self::Whole, AllocError>
        requires { (handed : Handed) × IsLast handed × has self handed }
        ensures { IfOk result (λ whole. (handed : Handed) → IsLast handed → has self handed → makes whole handed) };
}
