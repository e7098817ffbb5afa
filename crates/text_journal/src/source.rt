//! Reads the whole text of journals.

ghost use Rattle.std.specs.Prelude.{◌≡◌, Ok, Err, IfOk, IfErr, IfSome};
ghost use Rattle.text_journal.specs.JournalTexts.{judge, journals_of};
ghost use Rattle.text_journal.specs.Drafts.{Drafted, assembly_of, empty_draft, raised_to};
ghost use Rattle.text_journal.specs.Handed.{handed_on, nothing_handed};
ghost use Rattle.text_journal.specs.Passing.{MakesText};
ghost use Rattle.base_words.specs.Spelled.{IsSpelled};
ghost use Rattle.text_journal.specs.Texts.{journal_text};
ghost use Rattle.text_bytes.specs.Taking.{IsPrompt, IsToldByRead};
ghost use Rattle.text_bytes.specs.Tries.{HasFailedSince};
ghost use Rattle.text_words.specs.Faults.{IfRead, IfText, IfUnwritten};

use crate::draft::Draft;
use crate::fault::JournalCause;
use crate::keeper::Keeper;
use crate::taker::NoteTaker;
use note_journal::Assembly;
use std::alloc::Global;
use text_bytes::{Source, read_lines};
use text_words::Fault;

/// The journals whose text the source tells, read and judged to its end. Each line is judged before the next read.
///
/// # Errors
///
/// The first faulty line and its cause (`Text`), a failed read or 1000 interrupted ones in a row (`Read`), want of memory (`Memory`).
pub fn read_journal<S: Source>(
    alloc: Global,
    source: &mut S,
) -> Result<Assembly, Fault<JournalCause>>
    ensures ok { IfOk result (λ assembly. IfSome (S.remaining source.old) (λ text.
        (draft : Drafted) × (journals_of text ≡ Ok draft) × (assembly ≡ assembly_of draft))) }
    ensures faulty { IfErr result (IfText (λ fault.
        IfSome (S.remaining source.old) (λ text. journals_of text ≡ Err fault))) }
    ensures same_text { IfOk result (λ assembly. IfSome (S.remaining source.old) (λ text.
        IsSpelled assembly × (text ≡ journal_text assembly))) }
    ensures device { IfErr result (IfUnwritten ⊥) }
    ensures prompt { IfErr result (IsPrompt judge empty_draft (S.remaining source.old) (S.remaining source.new)) }
    ensures at_once { IfErr result (IfText (λ fault.
        IsToldByRead judge empty_draft S.remaining S.tries S.reads S.interrupts source.old source.new)) }
    ensures failed { IfErr result (IfRead (HasFailedSince S.tries S.interrupts S.fails source.old source.new)) }
{
    pass_journal(Keeper::new(alloc), source)
}

/// What the notes become that the source tells, read and judged to its end. Each note is handed to a taker as soon as its line is judged,
/// and each line is judged before the next read.
///
/// # Errors
///
/// As those of `read_journal`. Want of memory may be the taker's.
pub fn pass_journal<T: NoteTaker, S: Source>(
    taker: T,
    source: &mut S,
) -> Result<T::Whole, Fault<JournalCause>>
    requires { T.has taker nothing_handed }
    ensures ok { IfOk result (λ whole. IfSome (S.remaining source.old) (λ text.
        (draft : Drafted) × (journals_of text ≡ Ok draft) × T.makes whole (handed_on (raised_to draft.cores draft)))) }
    ensures faulty { IfErr result (IfText (λ fault.
        IfSome (S.remaining source.old) (λ text. journals_of text ≡ Err fault))) }
    ensures same_text { IfOk result (λ whole. IfSome (S.remaining source.old) (MakesText T.makes whole)) }
    ensures device { IfErr result (IfUnwritten ⊥) }
    ensures prompt { IfErr result (IsPrompt judge empty_draft (S.remaining source.old) (S.remaining source.new)) }
    ensures at_once { IfErr result (IfText (λ fault.
        IsToldByRead judge empty_draft S.remaining S.tries S.reads S.interrupts source.old source.new)) }
    ensures failed { IfErr result (IfRead (HasFailedSince S.tries S.interrupts S.fails source.old source.new)) }
{
    read_lines(Draft::new(taker), source)
}
