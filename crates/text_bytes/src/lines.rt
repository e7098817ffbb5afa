//! Reads a whole text.

ghost use Rattle.std.specs.Prelude.{ℕ, List, ◌≡◌, ◌+◌, ◌<◌, ◌^◌, Ok, Err, IfOk, IfErr, IfSome};
ghost use Rattle.text_bytes.specs.Readings.{IsLongest};
ghost use Rattle.text_bytes.specs.Taking.{IsPrompt, IsToldByRead};
ghost use Rattle.text_bytes.specs.Texts.{text_judged};
ghost use Rattle.text_bytes.specs.Tries.{HasFailedSince};
ghost use Rattle.text_words.specs.Faults.{IfText, IfRead, IfUnwritten};

use crate::draft::LineDraft;
use crate::reader::LineReader;
use crate::source::{Source, TextSource, read_some};
use text_words::Fault;

/// The most bytes that are read at once.
const PAGE: usize = 8192;

/// What the text becomes that the source tells. Each line is judged as soon as it has ended or is too long, before the next read.
///
/// # Errors
///
/// The first faulty line and its cause (`Text`), a failed read or 1000 interrupted ones in a row (`Read`), want of memory (`Memory`).
pub fn read_lines<D: LineDraft, S: Source>(
    mut draft: D,
    source: &mut S,
) -> Result<D::Whole, Fault<D::Cause>>
    requires longest { IsLongest D.judge.longest D.LONGEST }
    requires fits { D.fits 1 draft }
    requires few { 1 + D.lines_left 1 draft < 2 ^ 32 }
    ensures ok { IfOk result (λ whole. IfSome (S.remaining source.old) (λ text.
        (last : D) × (text_judged D.judge draft text ≡ Ok last) × D.makes whole last)) }
    ensures faulty { IfErr result (IfText (λ fault.
        IfSome (S.remaining source.old) (λ text. text_judged D.judge draft text ≡ Err fault))) }
    ensures prompt { IfErr result (IsPrompt D.judge draft (S.remaining source.old) (S.remaining source.new)) }
    ensures at_once { IfErr result (IfText (λ fault.
        IsToldByRead D.judge draft S.remaining S.tries S.reads S.interrupts source.old source.new)) }
    ensures device { IfErr result (IfUnwritten ⊥) }
    ensures failed { IfErr result (IfRead (HasFailedSince S.tries S.interrupts S.fails source.old source.new)) }
{
    let mut page = [0u8; PAGE];
    let mut reader = LineReader::new();
    loop {
        let Ok(count) = read_some(source, &mut page) else {
            return Err(Fault::Read);
        };
        if count == 0 {
            return reader.finish(draft);
        }
        if let Err(fault) = reader.feed(&mut draft, &page[..count]) {
            return Err(fault);
        }
    }
}

/// What a text in memory becomes. None of its reads fails.
///
/// # Errors
///
/// The first faulty line and its cause (`Text`), want of memory (`Memory`).
pub fn read_text<D: LineDraft>(draft: D, text: &[u8]) -> Result<D::Whole, Fault<D::Cause>>
    requires longest { IsLongest D.judge.longest D.LONGEST }
    requires fits { D.fits 1 draft }
    requires few { 1 + D.lines_left 1 draft < 2 ^ 32 }
    ensures ok { IfOk result (λ whole. (last : D) × (text_judged D.judge draft text.now ≡ Ok last) × D.makes whole last) }
    ensures faulty { IfErr result (IfText (λ fault. text_judged D.judge draft text.now ≡ Err fault)) }
    ensures device { IfErr result (IfUnwritten ⊥) }
    ensures unread { IfErr result (IfRead ⊥) }
{
    read_lines(draft, &mut TextSource::of(text))
}
