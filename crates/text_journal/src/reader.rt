//! How the lines of journals are read.

use crate::draft::{Draft, Part};
use crate::fault::JournalCause;
use crate::taker::NoteTaker;
use text_bytes::fault::stopped;
use text_bytes::{LineDraft, Stop};
use text_words::Fault;

impl<T: NoteTaker> LineDraft for Draft<T> {
    type Cause = JournalCause;

    type Whole = T::Whole;

    ghost use Rattle.std.specs.Prelude.{◌≡◌};
    ghost use Rattle.text_journal.specs.Drafts.{lines_left, longest_line, raised_to};
    ghost use Rattle.text_journal.specs.Handed.{handed_on};
    ghost use Rattle.text_journal.specs.JournalTexts.{judge};

    const LONGEST: usize = 128;

    ghost LONGEST = { longest_line };

    ghost judge = { judge };

    ghost makes = { λ whole draft. T.makes whole (handed_on (raised_to draft.cores draft)) };

    ghost fits = { λ number draft. Unit {0} };

    // Each line that is taken leaves room for one less.
    ghost lines_left = { λ number draft. lines_left draft };

    fn take(&mut self, _number: u32, line: &[u8]) -> Result<(), Stop<JournalCause>> {
        self.take_text(line)
    }

    fn too_long(&self, _number: u32) -> JournalCause {
        match self.part() {
            Part::Form => JournalCause::Header,
            Part::Size => JournalCause::Cores,
            Part::Notes => JournalCause::Note,
            Part::After => JournalCause::AfterEnd,
        }
    }

    fn finish(self, number: u32, rest: &[u8]) -> Result<T::Whole, Fault<JournalCause>> {
        if !rest.is_empty() {
            return Err(Fault::Text {
                line: number,
                cause: JournalCause::Cut,
            });
        }
        let cause = match self.part() {
            Part::Form => JournalCause::Header,
            Part::Size => JournalCause::Cores,
            Part::Notes => JournalCause::EndMissing,
            Part::After => {
                return match self.into_whole() {
                    Ok(whole) => Ok(whole),
                    Err(stop) => Err(stopped(number, stop)),
                };
            }
        };
        Err(Fault::Text {
            line: number,
            cause,
        })
    }
}
