//! A text, taken as it comes.

ghost use Rattle.std.specs.Prelude.{ℕ, List, [], ◌∷◌, ◌++◌, ◌+◌, ◌≡◌, ◌≤◌, Ok, Err, IfOk, IfErr, OnOk, length};
ghost use Rattle.text_bytes.specs.Faults.{IfFaulty};
ghost use Rattle.text_bytes.specs.Feeds.{HasNoFeed};
ghost use Rattle.text_bytes.specs.Readings.{at, IsLongest, IsReady, room_left};
ghost use Rattle.text_bytes.specs.Taking.{IsTaken, IsRefused, TakesByte, TakesAll};
ghost use Rattle.text_bytes.specs.Texts.{text_from};

use crate::draft::{LineDraft, MOST_BYTES};
use crate::fault::stopped;
use arrayvec::ArrayVec;
use text_words::Fault;

/// What ends a line.
const LINE_FEED: u8 = b'\n';

/// A text in the middle: the number of the line that is begun, and what is read of it. The lines before it are in a draft.
#[derive(Drop)]
pub(crate) struct LineReader {
    number: u32,
    line: ArrayVec<u8, MOST_BYTES>,
}

impl LineReader {
    /// Before the first byte.
    pub(crate) fn new() -> LineReader
        ensures number { result.number ≡ 1 }
        ensures line { result.line.items ≡ [] }
    {
        LineReader {
            number: 1,
            line: ArrayVec::new(),
        }
    }

    /// Takes the next bytes of the text. Each line is judged as soon as it has ended or is too long.
    pub(crate) fn feed<D: LineDraft>(
        &mut self,
        draft: &mut D,
        bytes: &[u8],
    ) -> Result<(), Fault<D::Cause>>
        requires longest { IsLongest D.judge.longest D.LONGEST }
        requires ready { IsReady D.judge.longest D.fits D.lines_left (at draft.old self.old.number self.old.line.items) }
        ensures ready { OnOk result (IsReady D.judge.longest D.fits D.lines_left (at draft.new self.new.number self.new.line.items)) }
        ensures ok { OnOk result ((rest : List ℕ) →
            text_from D.judge (at draft.old self.old.number self.old.line.items) (bytes.now ++ rest)
            ≡ text_from D.judge (at draft.new self.new.number self.new.line.items) rest) }
        ensures faulty { IfErr result (IfFaulty (λ fault. (rest : List ℕ) →
            text_from D.judge (at draft.old self.old.number self.old.line.items) (bytes.now ++ rest) ≡ Err fault)) }
        ensures taken { OnOk result (TakesAll D.judge bytes.now (at draft.old self.old.number self.old.line.items)
            (at draft.new self.new.number self.new.line.items)) }
        ensures room { OnOk result (
            room_left D.lines_left D.LONGEST (at draft.new self.new.number self.new.line.items) + length bytes.now
            ≤ room_left D.lines_left D.LONGEST (at draft.old self.old.number self.old.line.items)) }
    {
        for byte in bytes {
            self.take_byte(draft, *byte)?;
        }
        Ok(())
    }

    /// Takes one byte of the text.
    fn take_byte<D: LineDraft>(&mut self, draft: &mut D, byte: u8) -> Result<(), Fault<D::Cause>>
        requires longest { IsLongest D.judge.longest D.LONGEST }
        requires ready { IsReady D.judge.longest D.fits D.lines_left (at draft.old self.old.number self.old.line.items) }
        ensures ready { OnOk result (IsReady D.judge.longest D.fits D.lines_left (at draft.new self.new.number self.new.line.items)) }
        ensures ok { OnOk result ((rest : List ℕ) →
            text_from D.judge (at draft.old self.old.number self.old.line.items) (byte ∷ rest)
            ≡ text_from D.judge (at draft.new self.new.number self.new.line.items) rest) }
        ensures faulty { IfErr result (IfFaulty (λ fault. (rest : List ℕ) →
            text_from D.judge (at draft.old self.old.number self.old.line.items) (byte ∷ rest) ≡ Err fault)) }
        ensures taken { OnOk result (TakesByte D.judge byte (at draft.old self.old.number self.old.line.items)
            (at draft.new self.new.number self.new.line.items)) }
        ensures room { OnOk result (
            room_left D.lines_left D.LONGEST (at draft.new self.new.number self.new.line.items) + 1
            ≤ room_left D.lines_left D.LONGEST (at draft.old self.old.number self.old.line.items)) }
    {
        if byte == LINE_FEED {
            return self.end_line(draft);
        }
        if self.line.len() >= D::LONGEST {
            return Err(Fault::Text {
                line: self.number,
                cause: draft.too_long(self.number),
            });
        }
        self.line.push(byte);
        Ok(())
    }

    /// Judges the line that is read, and begins the next one.
    fn end_line<D: LineDraft>(&mut self, draft: &mut D) -> Result<(), Fault<D::Cause>>
        requires longest { IsLongest D.judge.longest D.LONGEST }
        requires ready { IsReady D.judge.longest D.fits D.lines_left (at draft.old self.old.number self.old.line.items) }
        ensures ready { OnOk result (IsReady D.judge.longest D.fits D.lines_left (at draft.new self.new.number self.new.line.items)) }
        ensures ok { OnOk result (IsTaken D.judge (at draft.old self.old.number self.old.line.items)
            (at draft.new self.new.number self.new.line.items)) }
        ensures fewer { OnOk result (
            D.lines_left self.new.number draft.new + 1 ≤ D.lines_left self.old.number draft.old) }
        ensures faulty { IfErr result (IfFaulty (IsRefused D.judge (at draft.old self.old.number self.old.line.items))) }
    {
        match draft.take(self.number, self.line.as_slice()) {
            Ok(()) => {
                self.line.clear();
                self.number += 1;
                Ok(())
            }
            Err(stop) => Err(stopped(self.number, stop)),
        }
    }

    /// The whole, where the text ends here.
    pub(crate) fn finish<D: LineDraft>(&self, draft: D) -> Result<D::Whole, Fault<D::Cause>>
        requires longest { IsLongest D.judge.longest D.LONGEST }
        requires ready { IsReady D.judge.longest D.fits D.lines_left (at draft self.now.number self.now.line.items) }
        ensures ok { IfOk result (λ whole. (last : D)
            × (text_from D.judge (at draft self.now.number self.now.line.items) [] ≡ Ok last) × D.makes whole last) }
        ensures faulty { IfErr result (IfFaulty (λ fault.
            text_from D.judge (at draft self.now.number self.now.line.items) [] ≡ Err fault)) }
    {
        draft.finish(self.number, self.line.as_slice())
    }
}
