//! The row of one poll.

ghost use Rattle.std.specs.Prelude.{Some};
ghost use Rattle.fairview_report.specs.PollTexts as spec;

use base_words::CoreNo;
use judge_view::Poll;
use std::fmt;
use text_words::name::NameText;

/// The row of a poll, without its line feed.
#[derive(Clone, Copy)]
pub struct PollLine(pub CoreNo, pub Poll);

/// When and where it ran.
#[derive(Clone, Copy)]
struct TurnText(CoreNo, Poll);

/// Its job, which of its polls it was, and its time.
#[derive(Clone, Copy)]
struct JobText(Poll);

impl fmt::Display for TurnText {
    ghost output = { λ text. Some (spec.turn_text text.0 text.1) };

    fn fmt<W: fmt::Write>(&self, f: &mut fmt::Formatter<W>) -> fmt::Result {
        let core = self.0.0;
        let turn = self.1.turn;
        let queue = self.1.picked.queue.0;
        write!(f, "{core},{turn},{queue}")
    }
}

impl fmt::Display for JobText {
    ghost output = { λ text. Some (spec.job_text text.0) };

    fn fmt<W: fmt::Write>(&self, f: &mut fmt::Formatter<W>) -> fmt::Result {
        let name = NameText(self.0.name);
        let step = self.0.step;
        let time = self.0.time;
        write!(f, "{name},{step},{time}")
    }
}

impl fmt::Display for PollLine {
    ghost output = { λ line. Some (spec.poll_row line.0 line.1) };

    fn fmt<W: fmt::Write>(&self, f: &mut fmt::Formatter<W>) -> fmt::Result {
        let turn = TurnText(self.0, self.1);
        let job = JobText(self.1);
        let runtime = self.1.picked.virtual_runtime;
        let end = self.1.end.word();
        write!(f, "{turn},{job},{runtime},{end}")
    }
}
