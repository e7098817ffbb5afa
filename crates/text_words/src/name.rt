//! Names, orders, answers and outcomes as text.

ghost use Rattle.std.specs.Prelude.{Some};
ghost use Rattle.text_words.specs.Notes as spec;

use crate::word::{mode_word, reason_word};
use base_words::{Answer, JobId, Order, OutcomeNote};
use std::fmt;

/// The name of a submission: `s>d#n`.
#[derive(Clone, Copy)]
pub struct NameText(pub JobId);

/// What was sent, without its task.
#[derive(Clone, Copy)]
pub struct OrderText(pub Order<()>);

/// What a command was answered.
#[derive(Clone, Copy)]
pub struct AnswerText(pub Answer);

/// What became of a submission, without its task.
#[derive(Clone, Copy)]
pub struct OutcomeText(pub OutcomeNote<u64>);

impl fmt::Display for NameText {
    ghost output = { λ text. Some (spec.name_text text.0) };

    fn fmt<W: fmt::Write>(&self, f: &mut fmt::Formatter<W>) -> fmt::Result {
        let from = self.0.from.0;
        let to = self.0.to.0;
        let number = self.0.number;
        write!(f, "{from}>{to}#{number}")
    }
}

impl fmt::Display for OrderText {
    ghost output = { λ text. Some (spec.order_text text.0) };

    fn fmt<W: fmt::Write>(&self, f: &mut fmt::Formatter<W>) -> fmt::Result {
        match self.0 {
            Order::Job(queue, ()) => {
                let queue = queue.0;
                write!(f, "job q{queue}")
            }
            Order::Create(shares) => {
                let shares = shares.get();
                write!(f, "create {shares}")
            }
            Order::SetShares(queue, shares) => {
                let queue = queue.0;
                let shares = shares.get();
                write!(f, "shares q{queue} {shares}")
            }
            Order::Close(queue, mode) => {
                let queue = queue.0;
                let mode = mode_word(mode);
                write!(f, "close q{queue} {mode}")
            }
            Order::CloseCore(mode) => {
                let mode = mode_word(mode);
                write!(f, "closecore {mode}")
            }
            Order::Wake(actor, number) => {
                let actor = actor.0;
                write!(f, "wake {actor}#{number}")
            }
        }
    }
}

impl fmt::Display for AnswerText {
    ghost output = { λ text. Some (spec.answer_text text.0) };

    fn fmt<W: fmt::Write>(&self, f: &mut fmt::Formatter<W>) -> fmt::Result {
        match self.0 {
            Answer::Created(queue) => {
                let queue = queue.0;
                write!(f, "created q{queue}")
            }
            Answer::TooMany => f.write_str("toomany"),
            Answer::NoMemory => f.write_str("nomemory"),
            Answer::CoreClosing => f.write_str("closing"),
            Answer::SharesSet => f.write_str("sharesset"),
            Answer::NoQueue => f.write_str("noqueue"),
            Answer::Closed => f.write_str("closed"),
            Answer::AlreadyClosed => f.write_str("alreadyclosed"),
            Answer::Woken => f.write_str("woken"),
            Answer::NoJob => f.write_str("nojob"),
        }
    }
}

impl fmt::Display for OutcomeText {
    ghost output = { λ text. Some (spec.outcome_text text.0) };

    fn fmt<W: fmt::Write>(&self, f: &mut fmt::Formatter<W>) -> fmt::Result {
        match self.0 {
            OutcomeNote::Finished(out) => write!(f, "finished {out}"),
            OutcomeNote::Returned(reason) => {
                let reason = reason_word(reason);
                write!(f, "returned {reason}")
            }
            OutcomeNote::Answered(answer) => {
                let answer = AnswerText(answer);
                write!(f, "answered {answer}")
            }
        }
    }
}
