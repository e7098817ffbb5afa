//! The greatest lag of two queues as text.

ghost use Rattle.std.specs.Prelude.{Some};
ghost use Rattle.fairview_lag.specs.Lines as spec;

use crate::pairs::PairLag;
use crate::stretch::Lag;
use base_words::QueueNo;
use std::fmt;

/// Which of two queues is ahead of which.
#[derive(Clone, Copy)]
struct OrderText(QueueNo, QueueNo);

/// Which queue of a pair is ahead.
#[derive(Clone, Copy)]
struct WhoText(PairLag);

/// How far, the bound, and the turn.
#[derive(Clone, Copy)]
struct NumbersText(Lag);

/// What is told of a pair.
#[derive(Clone, Copy)]
pub struct PairText(pub PairLag);

impl fmt::Display for OrderText {
    ghost output = { λ text. Some (spec.order_text text.0 text.1) };

    fn fmt<W: fmt::Write>(&self, f: &mut fmt::Formatter<W>) -> fmt::Result {
        let leader = self.0.0;
        let other = self.1.0;
        write!(f, "q{leader} ahead of q{other}")
    }
}

impl fmt::Display for WhoText {
    ghost output = { λ text. Some (spec.who_text text.0) };

    fn fmt<W: fmt::Write>(&self, f: &mut fmt::Formatter<W>) -> fmt::Result {
        if self.0.lag.first < self.0.lag.second {
            OrderText(self.0.second, self.0.first).fmt(f)
        } else {
            OrderText(self.0.first, self.0.second).fmt(f)
        }
    }
}

impl fmt::Display for NumbersText {
    ghost output = { λ text. Some (spec.numbers_text text.0) };

    fn fmt<W: fmt::Write>(&self, f: &mut fmt::Formatter<W>) -> fmt::Result {
        let lead = self.0.apart();
        let bound = self.0.bound;
        let turn = self.0.turn;
        write!(f, ": lead {lead} of at most {bound}, at turn {turn}")
    }
}

impl fmt::Display for PairText {
    ghost output = { λ text. Some (spec.pair_text text.0) };

    fn fmt<W: fmt::Write>(&self, f: &mut fmt::Formatter<W>) -> fmt::Result {
        let core = self.0.core.0;
        let who = WhoText(self.0);
        let numbers = NumbersText(self.0.lag);
        write!(f, "core {core}, {who}{numbers}")
    }
}
