//! Why a call of a node brought nothing.
//!
//! Each error is a struct with a model, so that a program that hands it on needn't know what it holds.

ghost use Rattle.std.specs.Prelude.{◌≡◌, Some};
ghost use Rattle.actor_caller.specs.Errors.{submit_text};
ghost use Rattle.duthlwyran.specs.Waits.{wait_text};

use base_words::{Answer, Order, Reason, TicketError};
use run_runtime::SubmitError;
use std::error::Error;
use std::fmt;
use std::marker::Model;

/// A job wasn't submitted. It comes back in the error, in its order.
pub struct NotSubmitted<J> {
    pub(crate) error: SubmitError<J>,
}

impl<J> Model for NotSubmitted<J> {
    ghost use Rattle.actor_caller.specs.declared.error.SubmitError.{SubmitError};

    ghost Value = { SubmitError J };

    ghost view = { λ refused. refused.error };
}

impl<J: Drop> Drop for NotSubmitted<J> {
    fn drop(self) {
        let NotSubmitted { error: _ } = self;
    }
}

impl<J: Drop> NotSubmitted<J> {
    /// The error, with the order.
    pub fn into_error(self) -> SubmitError<J>
        ensures { result ≡ self }
    {
        let NotSubmitted { error } = self;
        error
    }
}

impl<J> fmt::Display for NotSubmitted<J> {
    ghost output = { λ refused. Some (submit_text refused) };

    fn fmt<W: fmt::Write>(&self, f: &mut fmt::Formatter<W>) -> fmt::Result {
        fmt::Display::fmt(&self.error, f)
    }
}

impl<J> fmt::Debug for NotSubmitted<J> {
    fn fmt<W: fmt::Write>(&self, f: &mut fmt::Formatter<W>) -> fmt::Result {
        fmt::Display::fmt(&self.error, f)
    }
}

impl<J: Drop> Error for NotSubmitted<J> {}

/// Why a wait brought no number.
#[derive(Drop)]
pub enum WaitError<J> {
    /// The job came back, in its order.
    Returned(Reason, Order<J>),
    /// The order was a command, and this is its answer.
    Answered(Answer),
    /// The ticket is unknown, or was redeemed or detached before.
    Refused(TicketError),
}

/// A job brought no number. If it came back, it is in the error.
pub struct NotFinished<J> {
    pub(crate) error: WaitError<J>,
}

impl<J> Model for NotFinished<J> {
    ghost use Rattle.duthlwyran.specs.declared.error.WaitError.{WaitError};

    ghost Value = { WaitError J };

    ghost view = { λ refused. refused.error };
}

impl<J: Drop> Drop for NotFinished<J> {
    fn drop(self) {
        let NotFinished { error: _ } = self;
    }
}

impl<J: Drop> NotFinished<J> {
    /// The error, with what came back.
    pub fn into_error(self) -> WaitError<J>
        ensures { result ≡ self }
    {
        let NotFinished { error } = self;
        error
    }
}

impl<J> fmt::Display for NotFinished<J> {
    ghost output = { λ refused. Some (wait_text refused) };

    fn fmt<W: fmt::Write>(&self, f: &mut fmt::Formatter<W>) -> fmt::Result {
        match &self.error {
            WaitError::Returned(_, _) => f.write_str("the job came back"),
            WaitError::Answered(_) => f.write_str("the order was a command"),
            WaitError::Refused(TicketError::Unknown) => f.write_str("no such submission"),
            WaitError::Refused(TicketError::Gone) => f.write_str("redeemed or detached before"),
            WaitError::Refused(TicketError::Pending) => f.write_str("not collected yet"),
        }
    }
}

impl<J> fmt::Debug for NotFinished<J> {
    fn fmt<W: fmt::Write>(&self, f: &mut fmt::Formatter<W>) -> fmt::Result {
        fmt::Display::fmt(self, f)
    }
}

impl<J: Drop> Error for NotFinished<J> {}
