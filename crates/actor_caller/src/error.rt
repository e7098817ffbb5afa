//! Why a submission was refused.

ghost use Rattle.std.specs.Prelude.{◌≡◌, Some};
ghost use Rattle.actor_caller.specs.Errors.{refused_order, submit_text, tells_closed, tells_full};

use base_words::{Order, SendError};
use std::error::Error;
use std::fmt;

/// Why a submission was refused, tried in this order. The order comes back.
#[derive(Drop)]
pub enum SubmitError<J> {
    /// The outside journal has too few notes free for what its submissions may still need.
    JournalFull(Order<J>),
    /// There is no such core, or the link to it refused.
    Send(SendError<J>),
}

impl<J> SubmitError<J> {
    /// The order that was submitted.
    pub fn into_order(self) -> Order<J>
        ensures { result ≡ refused_order self }
    {
        match self {
            SubmitError::JournalFull(order) => order,
            SubmitError::Send(SendError::Closed(order, _)) => order,
            SubmitError::Send(SendError::Full(order)) => order,
            SubmitError::Send(SendError::Spent(order)) => order,
            SubmitError::Send(SendError::NoCore(order)) => order,
        }
    }

    /// Whether as many submissions to the core are outstanding as the link may have. There is room again when one of them was redeemed or
    /// let go. A full journal is not told here: it may stay so.
    pub fn is_full(&self) -> bool
        ensures { result ≡ tells_full self.now }
    {
        matches!(self, SubmitError::Send(SendError::Full(_)))
    }

    /// Whether the core is closed. Each later submission to it is answered so, too.
    pub fn is_closed(&self) -> bool
        ensures { result ≡ tells_closed self.now }
    {
        matches!(self, SubmitError::Send(SendError::Closed(_, _)))
    }
}

impl<J> fmt::Display for SubmitError<J> {
    ghost output = { λ error. Some (submit_text error) };

    fn fmt<W: fmt::Write>(&self, f: &mut fmt::Formatter<W>) -> fmt::Result {
        match self {
            SubmitError::JournalFull(_) => f.write_str("the outside journal is full"),
            SubmitError::Send(SendError::Closed(_, _)) => f.write_str("the core is closed"),
            SubmitError::Send(SendError::Full(_)) => f.write_str("the link is full"),
            SubmitError::Send(SendError::Spent(_)) => f.write_str("the link has no number left"),
            SubmitError::Send(SendError::NoCore(_)) => f.write_str("no such core"),
        }
    }
}

/// The text without the order, which may be of any type.
impl<J> fmt::Debug for SubmitError<J> {
    fn fmt<W: fmt::Write>(&self, f: &mut fmt::Formatter<W>) -> fmt::Result {
        fmt::Display::fmt(self, f)
    }
}

impl<J: Drop> Error for SubmitError<J> {}
