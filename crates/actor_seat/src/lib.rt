//! An actor at its ends of the links: a core beside its journal, or the outside actor's journal; and the bells by which one wakes another.
//!
//! # What is shared
//!
//! A seat is one thread's. Its core, its journal and its desk are seen by nobody else. It touches other threads by two things alone.
//!
//! - **Its ends.** Each is one side of a ring whose other side has another seat. It goes out by the steps of link_board, and nothing else here
//!   is an operation that another thread can see.
//! - **Bells.** All handles on one bell share a count of those who lie down and a word that a ring raises (`event.rt`). Whose bell it is and
//!   its name stand there too, and never change. How often these hands rang it (`Bell.rings`) is in the handle, and shared with nobody.
//!
//! # Who may touch it
//!
//! - The fields of `Seat` and `OutsideSeat` are private. A call takes one end or none, so behind each call all ends are what the journal says
//!   of them (`IsSeated`, `IsSeatedOutside`).
//! - A job that is out, and a turn that is open, leave the seat usable: orders are delivered and outcomes collected meanwhile.
//! - Anyone who has a handle may ring. Only whoever has a bell of its own (`OwnBell`) sleeps on it, and only by `rest`, which looks once more.
//!
//! # In which order
//!
//! 1. Send: the order is accepted on the ring, then noted, then the receiver's bell is rung.
//! 2. Outcome: the poll or the answer is noted, then the outcome is given on the sender's ring, then the sender's bell is rung. A call doesn't
//!    return between the note and the outcome, so no outcome is owed between two calls.
//! 3. Rest: it lies down, then looks at everything, then parks. A ring behind the first ends the sleep. A ring before it came from a step that
//!    the look sees. Types hold this order up (`bell.rt`). A sleep ends by itself if it has a limit.
#![tactic(auto)]

mod bell;
pub mod bells;
mod event;
pub mod laws;
pub mod outside_seat;
mod own_wake;
mod resting;
pub mod seat;
mod turn;

pub use actor_core::Turned;
pub use bell::{LastLook, OwnBell};
pub use bells::Bells;
pub use outside_seat::OutsideSeat;
pub use resting::Woken;
pub use seat::{Seat, Taken};
