//! One worker: a core at its seat, on a thread that serves it until the core is drained.
//!
//! # What is shared
//!
//! A worker's seat, clock, gate, sink and the state of its jobs (`Task::Local`) are its thread's from `Work::run` on. Others see of it:
//!
//! - **its ends**, one side of each link (see actor_seat);
//! - **the bells**: its own, on which it alone sleeps, and those of all actors, which it rings;
//! - **its board** (run_watch), on which it alone publishes. Whoever has its watcher looks.
//!
//! # Who may touch it
//!
//! Three types stand round each other, each with a promise more: a `Seat`; a `Served`, of which no job is out and no turn open between its
//! steps, and which keeps room for its end; and the rounds, which ring a bell for each note. A step looks at the room first. If the journal is short, it closes
//! the core, shuts each gate, and writes two notes a step from then on. Nothing else here closes a core by itself.
//!
//! # In which order
//!
//! 1. Once, on its own thread: it writes to the memory of its notes, and begins the state of its jobs (`begin`).
//! 2. Before a round: it publishes if 1024 rounds did something since the last time, and passes on its notes if the journal is low.
//! 3. A round: turns alone, at most 16 behind a look and no more than 2 microseconds of polls. Or a look: it wakes the jobs that slept
//!    long enough, at most as many as a link holds, shuts the gates of a closed core, delivers of each sender at most as many orders as a
//!    link holds, makes one turn, and collects of each core. It rings for the notes of each of these steps. Behind a round in which
//!    nothing was done it only asks whether an end shows something or a timer is due.
//! 4. A poll: the gate is asked, then the job is polled, then the clock is read. The next poll begins with that reading, unless a look made no
//!    turn since: then the clock is read once more, right before the job is polled. A poll's outcome is given before the next poll.
//!    Behind its turn a job that was parked is asked whether it sleeps (`sleeping.rt`).
//! 5. A rest, behind as many idle rounds as it tries: it publishes, passes on what is kept, lies down, looks at everything once more, and
//!    parks only if there was nothing, and until its next timer at most.
//! 6. Its end: it publishes right behind the round in which it came to it. When the core is drained, it publishes for the last time, and
//!    asks its sink once more.
#![tactic(auto)]

pub mod ended;
mod gates;
pub mod laws;
mod opening;
mod passing;
mod rounds;
pub mod served;
mod showing;
mod sleeping;
pub mod stopwatch;
pub mod waking;
pub mod worker;

pub use actor_seat::{Bells, OutsideSeat, Seat, Taken, Turned};
pub use ended::Ended;
pub use served::Served;
pub use stopwatch::Stopwatch;
pub use worker::Worker;
