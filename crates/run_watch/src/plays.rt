//! What each step on the table tells. These types are for the proofs alone.

ghost use Rattle.run_watch.specs.Told.{Begins, Puts, Ends, Looks, Reads, Checks, Compares};
ghost use Rattle.run_watch.specs.Views.{watching, beside, spent_view};
ghost use Rattle.std.specs.Prelude.{◌-◌};

use crate::board::Known;
use atomic_table::{Join, Play, Split};
use note_journal::RunningJournal;

/// The publisher's store of the count of publications begun.
pub(crate) struct Begin;

impl Play<RunningJournal<u64>, Known> for Begin {
    ghost then = { λ step. Begins step.first };
}

/// The publisher's store of a word of the row.
pub(crate) struct Put;

impl Play<RunningJournal<u64>, Known> for Put {
    ghost then = { λ step. Puts (step.word - 2) step.first };
}

/// The publisher's compare-and-exchange of the count of publications done, which tells the journal of the publication.
pub(crate) struct End;

impl Play<RunningJournal<u64>, Known> for End {
    ghost then = { λ step. Ends step.second step.said };
}

/// A watcher's load of the count of publications done.
pub(crate) struct Look;

impl Play<RunningJournal<u64>, Known> for Look {
    ghost then = { λ _. Looks };
}

/// A watcher's load of a word of the row.
pub(crate) struct Read;

impl Play<RunningJournal<u64>, Known> for Read {
    ghost then = { λ _. Reads };
}

/// A watcher's load of the count of publications begun.
pub(crate) struct Check;

impl Play<RunningJournal<u64>, Known> for Check {
    ghost then = { λ _. Checks };
}

/// The seat keeps all that it knows, and the new one watches.
pub(crate) struct Further;

impl Split<Known> for Further {
    ghost left = { λ view. view };

    ghost right = { watching };
}

/// The publisher's seat takes in what a watcher's knows.
pub(crate) struct Beside;

impl Join<Known> for Beside {
    ghost both = { beside };

    ghost spent = { spent_view };
}

/// A load by the publisher's seat that knows what a watcher has seen.
pub(crate) struct Compare;

impl Play<RunningJournal<u64>, Known> for Compare {
    ghost then = { λ _. Compares };
}
