//! What each step on the board tells. These types are for the proofs alone.

ghost use Rattle.link_board.specs.Told.{Accepts, Gives, Homes, LendsBack, LendsOrder, Probes};
ghost use Rattle.link_board.specs.Views.{both_parts, inward_part, out_part, spent_view};

use crate::board::Known;
use crate::held::Cell;
use atomic_blocks::rows::Play;
use atomic_table::{Join, Split};
use base_jobs::Task;

/// The sender's load of the word of its next order's cell, which takes the cell out.
pub(crate) struct LendOrder;

impl<J, T> Play<Cell<J, T>, Known<J, T>> for LendOrder {
    ghost then = { LendsOrder };
}

/// The sender's compare-and-exchange of that word to 0.
pub(crate) struct Accept;

impl<J, T> Play<Cell<J, T>, Known<J, T>> for Accept {
    ghost then = { Accepts };
}

/// The sender's load of the gate's word.
pub(crate) struct Probe;

impl<J, T> Play<Cell<J, T>, Known<J, T>> for Probe {
    ghost then = { Probes };
}

/// A load that puts the cell which is out home, with nothing in it: by the sender.
pub(crate) struct HomeFree;

impl<J, T> Play<Cell<J, T>, Known<J, T>> for HomeFree {
    ghost then = { Homes };
}

/// The same by the receiver.
pub(crate) struct HomeAnswered;

impl<J, T> Play<Cell<J, T>, Known<J, T>> for HomeAnswered {
    ghost then = { Homes };
}

/// The sender's load of the word of its next outcome's cell.
pub(crate) struct LiftOutcome;

impl<J: Task> Play<Cell<J, J::Out>, Known<J, J::Out>> for LiftOutcome {
    ghost use Rattle.link_ends.specs.Fits.{Fits};
    ghost use Rattle.link_board.specs.Told.{LiftsOutcome};

    ghost then = { LiftsOutcome (Fits J.meaning) };
}

/// The sender's load of the gate's word while nothing is outstanding.
pub(crate) struct Gather;

impl<J: Task> Play<Cell<J, J::Out>, Known<J, J::Out>> for Gather {
    ghost use Rattle.link_ends.specs.Fits.{Fits};
    ghost use Rattle.link_board.specs.Told.{Gathers};

    ghost then = { λ _ old _ new. Gathers (Fits J.meaning) old new };
}

/// The receiver's load of the word of its next order's cell.
pub(crate) struct LiftOrder;

impl<J: Task> Play<Cell<J, J::Out>, Known<J, J::Out>> for LiftOrder {
    ghost use Rattle.base_jobs.specs.Ready.{HasReadyJob};
    ghost use Rattle.link_board.specs.Told.{LiftsOrder};

    ghost then = { LiftsOrder (HasReadyJob J.meaning) };
}

/// The receiver's load of the word of its next outcome's cell, which takes the cell out.
pub(crate) struct LendBack;

impl<J, T> Play<Cell<J, T>, Known<J, T>> for LendBack {
    ghost then = { LendsBack };
}

/// The receiver's store of that word.
pub(crate) struct Give;

impl<J, T> Play<Cell<J, T>, Known<J, T>> for Give {
    ghost then = { Gives };
}

/// The receiver's load of the word that the next order would find, before it shuts the gate.
pub(crate) struct Look;

impl<J: Task> Play<Cell<J, J::Out>, Known<J, J::Out>> for Look {
    ghost use Rattle.base_jobs.specs.Ready.{HasReadyJob};
    ghost use Rattle.link_board.specs.Told.{Looks};

    ghost then = { λ _. Looks (HasReadyJob J.meaning) };
}

/// The receiver's compare-and-exchange that sets the top bit of that word.
pub(crate) struct Mark;

impl<J: Task> Play<Cell<J, J::Out>, Known<J, J::Out>> for Mark {
    ghost use Rattle.base_jobs.specs.Ready.{HasReadyJob};
    ghost use Rattle.link_board.specs.Told.{Marks};

    ghost then = { Marks (HasReadyJob J.meaning) };
}

/// The receiver's store of the gate's word.
pub(crate) struct Seal;

impl<J: Task> Play<Cell<J, J::Out>, Known<J, J::Out>> for Seal {
    ghost use Rattle.base_jobs.specs.Ready.{HasReadyJob};
    ghost use Rattle.link_board.specs.Told.{Seals};

    ghost then = { λ _ old _ new. Seals (HasReadyJob J.meaning) old new };
}

/// A load by a new seat, which tells nothing.
pub(crate) struct Peek;

impl<J, T> Play<Cell<J, T>, Known<J, T>> for Peek {
    ghost use Rattle.std.specs.Prelude.{◌≡◌};

    ghost then = { λ _ _ _ new. new.view ≡ spent_view };
}

/// A load by the seat that knows both ends.
pub(crate) struct Compare;

impl<J: Task> Play<Cell<J, J::Out>, Known<J, J::Out>> for Compare {
    ghost use Rattle.link_ends.specs.Fits.{Fits};
    ghost use Rattle.link_board.specs.Told.{Compares};

    ghost then = { λ _ old _ new. Compares (Fits J.meaning) old new };
}

/// The first seat keeps the sender's part, and the new one gets the receiver's.
pub(crate) struct Halves;

impl<J, T> Split<Known<J, T>> for Halves {
    ghost left = { out_part };

    ghost right = { inward_part };
}

impl<J, T> Join<Known<J, T>> for Halves {
    ghost both = { both_parts };

    ghost spent = { spent_view };
}
