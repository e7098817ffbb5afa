//! What a walk over the journal of a core knows of two of its queues.

ghost use Rattle.std.specs.Prelude.{◌≡◌, ◌∷◌, ℕ};
ghost use Rattle.base_words.specs.Journal.{Journal as Notes};
ghost use Rattle.fairview_marks.specs.Leads.{KnowsStanding};
ghost use Rattle.fairview_lag.specs.Lags as lags;
ghost use Rattle.fairview_lag.specs.PairWalks as spec;

use crate::pairs::{PairLag, pair_of};
use crate::stretch::{Begun, Lag, begun_after, lag_told};
use base_words::{CoreNo, Note, QueueNo};
use fairview_marks::standing::Standing;

/// Of the notes that were read: the beginning of the stretch of two queues, if both have work, and the first lag in which they were the furthest apart.
/// The first queue has the lower number.
#[derive(Clone, Copy)]
pub struct PairWalk {
    first: QueueNo,
    second: QueueNo,
    begun: Option<Begun>,
    greatest: Option<Lag>,
}

/// The first of two lags, unless the queues are further apart in the second.
fn further(old: Option<Lag>, new: Option<Lag>) -> Option<Lag>
    ensures { result ≡ lags.further old new }
{
    match (old, new) {
        (Some(old), Some(new)) => {
            if old.apart() < new.apart() {
                Some(new)
            } else {
                Some(old)
            }
        }
        (None, Some(new)) => Some(new),
        (old, None) => old,
    }
}

impl PairWalk {
    /// The two never had work at once.
    pub(crate) fn new(first: QueueNo, second: QueueNo) -> Self
        ensures { result ≡ spec.idle (first, second) }
    {
        PairWalk {
            first,
            second,
            begun: None,
            greatest: None,
        }
    }

    /// Reads the next note, behind which this is known of all queues.
    pub(crate) fn add(&mut self, standing: &Standing, note: &Note<u64>)
        ensures { (burst : ℕ) → (names : ℕ × ℕ) → (before : Notes ℕ) → KnowsStanding burst standing.now (note.now ∷ before) → self.old ≡ spec.pair_known burst before names → self.new ≡ spec.pair_known burst (note.now ∷ before) names }
    {
        self.begun = begun_after(standing, self.begun, self.first, self.second);
        let lag = lag_told(standing, self.begun, self.first, self.second, note);
        self.greatest = further(self.greatest, lag);
    }

    /// The greatest lag of the two, who are queues of this core, if they have any.
    pub(crate) fn told(&self, core: CoreNo) -> Option<PairLag>
        ensures { result ≡ spec.pair_lag core self.now }
    {
        pair_of(core, self.first, self.second, self.greatest)
    }
}
