//! Laws of lags.

ghost use Rattle.fairview_lag.specs.BadLags.{BadLagsAreRefused};
ghost use Rattle.fairview_lag.specs.Laws.{LagsAreBounded, StretchesKeepWork, StretchesAreWhole, GreatestIsOfAll};

/// In a lawful journal no queue is ahead of another by more than the bound of that lag.
pub fn lags_are_bounded()
    ensures { LagsAreBounded }
{}

/// Both queues keep work in the notes over which a lag is counted.
pub fn stretches_keep_work()
    ensures { StretchesKeepWork }
{}

/// A lag is counted over all notes since both queues have work: before the first of them one has none.
pub fn stretches_are_whole()
    ensures { StretchesAreWhole }
{}

/// The greatest lag is one of all lags, and in none are the queues further apart.
pub fn greatest_is_of_all()
    ensures { GreatestIsOfAll }
{}

/// Lags beyond their bound, stretches that aren't, and leads that aren't the greatest are refused.
pub fn bad_lags_are_refused()
    ensures { BadLagsAreRefused }
{}
