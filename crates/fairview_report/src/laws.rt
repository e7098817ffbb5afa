//! What the definitions refuse.

ghost use Rattle.fairview_report.specs.BadFaults.{BadFaultsAreRefused};
ghost use Rattle.fairview_report.specs.BadWalks.{BadWalksAreRefused};

/// What is told of other journals than those that were handed over, or of none of them, is refused.
pub fn bad_walks_are_refused()
    ensures { BadWalksAreRefused }
{}

/// Faults that are not those of what was read are refused.
pub fn bad_faults_are_refused()
    ensures { BadFaultsAreRefused }
{}
