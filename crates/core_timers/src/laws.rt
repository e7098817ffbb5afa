//! What the words of the contracts refuse. The bodies are empty: each contract is the law.
ghost use Rattle.core_timers.specs.BadTimers.{WordsRefuse, SetsRefuses, GoingRefuses};
ghost use Rattle.core_timers.specs.BadHeaps.{HeapsAreRefused};

/// Small cases of timers are refused.
pub fn bad_timers_are_refused()
    ensures words { WordsRefuse }
    ensures sets { SetsRefuses }
    ensures going { GoingRefuses }
{}

/// Small cases of heaps are refused.
pub fn bad_heaps_are_refused()
    ensures { HeapsAreRefused }
{}
