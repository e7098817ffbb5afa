//! Laws over the definitions alone.

ghost use Rattle.base_words.specs.Drained.{DrainedEndsAll};
ghost use Rattle.base_words.specs.GoodJournals.{DrainedIsSound};
ghost use Rattle.base_words.specs.GoodParks.{ParkingIsSound};
ghost use Rattle.base_words.specs.HandBacks.{ClosingHandsBack};
ghost use Rattle.base_words.specs.Lag.{LagIsBounded, RuntimeIsNearFloor};
ghost use Rattle.base_words.specs.Joining.{JoinedAreSpelled, JoiningIsSound, LawfulIsSpelled};
ghost use Rattle.base_words.specs.Laws.{JobsAreCounted, NoRuntimeWraps, PicksNeverFall, StartsOnce, WorkIsAboveFloor};

pub fn picks_never_fall()
    ensures { PicksNeverFall }
{}

pub fn work_is_above_floor()
    ensures { WorkIsAboveFloor }
{}

pub fn no_runtime_wraps()
    ensures { NoRuntimeWraps }
{}

pub fn jobs_are_counted()
    ensures { JobsAreCounted }
{}

pub fn starts_once()
    ensures { StartsOnce }
{}

pub fn joining_is_sound()
    ensures { JoiningIsSound }
{}

pub fn lawful_is_spelled()
    ensures { LawfulIsSpelled }
{}

pub fn joined_are_spelled()
    ensures { JoinedAreSpelled }
{}

pub fn drained_is_sound()
    ensures { DrainedIsSound }
{}

pub fn runtime_is_near_floor()
    ensures { RuntimeIsNearFloor }
{}

pub fn lag_is_bounded()
    ensures { LagIsBounded }
{}

pub fn drained_ends_all()
    ensures { DrainedEndsAll }
{}

pub fn closing_hands_back()
    ensures { ClosingHandsBack }
{}

pub fn parking_is_sound()
    ensures { ParkingIsSound }
{}
