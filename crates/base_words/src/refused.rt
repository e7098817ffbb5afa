//! Laws that small journals with one thing wrong are not sound: each clause of soundness refuses what it is there to refuse.

ghost use Rattle.base_words.specs.BadBursts.{BurstsAreRefused};
ghost use Rattle.base_words.specs.BadCloses.{ClosesAreRefused};
ghost use Rattle.base_words.specs.BadClosings.{ClosingsAreRefused};
ghost use Rattle.base_words.specs.BadCollects.{CollectsAreRefused};
ghost use Rattle.base_words.specs.BadLinks.{LinksAreRefused};
ghost use Rattle.base_words.specs.BadOrder.{OrderIsRefused};
ghost use Rattle.base_words.specs.BadOutcomes.{OutcomesAreRefused};
ghost use Rattle.base_words.specs.BadParks.{ParksAreRefused};
ghost use Rattle.base_words.specs.BadRanges.{RangesAreRefused};
ghost use Rattle.base_words.specs.BadStarts.{StartsAreRefused};
ghost use Rattle.base_words.specs.BadTurns.{TurnsAreRefused};
ghost use Rattle.base_words.specs.BadWakes.{WakesAreRefused};
ghost use Rattle.base_words.specs.PicksRefused.{PicksAreRefused};
ghost use Rattle.base_words.specs.StepsRefused.{StepsAreRefused};

pub fn starts()
    ensures { StartsAreRefused }
{}

pub fn order()
    ensures { OrderIsRefused }
{}

pub fn closes()
    ensures { ClosesAreRefused }
{}

pub fn outcomes()
    ensures { OutcomesAreRefused }
{}

pub fn picks()
    ensures { PicksAreRefused }
{}

pub fn steps()
    ensures { StepsAreRefused }
{}

pub fn turns()
    ensures { TurnsAreRefused }
{}

pub fn ranges()
    ensures { RangesAreRefused }
{}

pub fn links()
    ensures { LinksAreRefused }
{}

pub fn collects()
    ensures { CollectsAreRefused }
{}

pub fn closings()
    ensures { ClosingsAreRefused }
{}

pub fn parks()
    ensures { ParksAreRefused }
{}

pub fn wakes()
    ensures { WakesAreRefused }
{}

pub fn bursts()
    ensures { BurstsAreRefused }
{}
