//! Laws of fronts. The bodies say nothing: each contract is the law.

ghost use Rattle.judge_fronts.specs.BadFronts.{FrontsAreToldApart};
ghost use Rattle.judge_fronts.specs.Laws.{LostStaysLost, SoundIsNotLost};

use base_words::laws::drained_is_sound;

/// What is lost stays lost.
pub fn lost_stays_lost()
    ensures { LostStaysLost }
{}

/// Sound journals aren't lost.
pub fn sound_is_not_lost()
    ensures { SoundIsNotLost }
{}

/// Small fronts that are lost, and some that later notes make sound. The journals of a drained core are such later ones.
pub fn fronts_are_told_apart()
    ensures { FrontsAreToldApart }
{
    drained_is_sound();
}
