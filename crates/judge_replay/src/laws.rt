//! Laws over what was read of a house. Their bodies call those of the crates below: each contract is the law.

ghost use Rattle.judge_replay.specs.BadReads.{ReadsAreRefused};
ghost use Rattle.judge_replay.specs.Houses.{ReadIsSound};

use actor_core::laws::recorded_are_joined;
use base_words::laws::joining_is_sound;
use host_core::HostJob;

/// What was read of a house whose actors are all at rest, and of which nothing else was written, is sound.
pub(crate) fn read_is_sound()
    ensures { ReadIsSound }
{
    recorded_are_joined::<HostJob>();
    joining_is_sound();
}

/// A note that is lost, read twice, or read before its time is refused.
pub fn bad_reads_are_refused()
    ensures { ReadsAreRefused }
{}
