//! A core that does again what the notes of another one tell, and which notes it was told.

ghost use Rattle.std.specs.Prelude.{◌≡◌, [], ◌∷◌, true};
ghost use Rattle.base_words.specs.Journal.{EachNote};
ghost use Rattle.base_words.specs.Lawful.{MayStand};
ghost use Rattle.actor_core.specs.Recorded.{terms_at};
ghost use Rattle.judge_replay.specs.Reads.{GoesOn, IsLawfulCore};

use base_jobs::Step;
use base_words::Note;
use host_core::Hosted;
use judge_replay::{CoreReplay, Replayed};
use std::marker::Model;

/// A core of a house, which writes anew what it is told.
#[derive(Drop)]
pub(crate) struct Twin {
    replay: CoreReplay,
}

impl Model for Twin {
    ghost use Rattle.actor_core.specs.Recorded.{terms_at};
    ghost use Rattle.judge_replay.specs.Reads.{IsLawfulCore, core_read};
    ghost use Rattle.judge_sink.specs.Twins.{TwinView};

    ghost Value = { TwinView };

    ghost view = { λ twin. record { terms = terms_at twin.replay.linked.recorded; read = core_read twin.replay } };

    ghost invariant = { λ twin. IsLawfulCore twin.replay.linked };
}

/// No job is out when a core begins, so nothing is written. From then on its journal is known to be lawful.
fn begins(core: &mut Hosted)
    ensures terms { terms_at core.new.recorded ≡ terms_at core.old.recorded }
    ensures passed { core.new.recorded.journal.passed ≡ core.old.recorded.journal.passed }
    ensures lawful { IsLawfulCore core.new }
{
    let _ = core.settle(Step::Yield, 0);
}

impl Twin {
    /// A core that was just opened, of which nothing was read.
    pub(crate) fn of(hosted: Hosted) -> Self
        requires { hosted.recorded.journal.passed ≡ [] }
        ensures terms { result.terms ≡ terms_at hosted.recorded }
        ensures none { result.read ≡ [] }
    {
        let mut hosted = hosted;
        begins(&mut hosted);
        Twin {
            replay: CoreReplay::of(hosted),
        }
    }

    /// Reads the next note. Whether the core writes it there.
    pub(crate) fn reads(&mut self, note: &Note<u64>) -> bool
        ensures terms { self.new.terms ≡ self.old.terms }
        ensures read { result ≡ true → self.new.read ≡ note.now ∷ self.old.read }
    {
        match self.replay.read(note) {
            Replayed::Taken => true,
            _ => false,
        }
    }

    /// A fact alone: the notes that were read are lawful.
    pub(crate) fn is_lawful(&self)
        ensures { EachNote (MayStand self.now.terms) self.now.read }
    {
        let _replay = &self.replay;
    }
}
