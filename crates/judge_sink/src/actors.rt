//! One type of sink for all actors of a house.

use crate::judging::Judging;
use base_words::Note;
use note_journal::{Refused, Sink};

/// The sink of an actor. That of a core judges; that of the outside actor passes all on, since it sends to cores alone.
///
/// A house wants sinks of one type for all its actors.
#[derive(Drop)]
pub enum ActorSink<S: Sink> {
    Core(Judging<S>),
    Outside(S),
}

impl<S: Sink> Sink for ActorSink<S> {
    ghost use Rattle.judge_sink.specs.Actors.{ActorRefused, actor_asks, actor_has, inner_of};

    ghost has = { λ sink. actor_has S.has sink };

    ghost refused = { λ sink count. ActorRefused S.has S.refused sink count };

    ghost asks = { λ sink. actor_asks S.asks sink };

    ghost mark = { λ sink. S.mark (inner_of sink) };

    fn take(&mut self, notes: &[Note<u64>]) -> Result<(), Refused> {
        match self {
            ActorSink::Core(judging) => judging.take(notes),
            ActorSink::Outside(sink) => sink.take(notes),
        }
    }
}
