//! The name of a submission, as a word of the command line.

ghost use Rattle.std.specs.Prelude.{◌≡◌};
ghost use Rattle.text_journal.specs.Fields as fields;

use base_words::{ActorNo, CoreNo, JobId, LAST_NUMBER};
use text_journal::field::number_in;
use text_words::words::cut_at;

/// The name that a word spells, as in a journal of 16 cores: `s>d#n`, an actor, a core and a number of their link.
#[tactic(auto, unfolding(text_journal::specs::Fields::name_of))]
pub fn name_of(word: &[u8]) -> Option<JobId>
    ensures { result ≡ fields.name_of 16 word.now }
{
    let (from, rest) = cut_at(word, b'>');
    let (to, number) = cut_at(rest, b'#');
    let from = number_in(from, 0, 16)?;
    let to = number_in(to, 0, 15)?;
    let number = number_in(number, 1, LAST_NUMBER)?;
    Some(JobId {
        from: ActorNo(from as u8),
        to: CoreNo(to as u8),
        number,
    })
}
