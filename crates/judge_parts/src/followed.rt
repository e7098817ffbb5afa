//! The journals of a house, each told by the parts in a source of its own, to which parts may still come.

ghost use Rattle.std.specs.Prelude.{◌≡◌, ℕ, List};
ghost use Rattle.judge_parts.specs.Houses.{has_ended, told_at};

use crate::feeds::{Feeds, Unread};
use crate::pace::Pace;
use base_words::{ActorNo, Note};
use judge_replay::{Teller, Untold};
use text_bytes::Source;
use text_feed::{FeedCause, FeedError};
use text_parts::part::PartCause;

/// A feed of each actor, and who follows them.
#[derive(Drop)]
pub(crate) struct Followed<S: Source + Drop, P: Pace + Drop> {
    pub(crate) feeds: Feeds<S>,
    pub(crate) pace: P,
}

/// Whether the front of a part is there, and not its end.
fn is_cut(why: &Unread) -> bool {
    match why.error {
        FeedError::Faulty(FeedCause::Part(PartCause::Cut)) => true,
        _ => false,
    }
}

/// Why no note is told, where what is cut may still get its end.
fn waits_for(why: Untold<Unread>) -> Untold<Unread> {
    match why {
        Untold::Later => Untold::Later,
        Untold::Failed(error) => {
            if is_cut(&error) {
                Untold::Later
            } else {
                Untold::Failed(error)
            }
        }
    }
}

impl<S: Source + Drop, P: Pace + Drop> Teller for Followed<S, P> {
    type Error = Unread;

    ghost From = { List S };

    ghost from = { λ followed. followed.feeds.opened };

    ghost told = { λ followed actor. told_at followed.feeds actor };

    ghost ends = { λ followed actor. has_ended S.remaining followed.feeds actor };

    fn next(&mut self, actor: ActorNo) -> Result<Option<Note<u64>>, Untold<Unread>> {
        match self.feeds.next(actor) {
            Ok(Some(note)) => {
                self.pace.hears(&note);
                Ok(Some(note))
            }
            Ok(None) => Ok(None),
            Err(why) => Err(waits_for(why)),
        }
    }

    fn goes_on(&mut self, went: bool) -> bool {
        self.pace.goes_on(went)
    }
}
