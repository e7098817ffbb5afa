//! The journals of a house, each told by the parts in a source of its own.

ghost use Rattle.std.specs.Prelude.{◌≡◌, ◌≤◌, ℕ, [], List, IfOk, length};
ghost use Rattle.judge_parts.specs.Houses.{has_ended, told_at};

use base_sealed::History;
use base_words::{ActorNo, Note};
use judge_replay::{Teller, Untold};
use std::alloc::{AllocError, Global};
use std::marker::Model;
use text_bytes::Source;
use text_feed::{Feed, FeedError};

/// Why the journal of an actor can't be told on, behind so many of its notes.
#[derive(Clone, Copy)]
pub struct Unread {
    pub actor: u8,
    pub behind: u64,
    pub error: FeedError,
}

/// A feed of each actor.
#[derive(Drop)]
pub struct Feeds<S: Source + Drop> {
    feeds: Vec<Feed<S>>,
    /// The sources as they were opened.
    opened: History<S>,
}

impl<S: Source + Drop> Model for Feeds<S> {
    ghost use Rattle.judge_parts.specs.Houses.{AreFeeds, FeedsView};

    ghost Value = { FeedsView S };

    ghost view = { λ f. record { feeds = f.feeds.items; opened = f.opened.items } };

    ghost invariant = { λ f. AreFeeds S.remaining (record { feeds = f.feeds.items; opened = f.opened.items }) };
}

impl<S: Source + Drop> Feeds<S> {
    /// Nothing was told of these sources, one for each actor.
    pub(crate) fn open(alloc: Global, sources: Vec<S>) -> Result<Self, AllocError>
        requires few { length sources.items ≤ 256 }
        ensures opened { IfOk result (λ feeds. feeds.opened ≡ sources.items) }
        ensures none { IfOk result (λ feeds. (actor : ℕ) → told_at feeds actor ≡ []) }
    {
        let mut feeds = Vec::with_capacity(alloc, sources.len())?;
        let mut opened = History::new();
        for source in sources {
            let actor = ActorNo(feeds.len() as u8);
            opened = opened.with(&source);
            feeds.push_reserved(Feed::open(alloc, actor, source));
        }
        Ok(Feeds { feeds, opened })
    }
}

impl<S: Source + Drop> Teller for Feeds<S> {
    type Error = Unread;

    ghost From = { List S };

    ghost from = { λ feeds. feeds.opened };

    ghost told = { λ feeds actor. told_at feeds actor };

    ghost ends = { λ feeds actor. has_ended S.remaining feeds actor };

    fn next(&mut self, actor: ActorNo) -> Result<Option<Note<u64>>, Untold<Unread>> {
        let place = actor.0 as usize;
        if place >= self.feeds.len() {
            return Ok(None);
        }
        match self.feeds[place].next() {
            Ok(found) => Ok(found),
            Err(error) => Err(Untold::Failed(Unread {
                actor: actor.0,
                behind: self.feeds[place].count(),
                error,
            })),
        }
    }

    fn goes_on(&mut self, went: bool) -> bool {
        went
    }
}
