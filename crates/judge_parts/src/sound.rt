//! What the journals are that parts tell.

ghost use Rattle.std.specs.Prelude.{◌≡◌, ◌+◌, Ok, length, map};
ghost use Rattle.judge_parts.specs.Houses.{TellSound};
ghost use Rattle.judge_replay.specs.declared.reading.Found.TheVariants.{Sound};

use crate::feeds::{Feeds, Unread};
use crate::followed::Followed;
use crate::pace::Pace;
use judge_replay::{Found, ReplayError, replays};
use std::alloc::Global;
use text_bytes::Source;
use text_parts::parts::HouseNumbers;

/// What the journals are that these sources tell, one for each actor. If a house of these numbers writes them they are sound. Only what is inside
/// and outstanding is kept, and a part of each source.
///
/// # Errors
///
/// `BadConfig` for a number of the house that is out of its range; `Memory`; `Untold` where a source has no part to tell next.
pub fn judged_parts<S: Source + Drop>(
    alloc: Global,
    house: HouseNumbers,
    sources: Vec<S>,
) -> Result<Found, ReplayError<Unread>>
    requires { length sources.items ≡ house.cores + 1 }
    ensures { result ≡ Ok Sound → TellSound house (map S.remaining sources.items) }
{
    let Ok(mut feeds) = Feeds::open(alloc, sources) else {
        return Err(ReplayError::Memory);
    };
    replays(alloc, house.cores, house.cap, house.burst, &mut feeds)
}

/// The same of sources to which parts may still come. They are read on as long as `pace` says. A part that is cut waits for its end.
///
/// # Errors
///
/// As those of `judged_parts`.
pub fn followed_parts<S: Source + Drop, P: Pace + Drop>(
    alloc: Global,
    house: HouseNumbers,
    sources: Vec<S>,
    pace: P,
) -> Result<Found, ReplayError<Unread>>
    requires { length sources.items ≡ house.cores + 1 }
    ensures { result ≡ Ok Sound → TellSound house (map S.remaining sources.items) }
{
    let Ok(feeds) = Feeds::open(alloc, sources) else {
        return Err(ReplayError::Memory);
    };
    let mut followed = Followed { feeds, pace };
    replays(alloc, house.cores, house.cap, house.burst, &mut followed)
}
