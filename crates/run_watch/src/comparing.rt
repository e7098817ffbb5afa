//! What a watcher has seen, beside what was published.

ghost use Rattle.std.specs.Prelude.{◌≡◌, ◌≤◌};
ghost use Rattle.run_watch.specs.Closed.{told_by};
ghost use Rattle.run_watch.specs.Growth.{Grows};

use crate::board::BEGUN;
use crate::plays::{Beside, Compare, Further};
use crate::publisher::Publisher;
use crate::watcher::Watcher;

/// Tells, for proofs alone, that the notes which were published last begin with those whose numbers the watcher tells, and that the watcher tells that the core
/// closed by itself exactly if the publication that it saw is the first one that told so or a later one. Both ends stay as they are.
pub fn compare(publisher: &mut Publisher, watcher: &mut Watcher)
    requires { watcher.old.board ≡ publisher.old.board }
    ensures publisher { publisher.new ≡ publisher.old }
    ensures watcher { watcher.new ≡ watcher.old }
    ensures grows { Grows watcher.old.notes publisher.old.notes }
    ensures counted { watcher.old.count ≤ publisher.old.count }
    ensures closed { watcher.old.closed ≡ told_by publisher.old.closed watcher.old.count }
{
    let shared = &publisher.board.shared;
    let other = shared.split_seat::<Further>(&mut watcher.seat);
    shared.join_seat::<Beside>(&mut publisher.seat, other);
    // step: compare.
    let _begun = shared.load::<Compare>(&mut publisher.seat, BEGUN);
}
