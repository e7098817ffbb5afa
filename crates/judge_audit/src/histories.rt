//! The histories of all journals, which are made before the first rule is tried.

ghost use Rattle.std.specs.Prelude.{◌≡◌, ◌+◌, ◌<◌, ◌≤◌, IfOk, Some, length, slice_get};
ghost use Rattle.base_words.specs.Limits.{most_cores};
ghost use Rattle.judge_audit.specs.Histories.{AreHistories};

use base_words::ActorNo;
use note_facts::History;
use note_journal::Assembly;
use std::alloc::{AllocError, Global};

/// The history of each actor's journal.
pub(crate) fn histories_of(alloc: Global, assembly: &Assembly) -> Result<Vec<History>, AllocError>
    requires { assembly.now.cores ≤ most_cores }
    ensures { IfOk result (λ histories. AreHistories histories.items assembly.now (assembly.now.cores + 1)) }
{
    let mut histories = Vec::new(alloc);
    for actor in 0..assembly.cores() + 1 {
        histories.push(History::of(alloc, assembly.journal(ActorNo(actor)))?)?;
    }
    Ok(histories)
}

/// The history of one actor.
pub(crate) fn history_of(histories: &[History], actor: u8) -> &History
    requires { actor < length histories.now }
    ensures { slice_get histories.now actor ≡ Some result.now }
{
    let Some(history) = histories.get(actor as usize) else {
        unreachable!()
    };
    history
}
