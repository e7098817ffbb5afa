//! Which verdicts on journals that go on stay, whatever notes come later.

ghost use Rattle.std.specs.Prelude.{◌≡◌, ◌<◌, ◌⊎◌, ℕ, IsTrue, None, false, length};
ghost use Rattle.base_words.specs.Assembly.{journal_of};
ghost use Rattle.base_words.specs.Picks.{queue_just_picked};
ghost use Rattle.base_words.specs.Spelled.{IsSpelled};
ghost use Rattle.judge_audit.specs.Verdicts.{IsFault, IsVerdict};
ghost use Rattle.judge_audit.specs.declared.judge.Verdict.TheVariants.{Sound, Fault};
ghost use Rattle.judge_fronts.specs.Certain.{IsCertain};
ghost use Rattle.judge_fronts.specs.Fronts.{IsLost};

use crate::certain::is_told;
use crate::told::ends_with_pick;
use base_words::ActorNo;
use judge_audit::Verdict;
use note_facts::note_at;
use note_journal::{Assembly, Journal};

/// Whether a fault of the fifth rule isn't only that the last note is a pick, which a later note may follow.
fn is_followed(journal: &Journal<u64>, line: usize) -> bool
    ensures right { IsTrue result → (line < length journal.now.notes) ⊎ (queue_just_picked journal.now.notes ≡ None) }
    ensures only { (line < length journal.now.notes) ⊎ (queue_just_picked journal.now.notes ≡ None) → IsTrue result }
{
    line < journal.len() || !ends_with_pick(journal)
}

/// Whether what the rule asks of other journals at the line of its fault is told.
fn is_certain(assembly: &Assembly, actor: ActorNo, line: usize, rule: u8) -> bool
    requires fault { IsFault assembly.now actor line rule }
    requires spelled { IsSpelled assembly.now }
    ensures lost { IsTrue result → IsLost assembly.now }
    ensures told { IsCertain assembly.now actor line rule → IsTrue result }
{
    let journal = assembly.journal(actor);
    if line == 0 || line > journal.len() {
        return false;
    }
    let note = note_at(journal, line - 1);
    is_told(assembly, actor, line, rule, &note)
}

/// Whether no later notes make the journals of this fault sound.
fn is_fault_lost(assembly: &Assembly, actor: ActorNo, line: usize, rule: u8) -> bool
    requires fault { IsFault assembly.now actor line rule }
    requires spelled { IsSpelled assembly.now }
    ensures lost { IsTrue result → IsLost assembly.now }
    ensures picks { rule ≡ 5 → (line < length (journal_of actor assembly.now)) ⊎ (queue_just_picked (journal_of actor assembly.now) ≡ None) → IsTrue result }
    ensures outcomes { rule ≡ 4 → IsTrue result }
    ensures told { IsCertain assembly.now actor line rule → IsTrue result }
{
    match rule {
        // Behind rules that are kept, the fourth asks nothing that isn't told.
        4 => true,
        5 => is_followed(assembly.journal(actor), line),
        _ => is_certain(assembly, actor, line, rule),
    }
}

/// Whether no later notes make these journals sound, by the verdict on them.
///
/// `false` says only that this isn't certain.
pub fn is_lost(assembly: &Assembly, verdict: &Verdict) -> bool
    requires verdict { IsVerdict assembly.now verdict.now }
    requires spelled { IsSpelled assembly.now }
    ensures lost { IsTrue result → IsLost assembly.now }
    ensures sound { verdict.now ≡ Sound → result ≡ false }
    ensures picks { (core line : ℕ) → verdict.now ≡ Fault core line 5
        → (line < length (journal_of core assembly.now)) ⊎ (queue_just_picked (journal_of core assembly.now) ≡ None) → IsTrue result }
    ensures outcomes { (actor line : ℕ) → verdict.now ≡ Fault actor line 4 → IsTrue result }
    ensures told { (actor line rule : ℕ) → verdict.now ≡ Fault actor line rule → IsCertain assembly.now actor line rule → IsTrue result }
{
    match verdict {
        Verdict::Sound => false,
        Verdict::Fault { actor, line, rule } => is_fault_lost(assembly, *actor, *line, *rule),
    }
}
