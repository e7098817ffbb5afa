//! The polls of a script's job.

ghost use Rattle.std.specs.Prelude.{◌+◌, ◌≡◌, ◌≤◌, ◌<◌, ◌∷◌, [], length, OnErr};
ghost use Rattle.base_jobs.specs.declared.poll.Poll.TheVariants.{Submit, Done};
ghost use Rattle.base_jobs.specs.Filling.{with_poll, with_last};
ghost use Rattle.text_words.specs.Fields.{both, made};
ghost use Rattle.fairexec_script.specs.Polls as spec;

use base_jobs::ScriptJob;
use base_words::{CoreNo, QueueNo};
use text_words::field::{both, core_field, count_field, queue_field};
use text_words::words::cut_at;
use text_words::{Cause, Words};

/// A poll that isn't the last one of its job, as its word says. Times are nanoseconds.
#[derive(Clone, Copy)]
pub(crate) enum Early {
    /// `yT`
    Yield(u64),
    /// `pT>D.Q`
    Submit(u64, CoreNo, QueueNo),
    /// `kT`
    Park(u64),
}

/// Reads the polls that the next words write, so many of them, into a job that has one poll of no time and no answer.
pub fn read_job(
    words: &mut Words<'_>,
    cores: u8,
    count: usize,
    job: &mut ScriptJob,
) -> Result<(), Cause>
    requires cores { 1 ≤ cores }
    requires some { 1 ≤ count }
    requires most { count ≤ 64 }
    requires left { length words.old ≡ count }
    requires blank { job.old ≡ spec.fresh_job (Done 0 0 ∷ []) }
    ensures { made (λ _. job.new) result ≡ spec.job_field cores words.old }
{
    let mut found = Ok(());
    for _i in 1..count {
        found = add_poll(job, found, early_poll(words.next_word(), cores));
    }
    end_job(job, found, done_parts(words.next_word()))
}

/// One more poll before the last, or the worse of what is wrong with it and with those before it.
fn add_poll(
    job: &mut ScriptJob,
    found: Result<(), Cause>,
    read: Result<Early, Cause>,
) -> Result<(), Cause>
    requires few { length job.old.polls < 64 }
    requires fresh { job.old.polled ≡ 0 }
    ensures fresh { job.new.polled ≡ 0 }
    ensures found { result ≡ made (λ _. tt) (both found read) }
    ensures polls { made (λ _. job.new.polls) result ≡ made (λ p. with_poll (spec.poll_of p.1) job.old.polls) (both found read) }
    ensures err { OnErr result (job.new.polls ≡ job.old.polls) }
{
    let (_, early) = both(found, read)?;
    match early {
        Early::Yield(told) => job.add_yield(told),
        Early::Submit(told, core, queue) => job.add_submit(told, core, queue),
        Early::Park(told) => job.add_park(told),
    }
    Ok(())
}

/// The last poll, or the worse of what is wrong with it and with those before it.
fn end_job(
    job: &mut ScriptJob,
    found: Result<(), Cause>,
    parts: Result<(u64, u64), Cause>,
) -> Result<(), Cause>
    requires { job.old.polled ≡ 0 }
    ensures fresh { job.new.polled ≡ 0 }
    ensures polls { made (λ _. job.new.polls) result
        ≡ made (λ p. with_last (Done (p.1).0 (p.1).1) job.old.polls) (both found parts) }
{
    let (_, (told, value)) = both(found, parts)?;
    job.set_last(told, value);
    Ok(())
}

/// A poll before the last: `yT` yields and `kT` is parked, each with the time T that it tells, or it submits.
fn early_poll(word: &[u8], cores: u8) -> Result<Early, Cause>
    requires { 1 ≤ cores }
    ensures { made spec.poll_of result ≡ spec.early_field cores word.now }
{
    match word {
        [b'y', rest @ ..] => Ok(Early::Yield(count_field(rest)?)),
        [b'p', rest @ ..] => submit_poll(rest, cores),
        [b'k', rest @ ..] => Ok(Early::Park(count_field(rest)?)),
        _ => Err(Cause::BadWord),
    }
}

/// `T>D.Q`, behind the letter of a poll that submits: the time T that it tells, the core D and its queue Q.
fn submit_poll(rest: &[u8], cores: u8) -> Result<Early, Cause>
    requires { 1 ≤ cores }
    ensures { made spec.poll_of result ≡ spec.submit_field cores rest.now }
{
    let (told, place) = cut_at(rest, b'>');
    let (core, queue) = cut_at(place, b'.');
    let core = core_field(core, cores);
    let queue = queue_field(queue);
    submitting(both(count_field(told), both(core, queue)))
}

/// The poll that submits, by what was read of it.
fn submitting(parts: Result<(u64, (CoreNo, QueueNo)), Cause>) -> Result<Early, Cause>
    ensures { made spec.poll_of result ≡ made (λ p. Submit p.0 (p.1).0 (p.1).1) parts }
{
    let (told, (core, queue)) = parts?;
    Ok(Early::Submit(told, core, queue))
}

/// `dT=V`, a poll that is done: the time T that it tells, and its answer V.
fn done_parts(word: &[u8]) -> Result<(u64, u64), Cause>
    ensures { made (λ p. Done p.0 p.1) result ≡ spec.done_field word.now }
{
    let [b'd', rest @ ..] = word else {
        return Err(Cause::BadWord);
    };
    let (told, answer) = cut_at(rest, b'=');
    both(count_field(told), count_field(answer))
}
