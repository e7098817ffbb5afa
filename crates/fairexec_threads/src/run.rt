//! Runs a script on threads, and tells what became of its orders.

ghost use Rattle.std.specs.Prelude.{◌≡◌, Err, IfOk, IfErr, IfSome, true};
ghost use Rattle.std.specs.Io.KnownBytes.{Keeps};
ghost use Rattle.fairexec_script.specs.ThreadsDrafts.{empty_draft};
ghost use Rattle.fairexec_script.specs.Faults.{IfOf};
ghost use Rattle.fairexec_script.specs.ThreadsScripts.{judge, threads_script_of};
ghost use Rattle.text_bytes.specs.Taking.{IsPrompt, IsToldByRead};
ghost use Rattle.text_bytes.specs.Tries.{HasFailedSince};
ghost use Rattle.text_words.specs.Faults.{IfRead, IfText, IfUnwritten};
ghost use Rattle.fairexec_threads.specs.Runs.{RunsOrders, IsRun, IsCutShort, IfUntold, IsOfStart};

use crate::calls::{close_all, offer_all};
use crate::house::start_house;
use fairexec_report::write_report;
use fairexec_script::{ThreadsFault, ThreadsScript, read_threads_script};
use note_journal::Assembly;
use run_runtime::FinishError;
use std::alloc::Global;
use std::sync::Wait;
use std::thread::Threads;
use text_bytes::{ByteSink, Source};

/// Starts the runtime of the script, sends its orders, closes each core, and waits until all workers have ended.
fn run_orders<H>(rt: H, alloc: Global, script: ThreadsScript) -> Result<Assembly, ThreadsFault>
where
    H: Threads + Wait + Copy + Drop + Send + 'static,
    ensures ok { IfOk result (RunsOrders script.cores script.cap script.burst script.queues.items script.orders.items) }
    ensures fault { IfErr result IsOfStart }
{
    let ThreadsScript {
        cores,
        cap,
        burst,
        queues,
        orders,
    } = script;
    let mut house = start_house(rt, alloc, cores, cap, burst, queues)?;
    offer_all(&mut house, orders);
    close_all(&mut house, cores);
    match house.finish(&rt) {
        Ok(assembly) => Ok(assembly),
        Err(FinishError::NotClosed(_, _)) => unreachable!(),
    }
}

/// Reads a script, runs it on a thread for each core, and writes what became of each of its orders, and at last the verdict of the journals.
/// Between them stand the text of the journals, with `journal`, and behind it the statistics of all cores, with `stats`.
///
/// The whole script is read and judged before a thread is made. The answer is that the journals are sound.
///
/// # Errors
///
/// A faulty line of the script (`Text`), a failed read (`Read`) or write (`Write`), or 1000 interrupted ones in a row, want of memory
/// (`Memory`), a thread that can't be made (`Thread`). After a failed write a first part of the text may be written, and nothing is tried behind it. Before each other fault nothing
/// is written.
pub fn threads_script<H, R: Source, S: ByteSink>(
    rt: H,
    alloc: Global,
    journal: bool,
    stats: bool,
    source: &mut R,
    sink: &mut S,
) -> Result<bool, ThreadsFault>
where
    H: Threads + Wait + Copy + Drop + Send + 'static,
    ensures done { IfOk result (IsRun journal stats (R.remaining source.old) (S.contents sink.old) (S.contents sink.new)) }
    ensures sound { IfOk result (λ sound. sound ≡ true) }
    ensures faulty { IfErr result (IfOf (IfText (λ fault.
        IfSome (R.remaining source.old) (λ text. threads_script_of text ≡ Err fault)))) }
    ensures prompt { IfErr result (IfOf (IsPrompt judge empty_draft (R.remaining source.old) (R.remaining source.new))) }
    ensures at_once { IfErr result (IfOf (IfText (λ fault.
        IsToldByRead judge empty_draft R.remaining R.tries R.reads R.interrupts source.old source.new))) }
    ensures unread { IfErr result (IfOf (IfRead (HasFailedSince R.tries R.interrupts R.fails source.old source.new))) }
    ensures silent { IfErr result (IfUntold (Keeps (S.contents sink.old) (S.contents sink.new))) }
    ensures unwritten { IfErr result (IfOf (IfUnwritten (IsCutShort journal stats (R.remaining source.old) (S.contents sink.old) (S.contents sink.new)))) }
    ensures failed { IfErr result (IfOf (IfUnwritten (HasFailedSince S.tries S.interrupts S.fails sink.old sink.new))) }
{
    let script = read_threads_script(alloc, source)?;
    let assembly = run_orders(rt, alloc, script)?;
    match write_report(alloc, journal, stats, &assembly, sink) {
        Ok(sound) => Ok(sound),
        Err(fault) => Err(ThreadsFault::Of(fault)),
    }
}
