//! Runs scripts on the model of a thread-per-core executor with fair task queues, or on its threads, and judges journals.
//!
//! What each part of the program may do stands in its bounds, since a body can do no more than they say:
//!
//! - `run`, `audit` and `journal` read: their files are `ReadOnlyFiles`, which opens for reading alone. Only `threads` may start threads and wait.
//! - What does something hands on how it ended (`Ended`), and has no standard error. What has it (`told`, `not_done`, `failed`) only tells.
//! - Each command ends with one status, which a failed write to standard error doesn't change.
#![tactic(auto)]

mod ended;
mod follow;
mod parts;
mod tally;

ghost use Rattle.std.specs.Prelude.{◌≡◌, ◌≢◌, Bool, true, Err, IfErr, IfOk, OnErr, OnOk, map, option_map, string_bytes};
ghost use Rattle.std.specs.Io.KnownBytes.{Appends};
ghost use Rattle.std.specs.declared.io.ErrorKind.TheVariants as kinds;
ghost use Rattle.clap.specs.Words.{fault_of};
ghost use Rattle.fair_args.specs.Asks.{asks_of};
ghost use Rattle.fairexec.specs.Answers.{HasPrinted};
ghost use Rattle.fairexec.specs.Bytes.{HasNoText, HasText, JudgesBytes, PrintsText};
ghost use Rattle.fairexec.specs.Ends.{EndsBy, EndsFor, status_ended, status_unasked};
ghost use Rattle.fairexec.specs.Files.{IsUnopened, IsUnopenedScript, Judges, Runs, RunsOnThreads};
ghost use Rattle.fairexec_args.specs.Asks.{what_named};
ghost use Rattle.fairexec_args.specs.CommandLine.{our_app};
ghost use Rattle.fairexec_args.specs.declared.asked.What.TheVariants as whats;
ghost use Rattle.text_bytes.specs.Tries.{HasFailedSince};
ghost use Rattle.text_journal.specs.Pages.{AppendsFront};
ghost use Rattle.text_words.specs.Statuses.{fault_status};
ghost use Rattle.fairexec_script.specs.declared.fault.ThreadsFault.TheVariants.{Of};
ghost use Rattle.text_words.specs.declared.status.Status.TheVariants as status;
ghost use Rattle.text_words.specs.declared.fault.Fault.TheVariants as faults;

use crate::ended::{Ended, told};
use crate::follow::follow_parts;
use crate::parts::audit_parts;
use fair_args::{Console, ReadOnly, ReadOnlyFiles, Unasked, words_of};
use fair_parts::unopened;
use fairexec_args::{What, parse};
use fairexec_report::audit_text;
use fairexec_run::run_script;
use fairexec_script::ThreadsFault;
use fairexec_threads::threads_script;
use std::io;
use std::io::ErrorKind;
use std::process::ExitCode;
use std::sync::Wait;
use std::thread::Threads;
use std::time::Clock;
use text_bytes::{ByteSink, DeviceFault, Source, TextSource, flush, write_all};
use text_journal::JournalCause;
use text_parts::{BytesFault, text_of_parts};
use text_words::{Cause, Fault, Status};

// Only this function has all rights of the system.
fn main(rt: HostRuntime) -> ExitCode {
    let (console, system) = (Console::of(rt), ReadOnly::of(rt));
    let status = program(&console, &rt, &system, words_of(&rt), &mut rt.reader());
    ExitCode::from(status.code())
}

/// Does what the words of the command line ask for, and answers how it ended.
fn program<C: Print + Eprint, K: Clock, R, I: Source>(
    console: &C,
    clock: &K,
    rt: &R,
    words: Result<Vec<String>, ErrorKind>,
    input: &mut I,
) -> Status
where
    R: ReadOnlyFiles + AllocGlobal + Threads + Wait + Copy + Drop + Send + 'static,
{
    match words {
        Ok(words) => by_words(
            console,
            clock,
            rt,
            words.as_slice(),
            input,
            &mut io::writer(console),
        ),
        Err(kind) => words_refused(console, kind),
    }
}

/// Does what these words ask for, the first of which is the program's name. Without a file the input is read, and what is asked for is
/// written to the output.
fn by_words<C: Print + Eprint, K: Clock, R, I: Source, S: ByteSink>(
    console: &C,
    clock: &K,
    rt: &R,
    words: &[String],
    input: &mut I,
    output: &mut S,
) -> Status
where
    R: ReadOnlyFiles + AllocGlobal + Threads + Wait + Copy + Drop + Send + 'static,
    ensures ends { EndsBy
        (EndsFor (record { source = I.Source; file = R.File.remaining; sink = S.ByteSink }) (record { source_old = input.old; source_new = input.new; sink_old = output.old; sink_new = output.new }))
        ((input.new ≡ input.old) × (output.new ≡ output.old))
        (fault_of our_app (map string_bytes words.now)) (asks_of what_named our_app (map string_bytes words.now)) result }
{
    match parse(console, rt.alloc(), words) {
        Ok(asked) => told(
            console,
            followed_or_done(console, clock, rt, asked.what, asked.file, input, output),
        ),
        Err(why) => not_done(console, why),
    }
}

/// Does what the command line asks for. Where journals are followed, standard error tells each second how far.
fn followed_or_done<C: Eprint, K: Clock, R, I: Source, S: ByteSink>(
    console: &C,
    clock: &K,
    rt: &R,
    what: What,
    file: Option<&str>,
    input: &mut I,
    output: &mut S,
) -> Ended
where
    R: ReadOnlyFiles + AllocGlobal + Threads + Wait + Copy + Drop + Send + 'static,
    ensures { EndsFor (record { source = I.Source; file = R.File.remaining; sink = S.ByteSink })
        (record { source_old = input.old; source_new = input.new; sink_old = output.old; sink_new = output.new }) (option_map (λ path. path.now) file.entry) what (status_ended result) }
{
    if let What::Parts { follow: true } = what {
        return follow_parts(console, clock, rt, file, output);
    }
    done(rt, what, file, input, output)
}

/// Does what the command line asks for, and follows nothing. Nothing here can write to standard error.
fn done<R, I: Source, S: ByteSink>(
    rt: &R,
    what: What,
    file: Option<&str>,
    input: &mut I,
    output: &mut S,
) -> Ended
where
    R: ReadOnlyFiles + AllocGlobal + Threads + Wait + Copy + Drop + Send + 'static,
    ensures ends { EndsFor (record { source = I.Source; file = R.File.remaining; sink = S.ByteSink })
        (record { source_old = input.old; source_new = input.new; sink_old = output.old; sink_new = output.new }) (option_map (λ path. path.now) file.entry) what (status_ended result) }
    ensures never { ((bytes : Bool) → what ≢ whats.Audit bytes) → ((follow : Bool) → what ≢ whats.Parts follow) → status_ended result ≢ status.FaultFound }
{
    match what {
        What::Run { journal, stats } => Ended::Ran(run(rt, journal, stats, file, input, output)),
        What::Threads { journal, stats } => {
            Ended::OnThreads(threads(rt, journal, stats, file, input, output))
        }
        What::Audit { bytes: false } => Ended::Judged(audit(rt, file, input, output)),
        What::Audit { bytes: true } => audit_bytes(rt, file, input, output),
        What::Parts { .. } => audit_parts(rt, file, output),
        What::Journal => journal(rt, file, input, output),
    }
}

/// How a command line ends that asks for nothing.
fn not_done<C: Eprint>(console: &C, why: Unasked) -> Status
    ensures { result ≡ status_unasked why }
{
    match why {
        Unasked::Told => Status::Done,
        Unasked::Mistake => Status::Refused,
        Unasked::Write => failed(console, Fault::Write),
        Unasked::Memory => failed(console, Fault::Memory),
    }
}

/// Runs the script of the file, or of the input.
fn run<R: ReadOnlyFiles + AllocGlobal, I: Source, S: ByteSink>(
    rt: &R,
    journal: bool,
    stats: bool,
    file: Option<&str>,
    input: &mut I,
    output: &mut S,
) -> Result<bool, Fault<Cause>>
    ensures runs { Runs (record { source = I.Source; file = R.File.remaining; sink = S.ByteSink })
        (record { source_old = input.old; source_new = input.new; sink_old = output.old; sink_new = output.new }) (option_map (λ path. path.now) file.entry) journal stats result }
    ensures done { IfOk result (λ done. done ≡ true) }
{
    match file {
        None => run_script(rt.alloc(), journal, stats, input, output),
        Some(path) => match rt.open_to_read(path) {
            Ok(mut source) => run_script(rt.alloc(), journal, stats, &mut source, output),
            Err(error) => Err(opening_fault(error.kind())),
        },
    }
}

/// Runs the script of the file, or of the input, on threads.
fn threads<R, I: Source, S: ByteSink>(
    rt: &R,
    journal: bool,
    stats: bool,
    file: Option<&str>,
    input: &mut I,
    output: &mut S,
) -> Result<bool, ThreadsFault>
where
    R: ReadOnlyFiles + AllocGlobal + Threads + Wait + Copy + Drop + Send + 'static,
    ensures runs { RunsOnThreads (record { source = I.Source; file = R.File.remaining; sink = S.ByteSink })
        (record { source_old = input.old; source_new = input.new; sink_old = output.old; sink_new = output.new }) (option_map (λ path. path.now) file.entry) journal stats result }
    ensures sound { IfOk result (λ sound. sound ≡ true) }
{
    match file {
        None => threads_script(*rt, rt.alloc(), journal, stats, input, output),
        Some(path) => match rt.open_to_read(path) {
            Ok(mut source) => threads_script(*rt, rt.alloc(), journal, stats, &mut source, output),
            Err(error) => Err(not_opened(error.kind())),
        },
    }
}

/// Judges the journal text of the file, or of the input.
fn audit<R: ReadOnlyFiles + AllocGlobal, I: Source, S: ByteSink>(
    rt: &R,
    file: Option<&str>,
    input: &mut I,
    output: &mut S,
) -> Result<bool, Fault<JournalCause>>
    ensures { Judges (record { source = I.Source; file = R.File.remaining; sink = S.ByteSink })
        (record { source_old = input.old; source_new = input.new; sink_old = output.old; sink_new = output.new }) (option_map (λ path. path.now) file.entry) result }
{
    match file {
        None => audit_text(rt.alloc(), input, output),
        Some(path) => match rt.open_to_read(path) {
            Ok(mut source) => audit_text(rt.alloc(), &mut source, output),
            Err(error) => Err(opening_fault(error.kind())),
        },
    }
}

/// Judges the journals whose bytes are in the file, or in the input.
fn audit_bytes<R: ReadOnlyFiles + AllocGlobal, I: Source, S: ByteSink>(
    rt: &R,
    file: Option<&str>,
    input: &mut I,
    output: &mut S,
) -> Ended
    ensures { JudgesBytes (record { source = I.Source; file = R.File.remaining; sink = S.ByteSink })
        (record { source_old = input.old; source_new = input.new; sink_old = output.old; sink_new = output.new }) (option_map (λ path. path.now) file.entry) (status_ended result) }
{
    match text_of(rt, file, input) {
        Ok(text) => Ended::Judged(audit_text(rt.alloc(), &mut TextSource::of(&text), output)),
        Err(fault) => Ended::NoText(fault),
    }
}

/// Prints the text of the journals whose bytes are in the file, or in the input.
fn journal<R: ReadOnlyFiles + AllocGlobal, I: Source, S: ByteSink>(
    rt: &R,
    file: Option<&str>,
    input: &mut I,
    output: &mut S,
) -> Ended
    ensures ends { PrintsText (record { source = I.Source; file = R.File.remaining; sink = S.ByteSink })
        (record { source_old = input.old; source_new = input.new; sink_old = output.old; sink_new = output.new }) (option_map (λ path. path.now) file.entry) (status_ended result) }
    ensures never { status_ended result ≢ status.FaultFound }
{
    match text_of(rt, file, input) {
        Ok(text) => Ended::Ran(print(&text, output)),
        Err(why) => Ended::NoText(why),
    }
}

/// The text of the journals whose bytes are in the file, or in the input.
fn text_of<R: ReadOnlyFiles + AllocGlobal, I: Source>(
    rt: &R,
    file: Option<&str>,
    input: &mut I,
) -> Result<Vec<u8>, BytesFault>
    ensures text { IfOk result (λ text. HasText I.Source R.File.remaining input.old input.new (option_map (λ path. path.now) file.entry) text.items) }
    ensures none { IfErr result (HasNoText I.Source R.File.remaining input.old input.new (option_map (λ path. path.now) file.entry)) }
{
    match file {
        None => text_of_parts(rt.alloc(), input),
        Some(path) => match rt.open_to_read(path) {
            Ok(mut source) => text_of_parts(rt.alloc(), &mut source),
            Err(error) => Err(unopened(error.kind())),
        },
    }
}

/// Prints a text.
fn print<S: ByteSink>(text: &[u8], output: &mut S) -> Result<bool, Fault<Cause>>
    ensures printed { HasPrinted S.ByteSink text.now output.old output.new result }
    ensures done { IfOk result (λ done. done ≡ true) }
{
    match write_whole(text, output) {
        Ok(()) => Ok(true),
        Err(_) => Err(Fault::Write),
    }
}

/// Writes a text, and tells the output that no more comes.
fn write_whole<S: ByteSink>(text: &[u8], output: &mut S) -> Result<(), DeviceFault>
    ensures ok { OnOk result (Appends (S.contents output.old) (S.contents output.new) text.now) }
    ensures err { OnErr result (AppendsFront (S.contents output.old) (S.contents output.new) text.now) }
    ensures failed { OnErr result (HasFailedSince S.tries S.interrupts S.fails output.old output.new) }
{
    write_all(output, text)?;
    flush(output)
}

/// Why a file can't be opened.
fn opening_fault<C>(kind: ErrorKind) -> Fault<C>
    ensures memory { kind ≡ kinds.OutOfMemory → result ≡ faults.Memory }
    ensures other { kind ≢ kinds.OutOfMemory → result ≡ faults.Read }
    ensures either { IsUnopened (Err result) }
{
    match kind {
        ErrorKind::OutOfMemory => Fault::Memory,
        _ => Fault::Read,
    }
}

/// Why a script for threads can't be opened.
fn not_opened(kind: ErrorKind) -> ThreadsFault
    ensures memory { kind ≡ kinds.OutOfMemory → result ≡ Of faults.Memory }
    ensures other { kind ≢ kinds.OutOfMemory → result ≡ Of faults.Read }
    ensures either { IsUnopenedScript (Err result) }
{
    ThreadsFault::Of(opening_fault(kind))
}

/// Says on standard error what went wrong before anything was asked for.
fn failed<C: Eprint>(console: &C, fault: Fault<Cause>) -> Status
    ensures { result ≡ fault_status fault }
{
    told(console, Ended::Ran(Err(fault)))
}

/// The words of the command line can't be read as text.
fn words_refused<C: Eprint>(console: &C, kind: ErrorKind) -> Status
    ensures memory { kind ≡ kinds.OutOfMemory → result ≡ status.Memory }
    ensures other { kind ≢ kinds.OutOfMemory → result ≡ status.Refused }
{
    if kind == ErrorKind::OutOfMemory {
        return failed(console, Fault::Memory);
    }
    let _ = eprintln!(console; "error: the command line is not UTF-8");
    Status::Refused
}
