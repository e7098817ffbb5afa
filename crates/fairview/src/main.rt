//! Shows what the journals of a run tell: how long jobs waited, what each queue got, each poll, and the story of one submission, as text,
//! as a picture and as a trace.
#![tactic(auto)]

mod ended;
mod refusal;
mod words;

ghost use Rattle.std.specs.Prelude.{◌≡◌, ◌≢◌, Err, IfErr, IfOk, map, option_map, string_bytes};
ghost use Rattle.std.specs.declared.io.ErrorKind.TheVariants as kinds;
ghost use Rattle.clap.specs.Words.{fault_of};
ghost use Rattle.fair_args.specs.Asks.{asks_of};
ghost use Rattle.fairview.specs.Answers.{IsUnopened, ShowsOf};
ghost use Rattle.fairview.specs.Bytes.{EndsShown, HasNoText, HasText, ShowsBytes, ShowsParts};
ghost use Rattle.fairview.specs.Ends.{EndsBy, EndsFor, status_ended, status_unasked};
ghost use Rattle.fairview.specs.Shows.{view_asked};
ghost use Rattle.fairview_args.specs.Asks.{request_named, what_told};
ghost use Rattle.fairview_args.specs.CommandLine.{our_app};
ghost use Rattle.fairview_report.specs.declared.fault.ViewFault.TheVariants as faults;
ghost use Rattle.text_words.specs.declared.status.Status.TheVariants as status;

use crate::ended::{Ended, told};
use crate::words::view_of;
use fair_args::{Console, ReadOnly, ReadOnlyFiles, Unasked, words_of};
use fair_parts::gathered;
use fairview_args::{Journals, Request, parse};
use fairview_report::{View, ViewFault, view_text};
use std::io;
use std::io::ErrorKind;
use std::process::ExitCode;
use text_bytes::{ByteSink, Source, TextSource};
use text_parts::{BytesFault, text_of_parts};
use text_words::Status;

// Only this function has all rights of the system.
fn main(rt: HostRuntime) -> ExitCode {
    let (console, system) = (Console::of(rt), ReadOnly::of(rt));
    let status = program(&console, &system, words_of(&rt), &mut rt.reader());
    ExitCode::from(status.code())
}

/// Does what the words of the command line ask for, and answers how it ended.
fn program<C: Print + Eprint, R: ReadOnlyFiles + AllocGlobal, I: Source>(
    console: &C,
    rt: &R,
    words: Result<Vec<String>, ErrorKind>,
    input: &mut I,
) -> Status
    ensures never { result ≢ status.FaultFound }
{
    match words {
        Ok(words) => by_words(
            console,
            rt,
            words.as_slice(),
            input,
            &mut io::writer(console),
        ),
        Err(kind) => words_refused(console, kind),
    }
}

/// Does what these words ask for, the first of which is the program's name. Without a file the input is read, and what is shown is written to
/// the output.
fn by_words<C: Print + Eprint, R: ReadOnlyFiles + AllocGlobal, I: Source, S: ByteSink>(
    console: &C,
    rt: &R,
    words: &[String],
    input: &mut I,
    output: &mut S,
) -> Status
    ensures ends { EndsBy
        (EndsShown (record { source = I.Source; file = R.File.remaining; sink = S.ByteSink }) (record { source_old = input.old; source_new = input.new; sink_old = output.old; sink_new = output.new }))
        ((input.new ≡ input.old) × (output.new ≡ output.old))
        (fault_of our_app (map string_bytes words.now)) (asks_of request_named our_app (map string_bytes words.now)) result }
    ensures never { result ≢ status.FaultFound }
{
    match parse(console, rt.alloc(), words) {
        Ok(asked) => told(console, done(rt, asked.what, asked.file, input, output)),
        Err(why) => not_done(console, why),
    }
}

/// Does what the command line asks for. Nothing here can write to standard error.
fn done<R: ReadOnlyFiles + AllocGlobal, I: Source, S: ByteSink>(
    rt: &R,
    request: Request<'_>,
    file: Option<&str>,
    input: &mut I,
    output: &mut S,
) -> Ended
    ensures ends { EndsFor
        (EndsShown (record { source = I.Source; file = R.File.remaining; sink = S.ByteSink }) (record { source_old = input.old; source_new = input.new; sink_old = output.old; sink_new = output.new })
        request.entry.journals (option_map (λ path. path.now) file.entry))
        ((input.new ≡ input.old) × (output.new ≡ output.old)) (view_asked (what_told request.entry.what)) (status_ended result) }
    ensures never { status_ended result ≢ status.FaultFound }
{
    match view_of(request.what) {
        Ok(view) => match request.journals {
            Journals::Text => Ended::Shown(show(rt, view, file, input, output)),
            Journals::Bytes => show_bytes(rt, view, file, input, output),
            Journals::Parts => show_parts(rt, view, file, output),
        },
        Err(refusal) => Ended::Word(refusal),
    }
}

/// How a command line ends that asks for nothing.
fn not_done<C: Eprint>(console: &C, why: Unasked) -> Status
    ensures { result ≡ status_unasked why }
{
    match why {
        Unasked::Told => Status::Done,
        Unasked::Mistake => Status::Refused,
        Unasked::Write => told(console, Ended::Shown(Err(ViewFault::Write))),
        Unasked::Memory => told(console, Ended::Shown(Err(ViewFault::Memory))),
    }
}

/// Shows what is asked for of the journal text of the file, or of the input.
fn show<R: ReadOnlyFiles + AllocGlobal, I: Source, S: ByteSink>(
    rt: &R,
    view: View,
    file: Option<&str>,
    input: &mut I,
    output: &mut S,
) -> Result<(), ViewFault>
    ensures { ShowsOf (record { source = I.Source; file = R.File.remaining; sink = S.ByteSink })
        (record { source_old = input.old; source_new = input.new; sink_old = output.old; sink_new = output.new }) (option_map (λ path. path.now) file.entry) view result }
{
    match file {
        None => view_text(rt.alloc(), view, input, output),
        Some(path) => match rt.open_to_read(path) {
            Ok(mut source) => view_text(rt.alloc(), view, &mut source, output),
            Err(error) => Err(unopened(error.kind())),
        },
    }
}

/// Shows what is asked for of the journals whose bytes are in the file, or in the input.
fn show_bytes<R: ReadOnlyFiles + AllocGlobal, I: Source, S: ByteSink>(
    rt: &R,
    view: View,
    file: Option<&str>,
    input: &mut I,
    output: &mut S,
) -> Ended
    ensures shows { ShowsBytes (record { source = I.Source; file = R.File.remaining; sink = S.ByteSink })
        (record { source_old = input.old; source_new = input.new; sink_old = output.old; sink_new = output.new }) (option_map (λ path. path.now) file.entry) view (status_ended result) }
    ensures never { status_ended result ≢ status.FaultFound }
{
    match text_of(rt, file, input) {
        Ok(text) => Ended::Shown(view_text(rt.alloc(), view, &mut TextSource::of(&text), output)),
        Err(fault) => Ended::Bytes(fault),
    }
}

/// Shows what is asked for of the journals whose parts are in the folder, or in the current one.
fn show_parts<R: ReadOnlyFiles + AllocGlobal, S: ByteSink>(
    rt: &R,
    view: View,
    folder: Option<&str>,
    output: &mut S,
) -> Ended
    ensures shows { ShowsParts R.File.remaining S.ByteSink output.old output.new view (status_ended result) }
    ensures never { status_ended result ≢ status.FaultFound }
{
    match gathered(rt, folder.unwrap_or(".")) {
        Ok(bytes) => show_bytes(rt, view, None, &mut TextSource::of(&bytes), output),
        Err(unread) => Ended::Bytes(unread),
    }
}

/// The text of the journals whose bytes are in the file, or in the input.
fn text_of<R: ReadOnlyFiles + AllocGlobal, I: Source>(
    rt: &R,
    file: Option<&str>,
    input: &mut I,
) -> Result<Vec<u8>, BytesFault>
    ensures text { IfOk result (λ text. HasText I.Source R.File.remaining input.old input.new (option_map (λ path. path.now) file.entry) text.items) }
    ensures none { IfErr result (HasNoText I.Source R.File.remaining input.old input.new (option_map (λ path. path.now) file.entry)) }
{
    match file {
        None => text_of_parts(rt.alloc(), input),
        Some(path) => match rt.open_to_read(path) {
            Ok(mut source) => text_of_parts(rt.alloc(), &mut source),
            Err(error) => Err(fair_parts::unopened(error.kind())),
        },
    }
}

/// Why a journal text can't be opened.
fn unopened(kind: ErrorKind) -> ViewFault
    ensures memory { kind ≡ kinds.OutOfMemory → result ≡ faults.Memory }
    ensures other { kind ≢ kinds.OutOfMemory → result ≡ faults.Read }
    ensures either { IsUnopened (Err result) }
{
    match kind {
        ErrorKind::OutOfMemory => ViewFault::Memory,
        _ => ViewFault::Read,
    }
}

/// The words of the command line can't be read as text.
fn words_refused<C: Eprint>(console: &C, kind: ErrorKind) -> Status
    ensures memory { kind ≡ kinds.OutOfMemory → result ≡ status.Memory }
    ensures other { kind ≢ kinds.OutOfMemory → result ≡ status.Refused }
    ensures never { result ≢ status.FaultFound }
{
    if kind == ErrorKind::OutOfMemory {
        return told(console, Ended::Shown(Err(ViewFault::Memory)));
    }
    let _ = eprintln!(console; "error: the command line is not UTF-8");
    Status::Refused
}
