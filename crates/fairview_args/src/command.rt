//! The command line. Nothing here reads, prints or runs anything.
//!
//! `command` is all that the parser knows. Each subcommand is made by a function of its own; all of them have FILE and the flags that say what is
//! in it. The commands that print tables, rows and pictures are added in three steps, since the proof of a step grows with what it adds.

ghost use Rattle.std.specs.Prelude.{◌≡◌, false, IfOk};
ghost use Rattle.clap.specs.Words.{app_of, is_broken};
ghost use Rattle.fairview_args.specs.CommandLine as spec;

use clap::Command;
use fair_args::{
    command_named, program_named, with_command, with_file, with_flag, with_option, with_word,
};
use std::alloc::{AllocError, Global};

/// The subcommand that tells how long jobs waited and ran.
pub const WAIT: &str = "wait";

/// The subcommand that tells what each queue got and what it should have got.
pub const SHARE: &str = "share";

/// The subcommand that tells of one submission.
pub const WHY: &str = "why";

/// The subcommand that draws the polls on the clocks of their cores.
pub const GANTT: &str = "gantt";

/// The subcommand that shows how far queues were apart.
pub const LAG: &str = "lag";

/// The subcommand that prints a trace for a viewer.
pub const TRACE: &str = "trace";

/// The argument that names a submission.
pub const NAME: &str = "NAME";

/// The flag by which bars are drawn in ASCII.
pub const PLAIN: &str = "plain";

/// The flag by which the shares are printed as rows with commas, and the subcommand that does so with the polls.
pub const CSV: &str = "csv";

/// The flag by which lags are printed as text.
pub const TEXT: &str = "text";

/// The option that names the core that is drawn.
pub const CORE: &str = "core";

/// The option that names the first turn that is drawn.
pub const FROM: &str = "from";

/// The option that names the last turn that is drawn.
pub const TO: &str = "to";

/// The flag by which bytes are read.
pub const BYTES: &str = "bytes";

/// What that flag does.
const BYTES_HELP: &str = "Reads the journals as bytes, a head and parts, in place of text";

/// The flag by which the parts in a folder are read.
pub const PARTS: &str = "parts";

/// What that flag does.
const PARTS_HELP: &str = "Reads the folder FILE, or else the current one: head, part0, part1, ..";

/// What FILE is.
const FILE_HELP: &str = "The journals; without it, standard input is read";

/// What follows the options in the help of the program.
const AFTER_HELP: &str = "\
Example:
  fairexec run --journal examples/fair_shares.script | fairview share

On a terminal, ./fairview tells from the third second on how far a call is.

The manual page, and the completions for bash, zsh and fish:
  docs/fairview.1, completions/

Exit status:
  0  all is done
  2  the journals or the command line was refused
  3  a read or a write failed
  4  there was no memory";

/// What follows the options in the help of `wait`.
const AFTER_WAIT: &str = "\
Example:
  fairexec run --journal examples/many_senders.script | fairview wait

A wait goes from where a job enters its queue until its first poll begins, a run from there until it is done.
Behind each line stand the jobs by powers of two: from, to, how many, and a bar of 40 marks for all.";

/// What follows the options in the help of `share`.
const AFTER_SHARE: &str = "\
Example:
  fairexec run --journal examples/fair_shares.script | fairview share

Times are nanoseconds. While a poll runs, each queue with work is due its part of the time by its shares.
A bar of 20 marks is all time of the core.";

/// What follows the options in the help of `why`.
const AFTER_WHY: &str = "\
Example:
  fairexec run --journal examples/fair_shares.script | fairview why '0>0#1'

Each line has the turns and the nanoseconds of the actor, and behind a + how far they went since the line before.";

/// What follows the options in the help of `csv`.
const AFTER_CSV: &str = "\
Example:
  fairexec run --journal examples/fair_shares.script | fairview csv";

/// What follows the options in the help of `gantt`.
const AFTER_GANTT: &str = "\
Example:
  fairexec run --journal examples/fair_shares.script | fairview gantt >gantt.svg

Each core has a lane, with a bar for each poll in the colour of its queue. A bar tells of its poll where the pointer stands.
The picture is SVG without a script. Turns are counted from 1 on each core, and both turns named are drawn.";

/// What follows the options in the help of `lag`.
const AFTER_LAG: &str = "\
Example:
  fairexec run --journal examples/fair_shares.script | fairview lag >lag.svg

Each pair of queues of a core has a panel with how far their virtual runtimes were apart while both had work,
beside the bound that is proved. The picture is SVG without a script.";

/// What follows the options in the help of `trace`.
const AFTER_TRACE: &str = "\
Example:
  fairexec run --journal examples/fair_shares.script | fairview trace >trace.json

Perfetto (ui.perfetto.dev) and chrome://tracing open the trace: a process for each core, a track for each queue,
and arrows that follow each submission.";

/// The commands and arguments of the program, with their help.
#[tactic(auto, unfolding(crate::specs::CommandLine::our_app, crate::specs::CommandLine::trace_app))]
pub fn command<'a>(alloc: Global) -> Result<Command<'a>, AllocError>
    ensures app { IfOk result (λ command. app_of command ≡ spec.our_app) }
    ensures whole { IfOk result (λ command. is_broken command ≡ false) }
{
    let pictures = with_pictures(alloc)?;
    let trace = trace_command(alloc)?;
    with_command(pictures, trace)
}

/// The program with the commands that print text, and those that draw.
#[tactic(auto, unfolding(crate::specs::CommandLine::with_pictures, crate::specs::CommandLine::gantt_app, crate::specs::CommandLine::lag_app))]
fn with_pictures<'a>(alloc: Global) -> Result<Command<'a>, AllocError>
    ensures app { IfOk result (λ command. app_of command ≡ spec.with_pictures) }
    ensures whole { IfOk result (λ command. is_broken command ≡ false) }
{
    let rows = with_rows(alloc)?;
    let gantt = gantt_command(alloc)?;
    let with_gantt = with_command(rows, gantt)?;
    let lag = lag_command(alloc)?;
    with_command(with_gantt, lag)
}

/// The program with the commands that print text.
#[tactic(auto, unfolding(crate::specs::CommandLine::with_rows, crate::specs::CommandLine::why_app, crate::specs::CommandLine::csv_app))]
fn with_rows<'a>(alloc: Global) -> Result<Command<'a>, AllocError>
    ensures app { IfOk result (λ command. app_of command ≡ spec.with_rows) }
    ensures whole { IfOk result (λ command. is_broken command ≡ false) }
{
    let tables = with_tables(alloc)?;
    let why = why_command(alloc)?;
    let with_why = with_command(tables, why)?;
    let csv = csv_command(alloc)?;
    with_command(with_why, csv)
}

/// The program with the two commands that print tables.
#[tactic(auto, unfolding(crate::specs::CommandLine::with_tables, crate::specs::CommandLine::wait_app, crate::specs::CommandLine::share_app))]
fn with_tables<'a>(alloc: Global) -> Result<Command<'a>, AllocError>
    ensures app { IfOk result (λ command. app_of command ≡ spec.with_tables) }
    ensures whole { IfOk result (λ command. is_broken command ≡ false) }
{
    let program = program_named(
        alloc,
        "fairview",
        "Shows what the journals of a run tell, as text, as a picture and as a trace",
        AFTER_HELP,
    )?;
    let wait = wait_command(alloc)?;
    let with_wait = with_command(program, wait)?;
    let share = share_command(alloc)?;
    with_command(with_wait, share)
}

/// `wait [--plain] [--bytes] [--parts] [FILE]`
#[tactic(auto, unfolding(crate::specs::CommandLine::wait_app))]
fn wait_command<'a>(alloc: Global) -> Result<Command<'a>, AllocError>
    ensures app { IfOk result (λ command. app_of command ≡ spec.wait_app) }
    ensures whole { IfOk result (λ command. is_broken command ≡ false) }
{
    let command = command_named(
        alloc,
        WAIT,
        "Prints how long the jobs of each core waited and ran, with a histogram",
        AFTER_WAIT,
    );
    let command = with_flag(alloc, command, PLAIN, "Draws the bars in ASCII")?;
    let command = with_flag(alloc, command, BYTES, BYTES_HELP)?;
    let command = with_flag(alloc, command, PARTS, PARTS_HELP)?;
    with_file(alloc, command, FILE_HELP)
}

/// `share [--plain] [--csv] [--bytes] [--parts] [FILE]`
#[tactic(auto, unfolding(crate::specs::CommandLine::share_app))]
fn share_command<'a>(alloc: Global) -> Result<Command<'a>, AllocError>
    ensures app { IfOk result (λ command. app_of command ≡ spec.share_app) }
    ensures whole { IfOk result (λ command. is_broken command ≡ false) }
{
    let command = command_named(
        alloc,
        SHARE,
        "Prints what each queue got, and what it should have got while it had work",
        AFTER_SHARE,
    );
    let command = with_flag(alloc, command, PLAIN, "Draws the bars in ASCII")?;
    let command = with_flag(alloc, command, CSV, "Prints rows with commas and no bars")?;
    let command = with_flag(alloc, command, BYTES, BYTES_HELP)?;
    let command = with_flag(alloc, command, PARTS, PARTS_HELP)?;
    with_file(alloc, command, FILE_HELP)
}

/// `why [--bytes] [--parts] NAME [FILE]`
#[tactic(auto, unfolding(crate::specs::CommandLine::why_app))]
fn why_command<'a>(alloc: Global) -> Result<Command<'a>, AllocError>
    ensures app { IfOk result (λ command. app_of command ≡ spec.why_app) }
    ensures whole { IfOk result (λ command. is_broken command ≡ false) }
{
    let command = command_named(
        alloc,
        WHY,
        "Prints all that the journals tell of one submission",
        AFTER_WHY,
    );
    let command = with_word(
        alloc,
        command,
        NAME,
        "The name of a submission: sender, receiver and number, as '0>1#2'",
    )?;
    let command = with_flag(alloc, command, BYTES, BYTES_HELP)?;
    let command = with_flag(alloc, command, PARTS, PARTS_HELP)?;
    with_file(alloc, command, FILE_HELP)
}

/// `csv [--bytes] [--parts] [FILE]`
#[tactic(auto, unfolding(crate::specs::CommandLine::csv_app))]
fn csv_command<'a>(alloc: Global) -> Result<Command<'a>, AllocError>
    ensures app { IfOk result (λ command. app_of command ≡ spec.csv_app) }
    ensures whole { IfOk result (λ command. is_broken command ≡ false) }
{
    let command = command_named(
        alloc,
        CSV,
        "Prints a row with commas for each poll",
        AFTER_CSV,
    );
    let command = with_flag(alloc, command, BYTES, BYTES_HELP)?;
    let command = with_flag(alloc, command, PARTS, PARTS_HELP)?;
    with_file(alloc, command, FILE_HELP)
}

/// `gantt [--core D] [--from N] [--to N] [--bytes] [--parts] [FILE]`
#[tactic(auto, unfolding(crate::specs::CommandLine::gantt_app))]
fn gantt_command<'a>(alloc: Global) -> Result<Command<'a>, AllocError>
    ensures app { IfOk result (λ command. app_of command ≡ spec.gantt_app) }
    ensures whole { IfOk result (λ command. is_broken command ≡ false) }
{
    let command = command_named(
        alloc,
        GANTT,
        "Draws the polls of each core on its clock, as SVG",
        AFTER_GANTT,
    );
    let command = with_option(
        alloc,
        command,
        CORE,
        "D",
        "Draws the core of this number alone",
    )?;
    let command = with_option(alloc, command, FROM, "N", "The first turn that is drawn")?;
    let command = with_option(alloc, command, TO, "N", "The last turn that is drawn")?;
    let command = with_flag(alloc, command, BYTES, BYTES_HELP)?;
    let command = with_flag(alloc, command, PARTS, PARTS_HELP)?;
    with_file(alloc, command, FILE_HELP)
}

/// `lag [--text] [--bytes] [--parts] [FILE]`
#[tactic(auto, unfolding(crate::specs::CommandLine::lag_app))]
fn lag_command<'a>(alloc: Global) -> Result<Command<'a>, AllocError>
    ensures app { IfOk result (λ command. app_of command ≡ spec.lag_app) }
    ensures whole { IfOk result (λ command. is_broken command ≡ false) }
{
    let command = command_named(
        alloc,
        LAG,
        "Draws how far each two queues were apart beside the proved bound, as SVG",
        AFTER_LAG,
    );
    let command = with_flag(
        alloc,
        command,
        TEXT,
        "Prints a line for each pair of queues, and no picture",
    )?;
    let command = with_flag(alloc, command, BYTES, BYTES_HELP)?;
    let command = with_flag(alloc, command, PARTS, PARTS_HELP)?;
    with_file(alloc, command, FILE_HELP)
}

/// `trace [--bytes] [--parts] [FILE]`
#[tactic(auto, unfolding(crate::specs::CommandLine::trace_app))]
fn trace_command<'a>(alloc: Global) -> Result<Command<'a>, AllocError>
    ensures app { IfOk result (λ command. app_of command ≡ spec.trace_app) }
    ensures whole { IfOk result (λ command. is_broken command ≡ false) }
{
    let command = command_named(
        alloc,
        TRACE,
        "Prints the run in the trace event format, for Perfetto and chrome://tracing",
        AFTER_TRACE,
    );
    let command = with_flag(alloc, command, BYTES, BYTES_HELP)?;
    let command = with_flag(alloc, command, PARTS, PARTS_HELP)?;
    with_file(alloc, command, FILE_HELP)
}
