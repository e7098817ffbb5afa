//! The command line. Nothing here reads, prints or runs anything.
//!
//! `command` is all that the parser knows: each subcommand is made by a function of its own, with its flags and its help. The texts of the help
//! are also those of the manual page, which a test compares.

ghost use Rattle.std.specs.Prelude.{◌≡◌, false, IfOk};
ghost use Rattle.clap.specs.Words.{app_of, is_broken, with_rule};
ghost use Rattle.fairexec_args.specs.CommandLine as spec;

use clap::{Arg, ArgAction, Command};
use fair_args::{command_named, program_named, with_command, with_file, with_flag};
use std::alloc::{AllocError, Global};

/// The subcommand that judges journals.
pub const AUDIT: &str = "audit";

/// The subcommand that runs a script on the model.
const RUN: &str = "run";

/// The subcommand that runs a script on threads.
pub const THREADS: &str = "threads";

/// What FILE is to the subcommands that run scripts.
const SCRIPT_HELP: &str = "The script; without it, standard input is read";

/// What FILE is to the subcommands that read journals.
const JOURNALS_HELP: &str = "The journals; without it, standard input is read";

/// The flag by which `run` and `threads` print their journals, and the subcommand that prints journals in another form.
pub const JOURNAL: &str = "journal";

/// The flag by which they print their statistics.
pub const STATS: &str = "stats";

/// The flag by which `audit` reads bytes.
pub const BYTES: &str = "bytes";

/// The flag by which `audit` reads the parts in a folder.
pub const PARTS: &str = "parts";

/// The flag by which `audit` goes on as the parts in a folder grow.
pub const FOLLOW: &str = "follow";

/// The flag by which `journal` prints a text.
const TEXT: &str = "text";

/// What follows the options in the help of the program.
const AFTER_HELP: &str = "\
Example:
  fairexec run examples/fair_shares.script

Each line of a script, each line that is printed, and each cause of a refusal:
  docs/SCRIPTS.md

The manual page, and the completions for bash, zsh and fish:
  docs/fairexec.1, completions/

Exit status:
  0  all is done
  1  the audit found a fault
  2  the script, the journals or the command line was refused
  3  a read or a write failed
  4  there was no memory, or a thread couldn't be made";

/// What follows the options in the help of `run`.
const AFTER_RUN: &str = "\
Example:
  fairexec run --stats examples/fair_shares.script

Each line of a script, each line that is printed, and each cause of a refusal:
  docs/SCRIPTS.md

Exit status:
  0  all is done
  2  the script or the command line was refused
  3  a read or a write failed
  4  there was no memory";

/// What follows the options in the help of `threads`.
const AFTER_THREADS: &str = "\
Example:
  fairexec threads examples/two_tenants.threads

The journals of a run, judged again:
  fairexec threads --journal examples/two_tenants.threads | sed -n '/^journal 1$/,/^end$/p' | fairexec audit

Each line of a script, each line that is printed, and each cause of a refusal:
  docs/SCRIPTS.md

Exit status:
  0  all is done
  2  the script or the command line was refused
  3  a read or a write failed
  4  there was no memory, or a thread couldn't be made";

/// What follows the options in the help of `audit`.
const AFTER_AUDIT: &str = "\
Examples:
  fairexec run --journal examples/fair_shares.script | fairexec audit
  fairexec audit --parts journals
  fairexec audit --follow journals

The statistics of --stats behind a journal are no part of its text: audit refuses them.

Exit status:
  0  the journals are sound
  1  the audit found a fault
  2  the journals or the command line was refused
  3  a read or a write failed
  4  there was no memory";

/// What follows the options in the help of `journal`.
const AFTER_JOURNAL: &str = "\
Example:
  cat head part0 part1 | fairexec journal --text | fairexec audit

Exit status:
  0  all is done
  2  the journals or the command line was refused
  3  a read or a write failed
  4  there was no memory";

/// The commands and arguments of the program, with their help.
#[tactic(auto, unfolding(crate::specs::CommandLine::our_app, crate::specs::CommandLine::audit_app, crate::specs::CommandLine::journal_app))]
pub fn command<'a>(alloc: Global) -> Result<Command<'a>, AllocError>
    ensures app { IfOk result (λ command. app_of command ≡ spec.our_app) }
    ensures whole { IfOk result (λ command. is_broken command ≡ false) }
{
    let with_audit = with_command(running(alloc)?, audit_command(alloc)?)?;
    with_command(with_audit, journal_command(alloc)?)
}

/// The program with the two commands that run scripts.
#[tactic(auto, unfolding(crate::specs::CommandLine::with_runs, crate::specs::CommandLine::run_app, crate::specs::CommandLine::threads_app))]
fn running<'a>(alloc: Global) -> Result<Command<'a>, AllocError>
    ensures app { IfOk result (λ command. app_of command ≡ spec.with_runs) }
    ensures whole { IfOk result (λ command. is_broken command ≡ false) }
{
    let program = program_named(
        alloc,
        "fairexec",
        "Runs scripts on the model of a thread-per-core executor with fair task queues, or on its threads",
        AFTER_HELP,
    )?;
    let with_run = with_command(program, run_command(alloc)?)?;
    with_command(with_run, threads_command(alloc)?)
}

/// `run [--journal] [--stats] [FILE]`
#[tactic(auto, unfolding(crate::specs::CommandLine::run_app))]
fn run_command<'a>(alloc: Global) -> Result<Command<'a>, AllocError>
    ensures app { IfOk result (λ command. app_of command ≡ spec.run_app) }
    ensures whole { IfOk result (λ command. is_broken command ≡ false) }
{
    let command = command_named(
        alloc,
        RUN,
        "Runs a script, and prints what happens as notes, one a line",
        AFTER_RUN,
    );
    let command = with_flag(
        alloc,
        command,
        JOURNAL,
        "Prints the journals at the end, in place of what happens",
    )?;
    let command = with_flag(
        alloc,
        command,
        STATS,
        "Prints the statistics of each core and queue at the end",
    )?;
    with_file(alloc, command, SCRIPT_HELP)
}

/// `threads [--journal] [--stats] [FILE]`
#[tactic(auto, unfolding(crate::specs::CommandLine::threads_app))]
fn threads_command<'a>(alloc: Global) -> Result<Command<'a>, AllocError>
    ensures app { IfOk result (λ command. app_of command ≡ spec.threads_app) }
    ensures whole { IfOk result (λ command. is_broken command ≡ false) }
{
    let command = command_named(
        alloc,
        THREADS,
        "Runs a script on threads, and prints the outcome of each order and the verdict of the audit",
        AFTER_THREADS,
    );
    let command = with_flag(
        alloc,
        command,
        JOURNAL,
        "Prints the journals behind the outcomes",
    )?;
    let command = with_flag(
        alloc,
        command,
        STATS,
        "Prints the statistics of each core and queue before the verdict",
    )?;
    with_file(alloc, command, SCRIPT_HELP)
}

/// `audit [--bytes] [--parts] [--follow] [FILE]`
#[tactic(auto, unfolding(crate::specs::CommandLine::audit_app))]
fn audit_command<'a>(alloc: Global) -> Result<Command<'a>, AllocError>
    ensures app { IfOk result (λ command. app_of command ≡ spec.audit_app) }
    ensures whole { IfOk result (λ command. is_broken command ≡ false) }
{
    let command = command_named(
        alloc,
        AUDIT,
        "Judges journals, and prints whether they are sound or their first fault",
        AFTER_AUDIT,
    );
    let command = with_flag(
        alloc,
        command,
        BYTES,
        "Reads the journals as bytes, a head and parts, in place of text",
    )?;
    let command = with_flag(
        alloc,
        command,
        PARTS,
        "Reads the folder FILE, or else the current one: head, part0, part1, .. side by side",
    )?;
    let command = with_flag(
        alloc,
        command,
        FOLLOW,
        "Goes on as the parts grow, until there is a file end, and prints a line each second",
    )?;
    with_file(alloc, command, JOURNALS_HELP)
}

/// `journal --text [FILE]`
#[tactic(auto, unfolding(crate::specs::CommandLine::journal_app))]
fn journal_command<'a>(alloc: Global) -> Result<Command<'a>, AllocError>
    ensures app { IfOk result (λ command. app_of command ≡ spec.journal_app) }
    ensures whole { IfOk result (λ command. is_broken command ≡ false) }
{
    let command = command_named(
        alloc,
        JOURNAL,
        "Reads journals as bytes, and prints their text",
        AFTER_JOURNAL,
    );
    let command = with_needed_flag(alloc, command, TEXT, "Prints the text of the journals")?;
    with_file(alloc, command, JOURNALS_HELP)
}

/// The command with the flag `--name` more, which has to be there.
fn with_needed_flag<'a>(
    alloc: Global,
    command: Command<'a>,
    name: &'a str,
    help: &'a str,
) -> Result<Command<'a>, AllocError>
    ensures app { IfOk result (λ new. app_of new ≡ with_rule (app_of command.entry) (spec.needed_flag_rule name.entry.now)) }
    ensures whole { IfOk result (λ new. is_broken new ≡ is_broken command.entry) }
{
    let flag = Arg::new(alloc, name)
        .long(name)
        .action(ArgAction::SetTrue)
        .required(true)
        .help(help);
    command.arg(flag)
}
