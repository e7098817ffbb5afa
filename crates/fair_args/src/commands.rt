//! A command line in parts. Nothing here reads, prints or runs anything.

ghost use Rattle.std.specs.Prelude.{◌≡◌, ◌||◌, false, true, IfOk};
ghost use Rattle.clap.specs.Words.{app_of, is_broken, new_app, rule_of, with_rule, with_subcommand};
ghost use Rattle.fair_args.specs.Commands.{file_rule, flag_rule, option_rule, program_app, word_rule};

use clap::{Arg, ArgAction, Command};
use std::alloc::{AllocError, Global};

/// The argument that names the file to read.
pub const FILE: &str = "FILE";

/// The version of the programs, and behind it the logic of the toolchain that proved them.
const VERSION: &str = "\
0.3.0
proved with Rattle, logic dac8208d650f15bf";

/// A program of this name, which has a version, and one of whose subcommands has to be named.
///
/// # Errors
///
/// `AllocError` for want of memory, as each function here that answers a `Result`.
pub fn program_named<'a>(
    alloc: Global,
    name: &'a str,
    about: &'a str,
    after: &'a str,
) -> Result<Command<'a>, AllocError>
    ensures app { IfOk result (λ command. app_of command ≡ program_app name.entry.now) }
    ensures whole { IfOk result (λ command. is_broken command ≡ false) }
{
    Command::new(alloc, name)
        .about(about)
        .version(VERSION)
        .subcommand_required(true)
        .after_help(after)
        .bin_name(name)
}

/// A subcommand of this name, as yet without an argument.
pub fn command_named<'a>(
    alloc: Global,
    name: &'a str,
    about: &'a str,
    after: &'a str,
) -> Command<'a>
    ensures app { app_of result ≡ new_app name.entry.now }
    ensures whole { is_broken result ≡ false }
{
    Command::new(alloc, name).about(about).after_help(after)
}

/// The command with this subcommand more, behind those that it has.
pub fn with_command<'a>(command: Command<'a>, below: Command<'a>) -> Result<Command<'a>, AllocError>
    requires plain { (app_of below).top.is_plain ≡ true }
    ensures app { IfOk result (λ new. app_of new ≡ with_subcommand (app_of command.entry) (app_of below.entry).top) }
    ensures whole { IfOk result (λ new. is_broken new ≡ (is_broken command.entry || is_broken below.entry)) }
{
    command.subcommand(below)
}

/// The command with the flag `--name` more. Without it, what it names isn't wanted.
pub fn with_flag<'a>(
    alloc: Global,
    command: Command<'a>,
    name: &'a str,
    help: &'a str,
) -> Result<Command<'a>, AllocError>
    ensures app { IfOk result (λ new. app_of new ≡ with_rule (app_of command.entry) (flag_rule name.entry.now)) }
    ensures whole { IfOk result (λ new. is_broken new ≡ is_broken command.entry) }
{
    let flag = Arg::new(alloc, name)
        .long(name)
        .action(ArgAction::SetTrue)
        .help(help);
    command.arg(flag)
}

/// The command with the option `--name VALUE` more. The help calls its value so.
pub fn with_option<'a>(
    alloc: Global,
    command: Command<'a>,
    name: &'a str,
    value: &'a str,
    help: &'a str,
) -> Result<Command<'a>, AllocError>
    ensures app { IfOk result (λ new. app_of new ≡ with_rule (app_of command.entry) (option_rule name.entry.now)) }
    ensures whole { IfOk result (λ new. is_broken new ≡ is_broken command.entry) }
{
    let option = Arg::new(alloc, name)
        .long(name)
        .value_name(value)
        .action(ArgAction::Set)
        .help(help);
    command.arg(option)
}

/// The command with a word more that is no flag, and has to be there.
pub fn with_word<'a>(
    alloc: Global,
    command: Command<'a>,
    name: &'a str,
    help: &'a str,
) -> Result<Command<'a>, AllocError>
    ensures app { IfOk result (λ new. app_of new ≡ with_rule (app_of command.entry) (word_rule name.entry.now)) }
    ensures whole { IfOk result (λ new. is_broken new ≡ is_broken command.entry) }
{
    let word = Arg::new(alloc, name).required(true).help(help);
    command.arg(word)
}

/// The command with the word `FILE` more, which may be left out.
pub fn with_file<'a>(
    alloc: Global,
    command: Command<'a>,
    help: &'a str,
) -> Result<Command<'a>, AllocError>
    ensures app { IfOk result (λ new. app_of new ≡ with_rule (app_of command.entry) file_rule) }
    ensures whole { IfOk result (λ new. is_broken new ≡ is_broken command.entry) }
{
    let file = Arg::new(alloc, FILE).help(help);
    command.arg(file)
}
