//! What the words of a command line ask for.

ghost use Rattle.std.specs.Prelude.{◌≡◌, [], false, true, Some, is_some, map, option_map, string_bytes, IfOk, IfErr};
ghost use Rattle.clap.specs.Words.{App, app_of, fault_of, found_of, is_broken, rows_of, subcommand_rows_of, takes};
ghost use Rattle.fair_args.specs.Asks.{IsRead, Wishes, asks_of, asks_of_subcommand, asks_told};
ghost use Rattle.fair_args.specs.Refusals.{IsReason};
ghost use Rattle.fair_args.specs.declared.unasked.Unasked.TheVariants as unasked;

use crate::commands::FILE;
use crate::found::{matches_of, subcommand_of, word_of};
use crate::unasked::Unasked;
use clap::{ArgMatches, Command};
use std::alloc::{AllocError, Global};

/// What is to be done with a file, as the subcommands of a program tell it.
///
/// `app` is the program's command line. `wishes` tells what a subcommand wants, by its name and the matches behind it, and `told` which
/// wish a value is.
pub trait Wanted<'a>: Copy {
    ghost Wish: { Type 0 };

    ghost app: { App };

    ghost wishes: { Wishes Wish };

    ghost told: { Self → Wish };

    /// The commands and arguments of the program, with their help.
    ///
    /// # Errors
    ///
    /// `AllocError` for want of memory.
    fn command(alloc: Global) -> Result<Command<'a>, AllocError>
        ensures app { IfOk result (λ command. app_of command ≡ app) }
        ensures whole { IfOk result (λ command. is_broken command ≡ false) }
        ensures read { IsRead app };

    /// What the subcommand of this name wants, with these matches.
    fn wanted(name: &str, found: &ArgMatches<'a>) -> Self
        ensures { told result ≡ wishes name.now (rows_of (found_of found.now)) };
}

/// What is to be done, and the path of the file. Without a file it is done with standard input.
#[derive(Clone, Copy)]
pub struct Asked<'a, W> {
    pub what: W,
    pub file: Option<&'a str>,
}

/// Reads what these words ask for, the first of which is the program's name. Help is printed as it was asked for; a mistake is told on
/// standard error.
pub fn parse<'a, W: Wanted<'a>, R: Print + Eprint>(
    rt: &R,
    alloc: Global,
    words: &'a [String],
) -> Result<Asked<'a, W>, Unasked>
    ensures asked { IfOk result (λ asked. asks_of W.wishes W.app (map string_bytes words.now) ≡ Some (asks_told W.told asked)) }
    ensures faultless { IfOk result (λ _. fault_of W.app (map string_bytes words.now) ≡ []) }
    ensures taken { takes W.app (map string_bytes words.now) ≡ true → IfErr result (λ why. why ≡ unasked.Memory) }
    ensures why { IfErr result (IsReason (fault_of W.app (map string_bytes words.now))) }
{
    let Ok(command) = W::command(alloc) else {
        return Err(Unasked::Memory);
    };
    match matches_of(rt, command, words) {
        Ok(matches) => Ok(asked_by(&matches)),
        Err(why) => Err(why),
    }
}

/// What a command line with these matches asks for.
fn asked_by<'a, W: Wanted<'a>>(matches: &ArgMatches<'a>) -> Asked<'a, W>
    requires there { is_some (subcommand_rows_of matches.now) ≡ true }
    ensures { Some (asks_told W.told result) ≡ option_map (asks_of_subcommand W.wishes) (subcommand_rows_of matches.now) }
{
    let (name, found) = subcommand_of(matches);
    Asked {
        what: W::wanted(name, found),
        file: word_of(found, FILE),
    }
}
