//! What the words of a command line are found to say.

ghost use Rattle.std.specs.Prelude.{◌≡◌, [], true, Some, is_some, map, option_map, string_bytes, IfOk, IfErr};
ghost use Rattle.clap.specs.Words.{app_of, fault_of, found_of, is_simple_and_free, rows_of, subcommand_rows_of, takes};
ghost use Rattle.clap.specs.Words as theory;
ghost use Rattle.clap.specs.Walk.{first_of};
ghost use Rattle.fair_args.specs.Found.{is_given};
ghost use Rattle.fair_args.specs.Refusals.{IsReason};
ghost use Rattle.fair_args.specs.declared.unasked.Unasked.TheVariants as unasked;

use crate::unasked::{Unasked, unasked_by};
use clap::{ArgMatches, Command};

/// What the command finds in these words, the first of which is the program's name. Help is printed if it is asked for; a mistake is told
/// on standard error. A subcommand has to be named, and no argument is global.
pub fn matches_of<'a, R: Print + Eprint>(
    rt: &R,
    command: Command<'a>,
    words: &'a [String],
) -> Result<ArgMatches<'a>, Unasked>
    requires simple { is_simple_and_free (app_of command) ≡ true }
    requires plain { (app_of command).top.is_plain ≡ true }
    requires named { (app_of command).top.subcommand_required ≡ true }
    ensures found { IfOk result (λ matches. subcommand_rows_of matches ≡ theory.subcommand_of (app_of command.entry) (map string_bytes words.now)) }
    ensures there { IfOk result (λ matches. is_some (subcommand_rows_of matches) ≡ true) }
    ensures faultless { IfOk result (λ _. fault_of (app_of command.entry) (map string_bytes words.now) ≡ []) }
    ensures taken { takes (app_of command.entry) (map string_bytes words.now) ≡ true → IfErr result (λ why. why ≡ unasked.Memory) }
    ensures why { IfErr result (IsReason (fault_of (app_of command.entry) (map string_bytes words.now))) }
{
    match command.try_get_matches_from(words) {
        Ok(matches) => Ok(matches),
        Err(error) => Err(unasked_by(rt, &error)),
    }
}

/// The subcommand that is named, and what was found behind it.
pub fn subcommand_of<'m, 'a>(matches: &'m ArgMatches<'a>) -> (&'a str, &'m ArgMatches<'a>)
    requires there { is_some (subcommand_rows_of matches.now) ≡ true }
    ensures { Some (result.0.now, rows_of (found_of result.1.now)) ≡ subcommand_rows_of matches.now }
{
    matches.subcommand().unwrap()
}

/// The word of this name, if there is one.
pub fn word_of<'a>(found: &ArgMatches<'a>, name: &str) -> Option<&'a str>
    ensures { option_map (λ word. word.now) result ≡ first_of name.now (rows_of (found_of found.now)) }
{
    found.get_str(name)
}

/// Whether the flag of this name is given. Its text is `true` then, and `false` without it.
pub fn flag_is_given(found: &ArgMatches<'_>, name: &str) -> bool
    ensures { result ≡ is_given name.now (rows_of (found_of found.now)) }
{
    match found.get_str(name) {
        Some(text) => text == "true",
        None => false,
    }
}
