//! What a command line asks for.

ghost use Rattle.std.specs.Prelude.{◌≡◌};
ghost use Rattle.clap.specs.Words.{found_of, rows_of};
ghost use Rattle.fairexec_args.specs.Asks.{what_named};

use crate::command::{AUDIT, BYTES, FOLLOW, JOURNAL, PARTS, STATS, THREADS, command};
use clap::{ArgMatches, Command};
use fair_args::{Wanted, flag_is_given};
use std::alloc::{AllocError, Global};

/// What is to be done with a file, or with a folder.
#[derive(Clone, Copy)]
pub enum What {
    /// Its script is run on the model. It says whether journals and statistics are printed.
    Run { journal: bool, stats: bool },
    /// Its script is run on threads. It says whether journals and statistics are printed behind the outcomes.
    Threads { journal: bool, stats: bool },
    /// Its journals are judged. It says whether they are bytes.
    Audit { bytes: bool },
    /// The parts in a folder are judged. It says whether they are followed as they grow.
    Parts { follow: bool },
    /// Its journals are bytes, and their text is printed.
    Journal,
}

/// What the subcommands of the program want.
impl<'a> Wanted<'a> for What {
    ghost use Rattle.fairexec_args.specs.Asks.{what_named};
    ghost use Rattle.fairexec_args.specs.CommandLine.{our_app};
    ghost use Rattle.fairexec_args.specs.declared.asked.What.{What};

    ghost Wish = { What };

    ghost app = { our_app };

    ghost wishes = { what_named };

    ghost told = { λ what. what };

    fn command(alloc: Global) -> Result<Command<'a>, AllocError> {
        command(alloc)
    }

    fn wanted(name: &str, found: &ArgMatches<'a>) -> What {
        what_of(name, found)
    }
}

/// What the subcommand of this name does.
fn what_of(name: &str, found: &ArgMatches<'_>) -> What
    ensures { result ≡ what_named name.now (rows_of (found_of found.now)) }
{
    if name == AUDIT {
        // What is followed are parts, and parts are bytes, whether or not `--parts` and `--bytes` say so.
        if flag_is_given(found, FOLLOW) {
            return What::Parts { follow: true };
        }
        if flag_is_given(found, PARTS) {
            return What::Parts { follow: false };
        }
        let bytes = flag_is_given(found, BYTES);
        return What::Audit { bytes };
    }
    if name == JOURNAL {
        return What::Journal;
    }
    let journal = flag_is_given(found, JOURNAL);
    let stats = flag_is_given(found, STATS);
    if name == THREADS {
        return What::Threads { journal, stats };
    }
    What::Run { journal, stats }
}
