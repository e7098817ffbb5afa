//! What a command line asks for.

ghost use Rattle.std.specs.Prelude.{◌≡◌};
ghost use Rattle.clap.specs.Words.{found_of, rows_of};
ghost use Rattle.fairview_args.specs.Asks.{gantt_named, journals_given, what_named, what_told};

use crate::command::{
    BYTES, CORE, CSV, FROM, GANTT, LAG, NAME, PARTS, PLAIN, SHARE, TEXT, TO, TRACE, WAIT, WHY,
    command,
};
use clap::{ArgMatches, Command};
use fair_args::{Wanted, flag_is_given, word_of};
use std::alloc::{AllocError, Global};

/// What is to be printed of the journals of a file.
#[derive(Clone, Copy)]
pub enum What<'a> {
    /// How long jobs waited and ran. It says whether the bars are of ASCII.
    Wait {
        plain: bool,
    },
    /// What each queue got and what it should have got. It says whether the bars are of ASCII, and whether rows with commas are wanted.
    Share {
        plain: bool,
        csv: bool,
    },
    /// What is told of the submission that this word names. The word is there wherever the words are taken.
    Why {
        name: Option<&'a str>,
    },
    /// A row for each poll.
    Csv,
    /// The polls of all cores, or of the one that a word names, from one turn to another, as a picture.
    Gantt {
        core: Option<&'a str>,
        from: Option<&'a str>,
        to: Option<&'a str>,
    },
    /// How far queues were apart, as a picture. It says whether as text in its place.
    Lag {
        text: bool,
    },
    /// The trace of the run.
    Trace,
}

/// As what journals are read.
#[derive(Clone, Copy)]
pub enum Journals {
    /// As the text in a file.
    Text,
    /// As the bytes in a file.
    Bytes,
    /// As the parts in a folder.
    Parts,
}

/// What is to be printed of journals, and as what these are read.
#[derive(Clone, Copy)]
pub struct Request<'a> {
    pub what: What<'a>,
    pub journals: Journals,
}

/// What the subcommands of the program want.
impl<'a> Wanted<'a> for Request<'a> {
    ghost use Rattle.fairview_args.specs.Asks.{Wish, request_named, request_told};
    ghost use Rattle.fairview_args.specs.CommandLine.{our_app};
    ghost use Rattle.fairview_args.specs.declared.asked.Journals.{Journals};

    ghost Wish = { Wish × Journals };

    ghost app = { our_app };

    ghost wishes = { request_named };

    ghost told = { request_told };

    fn command(alloc: Global) -> Result<Command<'a>, AllocError> {
        command(alloc)
    }

    fn wanted(name: &str, found: &ArgMatches<'a>) -> Request<'a> {
        Request {
            what: what_of(name, found),
            journals: journals_of(found),
        }
    }
}

/// What the subcommand of this name does.
fn what_of<'a>(name: &str, found: &ArgMatches<'a>) -> What<'a>
    ensures { what_told result ≡ what_named name.now (rows_of (found_of found.now)) }
{
    if name == WAIT {
        let plain = flag_is_given(found, PLAIN);
        return What::Wait { plain };
    }
    if name == SHARE {
        let plain = flag_is_given(found, PLAIN);
        let csv = flag_is_given(found, CSV);
        return What::Share { plain, csv };
    }
    if name == WHY {
        let name = word_of(found, NAME);
        return What::Why { name };
    }
    if name == GANTT {
        return gantt_of(found);
    }
    if name == LAG {
        let text = flag_is_given(found, TEXT);
        return What::Lag { text };
    }
    if name == TRACE {
        return What::Trace;
    }
    What::Csv
}

/// As what the journals are read. Parts are bytes, whether or not `--bytes` says so.
fn journals_of(found: &ArgMatches<'_>) -> Journals
    ensures { result ≡ journals_given (rows_of (found_of found.now)) }
{
    if flag_is_given(found, PARTS) {
        return Journals::Parts;
    }
    if flag_is_given(found, BYTES) {
        return Journals::Bytes;
    }
    Journals::Text
}

/// What is drawn of the run.
fn gantt_of<'a>(found: &ArgMatches<'a>) -> What<'a>
    ensures { what_told result ≡ gantt_named (rows_of (found_of found.now)) }
{
    What::Gantt {
        core: word_of(found, CORE),
        from: word_of(found, FROM),
        to: word_of(found, TO),
    }
}
