//! What the words of a command line ask for.

ghost use Rattle.std.specs.Prelude.{◌≡◌, option_map};
ghost use Rattle.fairview_args.specs.Asks.{what_told};
ghost use Rattle.fairview.specs.Shows as spec;

use crate::refusal::Refusal;
use base_words::{CoreNo, JobId};
use fairview_args::What;
use fairview_pictures::Cut;
use fairview_report::{Form, View, name_of};
use text_journal::field::number_in;

/// What the command line asks for.
///
/// # Errors
///
/// What is wrong with a word. Of a picture the core is read first, then the first turn, and then the last one.
pub fn view_of(what: What<'_>) -> Result<View, Refusal>
    ensures { result ≡ spec.view_asked (what_told what.entry) }
{
    match what {
        What::Wait { plain } => Ok(View::Waits { plain }),
        What::Share { plain, csv } => Ok(View::Shares {
            form: form_of(plain, csv),
        }),
        What::Why { name } => story_of(name),
        What::Csv => Ok(View::Polls),
        What::Gantt { core, from, to } => gantt_of(core, from, to),
        What::Lag { text } => Ok(View::Lag { text }),
        What::Trace => Ok(View::Trace),
    }
}

/// How the shares are written. Rows with commas have no bars.
fn form_of(plain: bool, csv: bool) -> Form
    ensures { result ≡ spec.form_asked plain csv }
{
    if csv {
        return Form::Csv;
    }
    if plain { Form::Plain } else { Form::Blocks }
}

/// The story of the submission that a word names.
fn story_of(word: Option<&str>) -> Result<View, Refusal>
    ensures { result ≡ spec.story_asked (option_map (λ word. word.now) word.entry) }
{
    match named(word) {
        Some(name) => Ok(View::Story { name }),
        None => Err(Refusal::Name),
    }
}

/// The submission that a word names, if there is a word and it names one.
fn named(word: Option<&str>) -> Option<JobId>
    ensures { result ≡ spec.name_asked (option_map (λ word. word.now) word.entry) }
{
    name_of(word?.as_bytes())
}

/// The picture of a core, or of all, from one turn to another.
fn gantt_of(core: Option<&str>, from: Option<&str>, to: Option<&str>) -> Result<View, Refusal>
    ensures { result ≡ spec.gantt_asked (option_map (λ word. word.now) core.entry) (option_map (λ word. word.now) from.entry) (option_map (λ word. word.now) to.entry) }
{
    let core = core_of(core)?;
    let from = turn_of(from, 0)?;
    let to = turn_of(to, u64::MAX)?;
    if to < from {
        return Err(Refusal::Order);
    }
    Ok(View::Gantt {
        cut: Cut { core, from, to },
    })
}

/// The core that a word names. None if there is no word.
fn core_of(word: Option<&str>) -> Result<Option<CoreNo>, Refusal>
    ensures { result ≡ spec.core_asked (option_map (λ word. word.now) word.entry) }
{
    let Some(word) = word else {
        return Ok(None);
    };
    match number_in(word.as_bytes(), 0, 15) {
        Some(core) => Ok(Some(CoreNo(core as u8))),
        None => Err(Refusal::Core),
    }
}

/// The turn that a word names, or the second one if there is no word.
fn turn_of(word: Option<&str>, unnamed: u64) -> Result<u64, Refusal>
    ensures { result ≡ spec.turn_asked (option_map (λ word. word.now) word.entry) unnamed }
{
    let Some(word) = word else {
        return Ok(unnamed);
    };
    match number_in(word.as_bytes(), 0, u64::MAX) {
        Some(turn) => Ok(turn),
        None => Err(Refusal::Turn),
    }
}
