//! Journals whose parts stand in a folder: `head` has the numbers of the house, and `part0`, `part1`, .. are those of its cores and, last, of
//! the outside actor.
//!
//! They are read side by side first, in the memory of what is inside and outstanding, and done again on a house of cores. If that writes the
//! same notes, they are sound. Otherwise the files are read one behind the other, and judged as their bytes are.

ghost use Rattle.std.specs.Prelude.{◌≡◌, ◌⊎◌, Some};
ghost use Rattle.fair_parts.specs.Folders.{TellsHouse};
ghost use Rattle.judge_replay.specs.declared.reading.Found.TheVariants.{Sound};
ghost use Rattle.text_parts.specs.Faults.{bytes_status};
ghost use Rattle.text_words.specs.declared.status.Status.TheVariants as status;
ghost use Rattle.fairexec.specs.Ends.{status_ended};
ghost use Rattle.fairexec.specs.Parts.{AreSoundFiles, JudgesAll, JudgesParts, JudgesWhole};

use crate::ended::Ended;
use crate::print;
use fair_args::ReadOnlyFiles;
use fair_parts::{gathered, house_in, part_files};
use fairexec_report::audit_text;
use judge_parts::judged_parts;
use judge_replay::Found;
use std::alloc::{AllocGlobal, Global};
use text_bytes::{ByteSink, TextSource};
use text_parts::parts::{HouseNumbers, PartsCause};
use text_parts::{BytesFault, text_of_parts};

/// Judges the journals whose parts are in the folder, or in the current one.
pub(crate) fn audit_parts<R: ReadOnlyFiles + AllocGlobal, S: ByteSink>(
    rt: &R,
    folder: Option<&str>,
    output: &mut S,
) -> Ended
    ensures { JudgesParts S.ByteSink output.old output.new R.File.remaining (status_ended result) }
{
    let folder = folder_in(folder);
    let found = found_in(rt, folder);
    if let Some(Found::Sound) = found {
        return Ended::Ran(print(b"sound\n", output));
    }
    judge_whole(rt, folder, found, output)
}

/// The folder that is named, or the current one.
pub(crate) fn folder_in(folder: Option<&str>) -> &str {
    match folder {
        Some(folder) => folder,
        None => ".",
    }
}

/// Judges all bytes of the folder, once this was found of them.
pub(crate) fn judge_whole<R: ReadOnlyFiles + AllocGlobal, S: ByteSink>(
    rt: &R,
    folder: &str,
    found: Option<Found>,
    output: &mut S,
) -> Ended
    ensures { JudgesWhole S.ByteSink output.old output.new R.File.remaining (status_ended result) }
{
    match gathered(rt, folder) {
        Ok(bytes) => judged(rt.alloc(), found, &bytes, output),
        Err(fault) => unjudged(found, fault),
    }
}

/// What the journals are that the files tell, if all can be read, each beside the others.
fn found_in<R: ReadOnlyFiles + AllocGlobal>(rt: &R, folder: &str) -> Option<Found>
    ensures { result ≡ Some Sound → AreSoundFiles R.File.remaining }
{
    let Ok(house) = house_in(rt, folder) else {
        return None;
    };
    let Ok(files) = part_files(rt, folder, house.cores) else {
        return None;
    };
    match judged_parts(rt.alloc(), house, files) {
        Ok(found) => Some(found),
        Err(_) => None,
    }
}

/// Whether the bytes are more than can be judged.
fn is_too_much(fault: BytesFault) -> bool {
    match fault {
        BytesFault::Memory => true,
        BytesFault::Faulty {
            cause: PartsCause::TooMany,
            ..
        } => true,
        _ => false,
    }
}

/// The number of the last of so many notes of each actor, of this one.
pub(crate) fn last_note(actor: u8, read: &[u64]) -> u64 {
    match read.get(usize::from(actor)) {
        Some(count) => *count,
        None => 0,
    }
}

/// How it ends if the bytes aren't judged. If they are too many, the note is told at which a house writes another.
fn unjudged(found: Option<Found>, fault: BytesFault) -> Ended
    ensures { (status_ended result ≡ bytes_status fault) ⊎ (status_ended result ≡ status.Memory) }
{
    if is_too_much(fault) {
        if let Some(Found::Differs { actor, read }) = found {
            let note = last_note(actor, &read);
            return Ended::Differs { actor, note };
        }
    }
    Ended::NoText(fault)
}

/// Judges journals whose bytes these are, once this was found of them.
fn judged<S: ByteSink>(alloc: Global, found: Option<Found>, bytes: &[u8], output: &mut S) -> Ended
    ensures { JudgesAll S.ByteSink output.old output.new bytes.now (status_ended result) }
{
    match text_of_parts(alloc, &mut TextSource::of(bytes)) {
        Ok(text) => Ended::Judged(audit_text(alloc, &mut TextSource::of(&text), output)),
        Err(fault) => unjudged(found, fault),
    }
}
