//! A folder of parts: `head` has the numbers of the house, and `part0`, `part1`, .. are those of its cores and, last, of the outside actor.

ghost use Rattle.std.specs.Prelude.{◌≡◌, ◌≢◌, ◌+◌, ◌++◌, ℕ, List, Some, IfErr, IfOk, IfSome, OnOk, length};
ghost use Rattle.std.specs.declared.io.ErrorKind.TheVariants as kinds;
ghost use Rattle.fair_parts.specs.Folders.{IsBytesOf, IsUnopened, TellsHouse};
ghost use Rattle.text_parts.specs.declared.fault.BytesFault.TheVariants as faults;

use fair_args::ReadOnlyFiles;
use std::alloc::{AllocError, AllocGlobal, Global};
use std::fmt::Write;
use std::io::ErrorKind;
use text_bytes::Source;
use text_bytes::source::read_some;
use text_parts::BytesFault;
use text_parts::parts::{HouseNumbers, read_parts};

/// The most bytes that are read at once.
const PAGE: usize = 8192;

/// How many bytes the numbers of a house have.
const HEAD: usize = 8;

/// The most bytes that are joined, 1 GiB: the notes and the text of so many take some ten times as much.
const MOST: usize = 1 << 30;

/// Why a file of bytes can't be opened.
pub fn unopened(kind: ErrorKind) -> BytesFault
    ensures memory { kind ≡ kinds.OutOfMemory → result ≡ faults.Memory }
    ensures other { kind ≢ kinds.OutOfMemory → result ≡ faults.Read }
    ensures either { IsUnopened result }
{
    match kind {
        ErrorKind::OutOfMemory => BytesFault::Memory,
        _ => BytesFault::Read,
    }
}

/// The numbers of the house, if `head` has these and nothing else.
pub fn house_in<R: ReadOnlyFiles + AllocGlobal>(
    rt: &R,
    folder: &str,
) -> Result<HouseNumbers, BytesFault>
    ensures ok { IfOk result (λ house. (head : R.File) × TellsHouse (R.File.remaining head) house) }
    ensures none { IfErr result IsUnopened }
{
    let mut bytes = Vec::new(rt.alloc());
    append(rt, folder, "head", &mut bytes)?;
    house_of(rt.alloc(), &bytes)
}

/// The numbers of the house that these bytes are.
fn house_of(alloc: Global, bytes: &[u8]) -> Result<HouseNumbers, BytesFault>
    ensures ok { IfOk result (λ house. TellsHouse (Some bytes.now) house) }
    ensures none { IfErr result IsUnopened }
{
    if bytes.len() != HEAD {
        return Err(BytesFault::Read);
    }
    match read_parts(alloc, bytes) {
        Ok(none) => Ok(HouseNumbers {
            cores: none.cores(),
            cap: none.cap(),
            burst: none.burst(),
        }),
        Err(_) => Err(BytesFault::Read),
    }
}

/// The path of a file in the folder.
fn path_in(alloc: Global, folder: &str, name: &str) -> Result<String, AllocError> {
    let mut path = String::new(alloc);
    write!(path, "{folder}/{name}")?;
    Ok(path)
}

/// The name of the file that has the parts of an actor.
fn part_name(alloc: Global, actor: u16) -> Result<String, AllocError> {
    let mut name = String::new(alloc);
    write!(name, "part{actor}")?;
    Ok(name)
}

/// Opens a file of the folder.
fn opened<R: ReadOnlyFiles + AllocGlobal>(
    rt: &R,
    folder: &str,
    name: &str,
) -> Result<R::File, BytesFault>
    ensures { IfErr result IsUnopened }
{
    let path = path_in(rt.alloc(), folder, name)?;
    match rt.open_to_read(&path) {
        Ok(file) => Ok(file),
        Err(error) => Err(unopened(error.kind())),
    }
}

/// Whether there is a file of this name in the folder that can be opened.
pub fn has_file<R: ReadOnlyFiles + AllocGlobal>(rt: &R, folder: &str, name: &str) -> bool {
    opened(rt, folder, name).is_ok()
}

/// Opens the file of each core, and that of the outside actor.
pub fn part_files<R: ReadOnlyFiles + AllocGlobal>(
    rt: &R,
    folder: &str,
    cores: u8,
) -> Result<Vec<R::File>, BytesFault>
    ensures ok { IfOk result (λ files. length files.items ≡ cores + 1) }
    ensures none { IfErr result IsUnopened }
{
    let mut files = Vec::new(rt.alloc());
    for actor in 0..u16::from(cores) + 1 {
        let name = part_name(rt.alloc(), actor)?;
        let file = opened(rt, folder, &name)?;
        if files.push(file).is_err() {
            return Err(BytesFault::Memory);
        }
    }
    Ok(files)
}

/// Reads a source to its end, and puts what it tells behind these bytes.
fn read_behind<I: Source>(source: &mut I, bytes: &mut Vec<u8>) -> Result<(), BytesFault>
    ensures ok { OnOk result ((more : List ℕ) × (bytes.new.items ≡ bytes.old.items ++ more) × IfSome (I.remaining source.old) (λ all. all ≡ more)) }
    ensures none { IfErr result IsUnopened }
{
    let mut page = [0u8; PAGE];
    while bytes.len() < MOST {
        let Ok(count) = read_some(source, &mut page) else {
            return Err(BytesFault::Read);
        };
        if count == 0 {
            return Ok(());
        }
        bytes.extend_from_slice(&page[..count])?;
    }
    Err(BytesFault::Memory)
}

/// Puts the bytes of a file of the folder behind these.
fn append<R: ReadOnlyFiles + AllocGlobal>(
    rt: &R,
    folder: &str,
    name: &str,
    bytes: &mut Vec<u8>,
) -> Result<(), BytesFault>
    ensures ok { OnOk result ((file : R.File) × (more : List ℕ) × (bytes.new.items ≡ bytes.old.items ++ more) × IfSome (R.File.remaining file) (λ all. all ≡ more)) }
    ensures none { IfErr result IsUnopened }
{
    let mut file = opened(rt, folder, name)?;
    read_behind(&mut file, bytes)
}

/// How many cores the house has whose numbers stand in front of these bytes.
fn cores_of(alloc: Global, bytes: &[u8]) -> Option<u8> {
    if bytes.len() < HEAD {
        return None;
    }
    match house_of(alloc, &bytes[..HEAD]) {
        Ok(house) => Some(house.cores),
        Err(_) => None,
    }
}

/// Puts the parts of each actor behind these bytes.
fn append_parts<R: ReadOnlyFiles + AllocGlobal>(
    rt: &R,
    folder: &str,
    cores: u8,
    bytes: &mut Vec<u8>,
) -> Result<(), BytesFault>
    requires { IsBytesOf R.File.remaining bytes.old.items }
    ensures ok { OnOk result (IsBytesOf R.File.remaining bytes.new.items) }
    ensures none { IfErr result IsUnopened }
{
    for actor in 0..u16::from(cores) + 1 {
        let name = part_name(rt.alloc(), actor)?;
        append(rt, folder, &name, bytes)?;
    }
    Ok(())
}

/// The bytes of the head, and behind them those of each actor's parts.
pub fn gathered<R: ReadOnlyFiles + AllocGlobal>(rt: &R, folder: &str) -> Result<Vec<u8>, BytesFault>
    ensures ok { IfOk result (λ bytes. IsBytesOf R.File.remaining bytes.items) }
    ensures none { IfErr result IsUnopened }
{
    let mut bytes = Vec::new(rt.alloc());
    append(rt, folder, "head", &mut bytes)?;
    if let Some(cores) = cores_of(rt.alloc(), &bytes) {
        append_parts(rt, folder, cores, &mut bytes)?;
    }
    Ok(bytes)
}
