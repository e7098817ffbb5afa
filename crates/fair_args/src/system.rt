//! What a program may do to the system that it runs on.

ghost use Rattle.std.specs.Prelude.{◌≡◌};

use std::fmt::Display;
use std::io::{ErrorKind, Read};
use std::rt::{Env, Files};
use std::sync::Wait;
use std::thread::Threads;
use std::{env, fs, io};

/// Files that can be opened for reading, and for nothing else.
pub trait ReadOnlyFiles {
    /// A file that is open for reading.
    type File: Read + Drop;

    /// Opens the file at this path.
    fn open_to_read(&self, path: &str) -> io::Result<Self::File>;
}

/// A system that lends memory and threads, and whose files can only be read. It has no other right of the system within, which nobody else reaches.
#[derive(Clone, Copy)]
pub struct ReadOnly<R> {
    system: R,
}

impl<R> ReadOnly<R> {
    /// This system, less its other rights.
    pub fn of(system: R) -> ReadOnly<R>
        ensures { result.system ≡ system }
    {
        ReadOnly { system }
    }
}

impl<R: Alloc> Alloc for ReadOnly<R> {
    type A = R::A;

    fn alloc(&self) -> R::A {
        self.system.alloc()
    }
}

impl<R: Threads> Threads for ReadOnly<R> {}

impl<R: Wait> Wait for ReadOnly<R> {}

// No other code of a program can open a file, or do anything else to one.
impl<R: Files> ReadOnlyFiles for ReadOnly<R> {
    type File = ReadOnlyFile<R::File>;

    fn open_to_read(&self, path: &str) -> io::Result<ReadOnlyFile<R::File>> {
        let file = fs::open(&self.system, path)?;
        Ok(ReadOnlyFile { file })
    }
}

/// A file that can only be read.
#[derive(Drop)]
pub struct ReadOnlyFile<F> {
    file: F,
}

impl<F: Read> Read for ReadOnlyFile<F> {
    ghost remaining = { λ it. F.remaining it.file };

    fn read(&mut self, room: &mut [u8]) -> io::Result<usize> {
        self.file.read(room)
    }
}

/// The standard output and the standard error of a system, of which it has no other right.
#[derive(Clone, Copy)]
pub struct Console<R> {
    system: R,
}

impl<R> Console<R> {
    /// Those of this system.
    pub fn of(system: R) -> Console<R>
        ensures { result.system ≡ system }
    {
        Console { system }
    }
}

impl<R: Print> Print for Console<R> {
    fn print<D: Display + Drop>(&self, value: D) -> io::Result<()> {
        self.system.print(value)
    }

    fn println<D: Display + Drop>(&self, value: D) -> io::Result<()> {
        self.system.println(value)
    }

    fn write_all(&self, bytes: &[u8]) -> io::Result<()> {
        self.system.write_all(bytes)
    }

    fn write_some(&self, bytes: &[u8]) -> io::Result<usize> {
        self.system.write_some(bytes)
    }
}

impl<R: Eprint> Eprint for Console<R> {
    fn eprint<D: Display + Drop>(&self, value: D) -> io::Result<()> {
        self.system.eprint(value)
    }

    fn eprintln<D: Display + Drop>(&self, value: D) -> io::Result<()> {
        self.system.eprintln(value)
    }
}

/// The words of the command line, the first of which is the program's name.
///
/// # Errors
///
/// `OutOfMemory`, and another kind for a word that isn't text.
pub fn words_of<R: Env + AllocGlobal>(rt: &R) -> Result<Vec<String>, ErrorKind> {
    let words = env::args(rt).map_err(|error| error.kind())?;
    words
        .collect(rt.alloc())
        .map_err(|_| ErrorKind::OutOfMemory)
}
