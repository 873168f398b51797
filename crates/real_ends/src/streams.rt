//! The files and the standard streams of the system.

ghost use Rattle.std.specs.Prelude.{◌≡◌, ◌≤◌};
ghost use Rattle.fca_io.specs.Faults.{one_more};

use fca_io::{Failed, Shelf, Sink, Source, Taken, read_all};
use std::alloc::Global;
use std::fs;
use std::io::{Read, Write};
use std::marker::Model;
use std::rt::Files;

/// A reader of the system with a count of its faults, which contracts see.
#[derive(Drop)]
pub struct CountedInput<T> {
    inner: T,
    faults: u64,
}

impl<T> Model for CountedInput<T> {
    ghost use Rattle.std.specs.Prelude.{ℕ};

    ghost Value = { ℕ };

    ghost view = { λ s. s.faults };
}

/// The standard input.
pub type StdInput<T> = CountedInput<T>;

impl<T> CountedInput<T> {
    /// Wraps the reader. No fault is counted yet.
    pub fn new(inner: T) -> CountedInput<T>
        ensures { result ≡ 0 }
    {
        CountedInput { inner, faults: 0 }
    }
}

impl<T: Read> Source for CountedInput<T> {
    ghost use Rattle.std.specs.Prelude.{None};

    ghost left = { λ _. None };

    ghost faults = { λ count. count };

    ghost reads = { λ _. None };

    ghost beside = { λ _. None };

    ghost faults_beside = { λ _. 0 };

    fn read(&mut self, into: &mut [u8]) -> Result<usize, Failed> {
        match self.inner.read(into) {
            Ok(count) => Ok(count),
            Err(_) => {
                self.faults = self.faults.saturating_add(1);
                Err(Failed)
            }
        }
    }
}

/// A writer of the system with a count of its faults, which contracts see. A write that takes nothing is a fault.
#[derive(Drop)]
pub struct CountedOutput<T> {
    inner: T,
    faults: u64,
}

impl<T> Model for CountedOutput<T> {
    ghost use Rattle.std.specs.Prelude.{ℕ};

    ghost Value = { ℕ };

    ghost view = { λ s. s.faults };
}

/// The standard output.
pub type StdOutput<T> = CountedOutput<T>;

/// The error stream.
pub type StdFault<T> = CountedOutput<T>;

impl<T> CountedOutput<T> {
    /// Wraps the writer. No fault is counted yet.
    pub fn new(inner: T) -> CountedOutput<T>
        ensures { result ≡ 0 }
    {
        CountedOutput { inner, faults: 0 }
    }
}

impl<T: Write> Sink for CountedOutput<T> {
    ghost use Rattle.std.specs.Prelude.{None};

    ghost held = { λ _. None };

    ghost faults = { λ count. count };

    ghost whole_writes = { λ _. None };

    ghost beside = { λ _. None };

    ghost read_counts_beside = { λ _. record { reads = None; faults = 0 } };

    fn write(&mut self, from: &[u8]) -> Result<usize, Failed> {
        match self.inner.write(from) {
            Ok(count) if count > 0 => Ok(count),
            _ => {
                self.faults = self.faults.saturating_add(1);
                Err(Failed)
            }
        }
    }
}

/// The files of the system. Contracts see its count of faults, which is one for all names.
#[derive(Drop)]
pub struct FileShelf<'a, R: Files> {
    rt: &'a R,
    faults: u64,
}

impl<'a, R: Files> Model for FileShelf<'a, R> {
    ghost use Rattle.std.specs.Prelude.{ℕ};

    ghost Value = { ℕ };

    ghost view = { λ s. s.faults };
}

impl<'a, R: Files> FileShelf<'a, R> {
    /// The files of the system. No fault is counted yet.
    pub fn new(rt: &'a R) -> FileShelf<'a, R>
        ensures { result ≡ 0 }
    {
        FileShelf { rt, faults: 0 }
    }

    fn count_fault(&mut self) -> Taken
        ensures fault { result ≡ Taken.Failed }
        ensures counted { self.new ≡ one_more self.old }
        ensures only_rise { self.old ≤ self.new }
    {
        self.faults = self.faults.saturating_add(1);
        Taken::Failed
    }
}

impl<'a, R: Files> Shelf for FileShelf<'a, R> {
    ghost use Rattle.std.specs.Prelude.{None};

    ghost tells = { λ _ _. None };

    ghost faults = { λ count _. count };

    ghost fetches = { λ _. None };

    fn fetch(&mut self, alloc: Global, name: &[u8], limit: usize) -> Result<Vec<u8>, Taken> {
        let Ok(path) = str::from_utf8(name) else {
            return Err(self.count_fault());
        };
        let Ok(file) = fs::open(self.rt, path) else {
            return Err(self.count_fault());
        };
        match read_all(alloc, &mut CountedInput::new(file), limit) {
            Err(Taken::Failed) => Err(self.count_fault()),
            taken => taken,
        }
    }
}
