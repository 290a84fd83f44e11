// The files, the standard input and the standard output of the machine. They tell nothing of their bytes.
ghost use Rattle.std.specs.Prelude.{◌≡◌, None, false};

use crate::{Failed, Shelf, Sink};
use std::io::{Read, Write};
use std::rt::Files;
use std::{fs, io};

// A file that is open for reading.
#[derive(Drop)]
enum Opened<F, I> {
    File(F),
    Input(I),
}

/// The files of the machine by their paths. The name `-` is the standard input.
#[derive(Drop)]
pub struct DirShelf<'a, R: Files + Input> {
    rt: &'a R,
    opened: Option<Opened<R::File, R::Reader>>,
    failed: u64,
}

impl<'a, R: Files + Input> DirShelf<'a, R> {
    /// A shelf with no open file, on which no call has failed.
    pub fn new(rt: &'a R) -> DirShelf<'a, R>
        ensures { ⟦<DirShelf<'a, R> as Shelf>⟧.faults result ≡ 0 }
    {
        DirShelf {
            rt,
            opened: None,
            failed: 0,
        }
    }
}

impl<'a, R: Files + Input> Shelf for DirShelf<'a, R> {
    ghost files = { λ s. None };

    ghost left = { λ s. None };

    ghost faults = { λ s. s.failed };

    ghost honest = { λ s. false };

    fn open(&mut self, name: &str) -> Result<(), Failed> {
        self.opened = None;
        if name == "-" {
            self.opened = Some(Opened::Input(self.rt.reader()));
            return Ok(());
        }
        match fs::open(self.rt, name) {
            Ok(file) => {
                self.opened = Some(Opened::File(file));
                Ok(())
            }
            Err(_) => {
                self.failed = self.failed.saturating_add(1);
                Err(Failed)
            }
        }
    }

    fn read(&mut self, buf: &mut [u8]) -> Result<usize, Failed> {
        let outcome = match &mut self.opened {
            Some(Opened::File(file)) => file.read(buf).ok(),
            Some(Opened::Input(input)) => input.read(buf).ok(),
            None => None,
        };
        match outcome {
            Some(count) => Ok(count),
            None => {
                self.failed = self.failed.saturating_add(1);
                Err(Failed)
            }
        }
    }
}

/// The standard output.
#[derive(Drop)]
pub struct StdSink<'a, R: Print> {
    rt: &'a R,
    failed: u64,
}

impl<'a, R: Print> StdSink<'a, R> {
    /// A sink on which no call has failed.
    pub fn new(rt: &'a R) -> StdSink<'a, R>
        ensures { ⟦<StdSink<'a, R> as Sink>⟧.faults result ≡ 0 }
    {
        StdSink { rt, failed: 0 }
    }
}

impl<'a, R: Print> Sink for StdSink<'a, R> {
    ghost written = { λ s. None };

    ghost faults = { λ s. s.failed };

    ghost sure = { λ s. 0 };

    fn write(&mut self, bytes: &[u8]) -> Result<usize, Failed> {
        match io::writer(self.rt).write(bytes) {
            Ok(count) if 0 < count || bytes.is_empty() => Ok(count),
            _ => {
                self.failed = self.failed.saturating_add(1);
                Err(Failed)
            }
        }
    }
}
