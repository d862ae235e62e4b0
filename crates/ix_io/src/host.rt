ghost use Rattle.std.specs.Prelude.{◌≡◌, ◌≤◌, None, length, IfOk};

use crate::{Failed, Shelf, Sink};
use std::fs::File;
use std::io;
use std::io::{Read, Seek, SeekFrom};
use std::marker::Model;
use std::rt::Files;

/// The files of the host, of which nothing is told. Contracts see the count of its faults, those of all names together.
#[derive(Drop)]
pub struct HostShelf<'a, R> {
    rt: &'a R,
    faults: u64,
}

impl<'a, R> Model for HostShelf<'a, R> {
    ghost use Rattle.std.specs.Prelude.{ℕ};

    ghost Value = { ℕ };

    ghost view = { λ shelf. shelf.faults };
}

impl<'a, R> HostShelf<'a, R> {
    /// The files that this runtime opens.
    pub fn new(rt: &'a R) -> HostShelf<'a, R>
        ensures { result ≡ 0 }
    {
        HostShelf { rt, faults: 0 }
    }
}

// Opens the file and reads from a place on, once.
fn read_at<R: Files>(rt: &R, name: &str, from: u64, into: &mut [u8]) -> io::Result<usize>
    ensures { IfOk result (λ n. n ≤ length into.new) }
{
    let mut file = File::open(rt, name)?;
    file.seek(SeekFrom::Start(from))?;
    file.read(into)
}

impl<R: Files> Shelf for HostShelf<'_, R> {
    ghost files = { λ _. None };

    ghost faults = { λ shelf _. shelf };

    fn read_part(&mut self, name: &str, from: u64, into: &mut [u8]) -> Result<usize, Failed> {
        let faults = self.faults;
        match read_at(self.rt, name, from, into) {
            Ok(count) => Ok(count),
            Err(_) => {
                self.faults = faults.saturating_add(1);
                Err(Failed)
            }
        }
    }
}

/// The standard output of the host, of which nothing is told. Contracts see the count of its faults.
#[derive(Drop)]
pub struct HostSink<'a, R> {
    rt: &'a R,
    faults: u64,
}

impl<'a, R> Model for HostSink<'a, R> {
    ghost use Rattle.std.specs.Prelude.{ℕ};

    ghost Value = { ℕ };

    ghost view = { λ sink. sink.faults };
}

impl<'a, R> HostSink<'a, R> {
    /// The output that this runtime prints to.
    pub fn new(rt: &'a R) -> HostSink<'a, R>
        ensures { result ≡ 0 }
    {
        HostSink { rt, faults: 0 }
    }
}

impl<R: Print> Sink for HostSink<'_, R> {
    ghost written = { λ _. None };

    ghost faults = { λ sink. sink };

    fn write_part(&mut self, piece: &[u8]) -> Result<usize, Failed> {
        let faults = self.faults;
        match self.rt.write_some(piece) {
            Ok(count) if count > 0 => Ok(count),
            _ => {
                self.faults = faults.saturating_add(1);
                Err(Failed)
            }
        }
    }
}
