ghost use Rattle.std.specs.Prelude.{◌≡◌, Some, None, Ok, length, IfOk, IfSome, is_some, []};
ghost use Rattle.ix_io.specs.SureSink.{Room, told_after};

use crate::files::{find, place};
use crate::{Failed, Shelf, Sink};
use ix_bits::{List, Memory, Name};
use std::alloc::Global;
use std::marker::Model;

/// Files in memory, which are told and are read without a fault. A name that they lack is an empty file.
#[derive(Drop)]
pub struct SureShelf {
    files: List<(Name, List<u8>)>,
}

impl Model for SureShelf {
    ghost use Rattle.ix_io.specs.Shelf.{NamedFiles};

    ghost Value = { NamedFiles };

    ghost view = { λ shelf. shelf.files };
}

impl SureShelf {
    /// A shelf of these files. Of two with one name the first counts.
    pub fn new(files: List<(Name, List<u8>)>) -> SureShelf
        ensures { result ≡ files }
    {
        SureShelf { files }
    }
}

impl Shelf for SureShelf {
    ghost files = { λ shelf. Some shelf };

    ghost faults = { λ _ _. 0 };

    fn read_part(&mut self, name: &str, from: u64, into: &mut [u8]) -> Result<usize, Failed> {
        match find(self.files.as_slice(), name) {
            Some(file) => Ok(place(file, from, usize::MAX, into)),
            None => Ok(0),
        }
    }
}

/// An output in memory that is written without a fault, and that tells its bytes as long as they fit.
#[derive(Drop)]
pub struct SureSink {
    bytes: Vec<u8>,
    room: usize,
    whole: bool,
}

impl Model for SureSink {
    ghost use Rattle.std.specs.Prelude.{◌≤◌, Some, None, vec_len, vec_capacity, if◌then◌else◌};
    ghost use Rattle.ix_io.specs.SureSink.{Room};

    ghost Value = { Room };

    ghost view = { λ sink. record { written = if sink.whole then Some sink.bytes.items else None; most = sink.room } };

    ghost invariant = { λ sink. (vec_len sink.bytes ≤ sink.room) × (sink.room ≤ vec_capacity sink.bytes) };
}

impl SureSink {
    /// An empty output with room for that many bytes.
    pub fn new(alloc: Global, room: u64) -> Result<SureSink, Memory>
        ensures { IfOk result (λ sink. sink ≡ record { written = Some []; most = room }) }
    {
        let room = room as usize;
        match Vec::with_capacity(alloc, room) {
            Ok(bytes) => Ok(SureSink {
                bytes,
                room,
                whole: true,
            }),
            Err(_) => Err(Memory),
        }
    }

    /// The bytes that were written, as long as they fit.
    pub fn bytes(&self) -> &[u8]
        ensures { IfSome self.now.written (λ bytes. result.now ≡ bytes) }
    {
        self.bytes.as_slice()
    }

    /// Whether all that was written did fit, so that it is told.
    pub fn is_whole(&self) -> bool
        ensures { result ≡ is_some self.now.written }
    {
        self.whole
    }
}

impl Sink for SureSink {
    ghost written = { λ sink. sink.written };

    ghost faults = { λ _. 0 };

    fn write_part(&mut self, piece: &[u8]) -> Result<usize, Failed>
        ensures all { result ≡ Ok (length piece.now) }
        ensures told { self.new ≡ record self.old { written = told_after self.old.most self.old.written piece.now } }
    {
        if self.whole && piece.len() <= self.room - self.bytes.len() {
            self.bytes.extend_from_slice(piece).unwrap();
        } else {
            self.whole = false;
        }
        Ok(piece.len())
    }
}
