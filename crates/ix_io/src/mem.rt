ghost use Rattle.std.specs.Prelude.{◌≡◌, ◌+◌, ◌-◌, ◌^◌, ◌<◌, ◌≤◌, ◌⊎◌, ◌↔◌, ◌++◌, [], Some, None, length, min, take, unwrap_or, Contains, IfOk, OnErr, OnOk, IsErr};
ghost use Rattle.ix_io.specs.Limits.{most_bytes};
ghost use Rattle.ix_io.specs.Calls.{first_call, after_call, after_fault};
ghost use Rattle.ix_io.specs.Faults.{AllInRange, NoneFell, Rose};
ghost use Rattle.ix_io.specs.Shelf.{Places, file_named, told_file};
ghost use Rattle.ix_io.specs.Sink.{Appends};

use crate::calls::Calls;
use crate::files::{find, place};
use crate::{Failed, MOST_BYTES, Shelf, Sink};
use ix_bits::{List, Memory, Name};
use std::alloc::Global;
use std::marker::Model;

/// Files in memory, which are told, some of whose reads are to fail. All names have one count of faults.
#[derive(Drop)]
pub struct MemShelf {
    files: List<(Name, List<u8>)>,
    calls: Calls,
}

impl Model for MemShelf {
    ghost use Rattle.std.specs.Prelude.{◌<◌, ◌≤◌, ◌^◌};
    ghost use Rattle.ix_io.specs.Mem.{Shelved};

    ghost Value = { Shelved };

    ghost view = { λ shelf. record { files = shelf.files; calls = shelf.calls } };

    ghost invariant = { λ shelf. (1 ≤ shelf.calls.most) × (shelf.calls.faults < 2 ^ 64) };
}

impl MemShelf {
    /// A shelf of these files, of which the first of a name counts. `fail` has the numbers, from 0, of the calls that are
    /// to fail. A call gives at most `most` bytes, which is at least 1.
    pub fn new(files: List<(Name, List<u8>)>, fail: List<u64>, most: u32) -> MemShelf
        requires { 1 ≤ most }
        ensures { result ≡ record { files = files; calls = first_call fail most } }
    {
        MemShelf {
            files,
            calls: Calls::new(fail, most),
        }
    }
}

impl Shelf for MemShelf {
    ghost files = { λ shelf. Some shelf.files };

    ghost faults = { λ shelf _. shelf.calls.faults };

    fn read_part(&mut self, name: &str, from: u64, into: &mut [u8]) -> Result<usize, Failed>
        requires near { from ≤ most_bytes }
        requires room { 0 < length into.old }

        // It fails where that is planned, and for a name that is not there.
        ensures fails { IsErr result ↔
            (Contains self.old.calls.fail self.old.calls.next ⊎ (file_named self.old.files name.now ≡ None)) }
        ensures ok { OnOk result (self.new ≡ record self.old { calls = after_call self.old.calls }) }
        ensures err { OnErr result (self.new ≡ record self.old { calls = after_fault self.old.calls }) }
        ensures count { IfOk result (λ n. n ≡ min
            (min (length (unwrap_or (file_named self.old.files name.now) []) - from) (length into.old))
            self.old.calls.most) }

        // As of any shelf.
        ensures kept { self.new.files ≡ self.old.files }
        ensures placed { IfOk result (λ n. Places (told_file (Some self.old.files) name.now) from n into.new) }
        ensures failed { OnErr result (Rose self.old.calls.faults self.new.calls.faults) }
        ensures none_fell { NoneFell (λ _. self.old.calls.faults) (λ _. self.new.calls.faults) }
        ensures in_range { AllInRange (λ _. self.new.calls.faults) }
    {
        match find(self.files.as_slice(), name) {
            Some(file) if !self.calls.is_due() => {
                let count = place(file, from, self.calls.most as usize, into);
                self.calls.count_call();
                Ok(count)
            }
            _ => {
                self.calls.count_fault();
                Err(Failed)
            }
        }
    }
}

/// An output in memory, which is told, with room for 1,048,576 bytes, some of whose writes are to fail.
#[derive(Drop)]
pub struct MemSink {
    bytes: Vec<u8>,
    calls: Calls,
}

impl Model for MemSink {
    ghost use Rattle.std.specs.Prelude.{◌<◌, ◌≤◌, ◌^◌, vec_len, vec_capacity};
    ghost use Rattle.ix_io.specs.Limits.{most_bytes};
    ghost use Rattle.ix_io.specs.Mem.{Taken};

    ghost Value = { Taken };

    ghost view = { λ sink. record { written = sink.bytes.items; calls = sink.calls } };

    ghost invariant = { λ sink. (1 ≤ sink.calls.most) × (sink.calls.faults < 2 ^ 64)
        × (vec_len sink.bytes ≤ most_bytes) × (most_bytes ≤ vec_capacity sink.bytes) };
}

impl MemSink {
    /// An empty output with all the memory that it will need. `fail` has the numbers, from 0, of the calls that are to
    /// fail. A call takes at most `most` bytes, which is at least 1. Bytes that do not fit are a fault.
    pub fn new(alloc: Global, fail: List<u64>, most: u32) -> Result<MemSink, Memory>
        requires { 1 ≤ most }
        ensures { IfOk result (λ sink. sink ≡ record { written = []; calls = first_call fail most }) }
    {
        match Vec::with_capacity(alloc, MOST_BYTES) {
            Ok(bytes) => Ok(MemSink {
                bytes,
                calls: Calls::new(fail, most),
            }),
            Err(_) => Err(Memory),
        }
    }

    /// The bytes that were written.
    pub fn bytes(&self) -> &[u8]
        ensures { result.now ≡ self.now.written }
    {
        self.bytes.as_slice()
    }
}

impl Sink for MemSink {
    ghost written = { λ sink. Some sink.written };

    ghost faults = { λ sink. sink.calls.faults };

    fn write_part(&mut self, piece: &[u8]) -> Result<usize, Failed>
        requires { 0 < length piece.now }

        // It fails where that is planned, and where the bytes do not fit.
        ensures fails { IsErr result ↔ (Contains self.old.calls.fail self.old.calls.next
            ⊎ (most_bytes < length self.old.written + min (length piece.now) self.old.calls.most)) }
        ensures ok { IfOk result (λ n. self.new ≡
            record { written = self.old.written ++ take n piece.now; calls = after_call self.old.calls }) }
        ensures err { OnErr result (self.new ≡ record self.old { calls = after_fault self.old.calls }) }
        ensures count { IfOk result (λ n. n ≡ min (length piece.now) self.old.calls.most) }

        // As of any sink.
        ensures some { IfOk result (λ n. 0 < n) }
        ensures within { IfOk result (λ n. n ≤ length piece.now) }
        ensures appends { IfOk result (λ n. Appends (Some self.old.written) (Some self.new.written) (take n piece.now)) }
        ensures nothing { OnErr result (Some self.new.written ≡ Some self.old.written) }
        ensures failed { OnErr result (Rose self.old.calls.faults self.new.calls.faults) }
        ensures never_fell { self.old.calls.faults ≤ self.new.calls.faults }
        ensures in_range { self.new.calls.faults < 2 ^ 64 }
    {
        let count = piece.len().min(self.calls.most as usize);
        if self.calls.is_due() || count > MOST_BYTES - self.bytes.len() {
            self.calls.count_fault();
            return Err(Failed);
        }
        self.bytes.extend_from_slice(&piece[..count]).unwrap();
        self.calls.count_call();
        Ok(count)
    }
}
