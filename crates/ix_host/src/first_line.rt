ghost use Rattle.std.specs.Prelude.{None};

use ix_io::{Failed, HostSink, Sink};

/// The most bytes that are kept.
const ROOM: usize = 1_024;

/// The first line of an output, as long as it has at most 1,024 bytes.
#[derive(Drop)]
struct FirstLine {
    bytes: [u8; ROOM],
    count: usize,
    is_ended: bool,
}

impl FirstLine {
    /// Goes on by one byte, unless the line has ended or is too long.
    fn put(&mut self, byte: u8) {
        if !self.is_ended && self.count < ROOM {
            self.bytes[self.count] = byte;
            self.count += 1;
            self.is_ended = byte == b'\n';
        }
    }

    /// Goes on by a piece of the output; one behind the first line costs nothing.
    fn put_all(&mut self, piece: &[u8]) {
        if self.is_ended {
            return;
        }
        for byte in piece {
            self.put(*byte);
        }
    }

    /// The line with its line feed, if it has ended.
    fn text(&self) -> Option<&str> {
        if !self.is_ended {
            return None;
        }
        str::from_utf8(&self.bytes[..self.count.min(ROOM)]).ok()
    }
}

/// The standard output of the host, of which the first line is kept.
#[derive(Drop)]
pub(crate) struct KeepingSink<'a, R> {
    sink: HostSink<'a, R>,
    first: FirstLine,
}

impl<'a, R> KeepingSink<'a, R> {
    pub(crate) fn new(rt: &'a R) -> KeepingSink<'a, R> {
        KeepingSink {
            sink: HostSink::new(rt),
            first: FirstLine {
                bytes: [0; ROOM],
                count: 0,
                is_ended: false,
            },
        }
    }

    /// The first line that was written, with its line feed; nothing where none was written whole,
    /// or it has more than 1,024 bytes.
    pub(crate) fn first_line(&self) -> Option<&str> {
        self.first.text()
    }
}

impl<R: Print> Sink for KeepingSink<'_, R> {
    ghost written = { λ _. None };

    ghost faults = { λ keeping. keeping.sink };

    fn write_part(&mut self, piece: &[u8]) -> Result<usize, Failed> {
        match self.sink.write_part(piece) {
            Ok(count) => {
                self.first.put_all(&piece[..count]);
                Ok(count)
            }
            Err(failed) => Err(failed),
        }
    }
}
