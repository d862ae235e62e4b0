ghost use Rattle.std.specs.Prelude.{◌≡◌, ◌+◌, ◌*◌, ◌/◌, ◌%◌, ◌^◌, ◌<◌, ◌≤◌, [], ◌++◌, length, IfOk, OnOk, OnErr, decimal, min};
ghost use Rattle.ix_io.specs.Faults.{Rose};
ghost use Rattle.ix_io.specs.Sink.{Appends, AppendsFront};
ghost use Rattle.ix_io.specs.Out.{hex_digit, hex_digits};

use crate::{Sink, WriteErr, write_all};
use itoa::Buffer;
use ix_bits::{Bits, Memory};
use std::alloc::Global;
use std::marker::Model;

/// The count of bytes that an `Out` takes.
const ROOM: usize = 65_536;

/// A buffer of 65,536 bytes in front of a sink. Contracts see the list of the bytes that it holds.
/// Only `new` takes memory.
#[derive(Drop)]
pub struct Out {
    bytes: Vec<u8>,
}

impl Model for Out {
    ghost use Rattle.std.specs.Prelude.{◌≤◌, ℕ, List, vec_len, vec_capacity};

    ghost Value = { List ℕ };

    ghost view = { λ out. out.bytes.items };

    ghost invariant = { λ out. (vec_len out.bytes ≤ 65536) × (65536 ≤ vec_capacity out.bytes) };
}

// The hexadecimal digit at a place, counted from the last digit.
fn digit_at(number: u128, place: u8) -> u8
    requires { place < 32 }
    ensures { result ≡ hex_digit (number / 16 ^ place % 16) }
{
    let digit = ((number >> (4 * place)) % 16) as u8;
    if digit < 10 {
        b'0' + digit
    } else {
        b'a' - 10 + digit
    }
}

impl Out {
    /// An empty buffer, with all the memory that it will need.
    pub fn new(alloc: Global) -> Result<Out, Memory>
        ensures { IfOk result (λ out. out ≡ []) }
    {
        match Vec::with_capacity(alloc, ROOM) {
            Ok(bytes) => Ok(Out { bytes }),
            Err(_) => Err(Memory),
        }
    }

    /// The count of bytes that may still be appended.
    pub fn room(&self) -> u32
        ensures { result + length self.now ≡ 65536 }
    {
        (ROOM - self.bytes.len()) as u32
    }

    /// The bytes that wait to be written.
    pub fn bytes(&self) -> &[u8]
        ensures { result.now ≡ self.now }
    {
        self.bytes.as_slice()
    }

    /// Appends a text.
    pub fn text(&mut self, text: &str)
        requires { length self.old + length text.now ≤ 65536 }
        ensures { self.new ≡ self.old ++ text.now }
    {
        self.bytes.extend_from_slice(text.as_bytes()).unwrap();
    }

    /// Appends a number in decimal digits without leading zeros, which are 20 at most, so that room for 20 is enough.
    #[tactic(auto, using(crate::proofs::Digits::decimal_is_short))]
    pub fn decimal(&mut self, number: u64)
        requires { length self.old + min (length (decimal number)) 20 ≤ 65536 }
        ensures appends { self.new ≡ self.old ++ decimal number }
        ensures few { length self.new ≤ length self.old + 20 }
    {
        self.text(Buffer::new().format(number));
    }

    /// Appends so many lower-case hexadecimal digits of a pattern, 1 to 32 and enough for its width, with leading zeros.
    pub fn hex(&mut self, pattern: Bits, digits: u8)
        requires some { 1 ≤ digits }
        requires most { digits ≤ 32 }
        requires fits { pattern.width ≤ 4 * digits }
        requires room { length self.old + digits ≤ 65536 }
        ensures appends { self.new ≡ self.old ++ hex_digits digits pattern.raw }
        ensures count { length self.new ≡ length self.old + digits }
    {
        let mut left = digits;
        while left > 0 {
            left -= 1;
            self.bytes.push(digit_at(pattern.raw, left)).unwrap();
        }
    }

    /// Writes the bytes to the sink and empties the buffer. After an `Err` a front of them was written and the buffer is
    /// as before.
    pub fn flush<S: Sink>(&mut self, sink: &mut S) -> Result<(), WriteErr>
        ensures ok { OnOk result (Appends (S.written sink.old) (S.written sink.new) self.old) }
        ensures empty { OnOk result (self.new ≡ []) }
        ensures front { OnErr result (AppendsFront (S.written sink.old) (S.written sink.new) self.old) }
        ensures stays { OnErr result (self.new ≡ self.old) }
        ensures fault { OnErr result (Rose (S.faults sink.old) (S.faults sink.new)) }
        ensures never_fell { S.faults sink.old ≤ S.faults sink.new }
    {
        write_all(sink, self.bytes.as_slice())?;
        self.bytes.clear();
        Ok(())
    }
}
