ghost use Rattle.std.specs.Prelude.{◌≡◌, ◌≤◌, ◌<◌, ◌^◌, replicate, true, IfOk};
ghost use Rattle.rv_memory.specs.Room.{is_inside as specified_is_inside, read, written, size};

use crate::words::{number_of, put_low};
use ix_bits::Memory;
use std::alloc::Global;
use std::marker::Model;

/// The address of the first byte.
pub const BASE: u32 = 0x8000_0000;

/// The count of bytes.
pub const SIZE: u32 = 0x10_0000;

/// The memory of a core. Contracts see the list of its bytes. Only `new` takes memory.
#[derive(Drop)]
pub struct RandomAccess {
    bytes: Vec<u8>,
}

impl Model for RandomAccess {
    ghost use Rattle.std.specs.Prelude.{◌≡◌, ◌^◌, ℕ, List, vec_len};

    ghost Value = { List ℕ };

    ghost view = { λ memory. memory.bytes.items };

    ghost invariant = { λ memory. vec_len memory.bytes ≡ 2 ^ 20 };
}

/// Whether so many bytes from the address on, at most 4, lie in the memory.
pub fn is_inside(at: u32, count: u8) -> bool
    requires { count ≤ 4 }
    ensures { result ≡ specified_is_inside at count }
{
    at >= BASE && at - BASE <= SIZE - u32::from(count)
}

impl RandomAccess {
    /// A memory of zeros.
    pub fn new(alloc: Global) -> Result<RandomAccess, Memory>
        ensures { IfOk result (λ memory. memory ≡ replicate size 0) }
    {
        match vec![in alloc; 0; SIZE as usize] {
            Ok(bytes) => Ok(RandomAccess { bytes }),
            Err(_) => Err(Memory),
        }
    }

    /// The number of so many bytes from the address on, at most 4, the lowest first.
    pub fn read(&self, at: u32, count: u8) -> u32
        requires few { count ≤ 4 }
        requires inside { specified_is_inside at count ≡ true }
        ensures { result ≡ read self.now at count }
    {
        let from = (at - BASE) as usize;
        number_of(&self.bytes[from..from + usize::from(count)])
    }

    /// Stores the low bytes of a number, so many and at most 4, from the address on.
    pub fn write(&mut self, at: u32, count: u8, n: u32)
        requires few { count ≤ 4 }
        requires inside { specified_is_inside at count ≡ true }
        ensures { self.new ≡ written self.old at count n }
    {
        let from = (at - BASE) as usize;
        put_low(&mut self.bytes[from..from + usize::from(count)], n);
    }
}
