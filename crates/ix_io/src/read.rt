ghost use Rattle.std.specs.Prelude.{◌≡◌, ◌<◌, ◌≤◌, length, IfOk, IfSome, IsErrOf};
ghost use Rattle.ix_io.specs.Limits.{most_bytes};
ghost use Rattle.ix_io.specs.Faults.{NoneFell, Rose};
ghost use Rattle.ix_io.specs.Shelf.{told_file};

use crate::{Failed, Shelf};
use ix_bits::List;
use std::alloc::{AllocError, Global};
use thiserror::Error;

/// The greatest length of a file, in bytes.
pub const MOST_BYTES: usize = 1_048_576;

/// The count of bytes that one turn asks for.
const PIECE: usize = 65_536;

/// Why a file was not read whole.
#[derive(Debug, Drop, Error, PartialEq, Eq)]
pub enum ReadErr {
    /// The shelf failed, as its count of faults for that name shows.
    #[error("the file could not be read")]
    Fault,
    /// The file has more than 1,048,576 bytes.
    #[error("the file has more than 1048576 bytes")]
    TooLong,
    /// Memory was not found.
    #[error("out of memory")]
    Memory,
}

fn zeros(alloc: Global, count: usize) -> Result<Vec<u8>, AllocError>
    ensures { IfOk result (λ zeros. length zeros.items ≡ count) }
{
    let mut zeros = Vec::new(alloc);
    zeros.resize(count, 0)?;
    Ok(zeros)
}

/// Reads a file of at most 1,048,576 bytes whole.
pub fn read_all<F: Shelf>(alloc: Global, shelf: &mut F, name: &str) -> Result<List<u8>, ReadErr>
    ensures whole { IfOk result (λ bytes. IfSome (told_file (F.files shelf.old) name.now) (λ file. bytes ≡ file)) }
    ensures short { IfOk result (λ bytes. length bytes ≤ most_bytes) }
    ensures too_long { IsErrOf result ReadErr.TooLong →
        IfSome (told_file (F.files shelf.old) name.now) (λ file. most_bytes < length file) }
    ensures fault { IsErrOf result ReadErr.Fault → Rose (F.faults shelf.old name.now) (F.faults shelf.new name.now) }

    // Whatever the answer.
    ensures kept { F.files shelf.new ≡ F.files shelf.old }
    ensures none_fell { NoneFell (F.faults shelf.old) (F.faults shelf.new) }
{
    let Ok(mut space) = zeros(alloc, PIECE) else {
        return Err(ReadErr::Memory);
    };
    let piece = space.as_mut_slice();
    let mut bytes = Vec::new(alloc);
    while bytes.len() <= MOST_BYTES {
        match shelf.read_part(name, bytes.len() as u64, piece) {
            Ok(0) => return Ok(List::from_vec(bytes)),
            Ok(count) => {
                if bytes.extend_from_slice(&piece[..count]).is_err() {
                    return Err(ReadErr::Memory);
                }
            }
            Err(Failed) => return Err(ReadErr::Fault),
        }
    }
    Err(ReadErr::TooLong)
}
