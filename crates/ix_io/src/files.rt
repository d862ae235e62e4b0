ghost use Rattle.std.specs.Prelude.{◌≡◌, ◌-◌, length, min, take, drop, option_copied};
ghost use Rattle.ix_io.specs.Shelf.{file_named};

use ix_bits::{List, Name};

// The file of that name, the first of several.
pub(crate) fn find<'a>(files: &'a [(Name, List<u8>)], name: &str) -> Option<&'a [u8]>
    ensures { option_copied result ≡ file_named files.now name.now }
{
    for file in files {
        if name == file.0.as_str() {
            return Some(file.1.as_slice());
        }
    }
    None
}

// Copies bytes of the file from a place on to the front of the slice, at most so many, and answers their count.
pub(crate) fn place(file: &[u8], from: u64, most: usize, into: &mut [u8]) -> usize
    ensures count { result ≡ min (min (length file.now - from) (length into.old)) most }
    ensures bytes { take result into.new ≡ take result (drop from file.now) }
{
    if file.len() as u64 <= from {
        return 0;
    }
    let rest = &file[from as usize..];
    let count = rest.len().min(into.len()).min(most);
    into[..count].copy_from_slice(&rest[..count]);
    count
}
