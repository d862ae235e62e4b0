ghost use Rattle.std.specs.Prelude.{◌<◌, ◌^◌, length};

use ix_bits::Memory;
use ix_elab::elaborate;
use ix_listing::{listing, refusal};
use std::alloc::{AllocError, Global};

/// The listing of a text's extension, or the line of its refusal, where there is memory.
fn lines_of(alloc: Global, bytes: &[u8]) -> Result<String, Memory>
    requires { length bytes.now < 2 ^ 32 }
{
    match elaborate(alloc, bytes) {
        Ok(extension) => listing(alloc, &extension),
        Err(error) => refusal(alloc, &error),
    }
}

/// Puts the listing of a text's extension, or why it has none.
///
/// A listing is `set NAME`, then `register cK NAME TYPE`, `table NAME TYPE LENGTH`,
/// `instruction NAME mask M match M` with its `piece FIELD HI LO at BIT`, and `block NAME`, each
/// on a line of its own, in the order of the source. A refusal is a line
/// `refused Extension KIND ..` with a span, names or a word behind it.
pub(crate) fn put_answer(out: &mut String, alloc: Global, bytes: &[u8]) -> Result<(), AllocError>
    requires { length bytes.now < 2 ^ 32 }
{
    match lines_of(alloc, bytes) {
        Ok(lines) => out.push_str(lines.as_str()),
        Err(Memory) => out.push_str("Memory\n"),
    }
}
