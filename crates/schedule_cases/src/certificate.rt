ghost use Rattle.std.specs.Prelude.{◌<◌, ◌^◌, length};

use ix_cert::certify;
use std::alloc::{AllocError, Global};

/// Puts the line `yes` where the certificate of a report holds, or the line of the report that is
/// refused and why.
pub(crate) fn put_answer(out: &mut String, alloc: Global, text: &[u8]) -> Result<(), AllocError>
    requires { length text.now < 2 ^ 32 }
{
    match certify(alloc, text) {
        Ok(()) => out.push_str("yes\n"),
        Err(error) => {
            let line = error.line();
            let kind = error.kind();
            writeln!(out, "{line} {kind}")
        }
    }
}
