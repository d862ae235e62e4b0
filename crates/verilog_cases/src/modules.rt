ghost use Rattle.ix_verilog.specs.Subset.{Denotes};

use crate::words::TOO_MANY;
use ix_bits::Memory;
use ix_net::Net;
use ix_vprint::print;
use ix_vread::{VErr, read};
use std::alloc::{AllocError, Global};

/// Whether the nets of a text are printed as it.
fn is_printed(alloc: Global, text: &[u8], nets: &[Net]) -> Result<bool, Memory>
    requires { Denotes text.now nets.now }
{
    let printed = print(alloc, nets)?;
    Ok(printed.as_slice() == text)
}

/// The count of the nets of a text, and whether they are printed as it.
fn count(alloc: Global, text: &[u8]) -> Result<(usize, bool), VErr> {
    if text.len() >= TOO_MANY {
        return Err(VErr::Memory);
    }
    match read(alloc, text) {
        Ok(nets) => match is_printed(alloc, text, nets.as_slice()) {
            Ok(same) => Ok((nets.len(), same)),
            Err(_) => Err(VErr::Memory),
        },
        Err(error) => Err(error),
    }
}

/// How many proper prefixes of a text are refused.
fn refused_prefixes(alloc: Global, text: &[u8]) -> usize {
    let mut refused = 0;
    for length in 0..text.len() {
        if count(alloc, &text[..length]).is_err() {
            refused += 1;
        }
    }
    refused
}

/// Puts the count of the nets of a text, and whether they are printed as it, or why it is refused.
pub fn put_read(out: &mut String, alloc: Global, text: &[u8]) -> Result<(), AllocError> {
    match count(alloc, text) {
        Ok((count, true)) => write!(out, "nets {count} as printed\n"),
        Ok((count, false)) => write!(out, "nets {count}\n"),
        Err(VErr::At { byte }) => write!(out, "at {byte}\n"),
        Err(VErr::Width { line }) => write!(out, "width {line}\n"),
        Err(VErr::Loop { name }) => write!(out, "loop {}\n", name.as_str()),
        Err(VErr::Twice { name }) => write!(out, "twice {}\n", name.as_str()),
        Err(VErr::Memory) => out.push_str("no memory\n"),
    }
}

/// Puts how many proper prefixes of a text are refused.
pub fn put_prefixes(out: &mut String, alloc: Global, text: &[u8]) -> Result<(), AllocError> {
    let refused = refused_prefixes(alloc, text);
    write!(out, "refused prefixes {refused} of {}\n", text.len())
}
