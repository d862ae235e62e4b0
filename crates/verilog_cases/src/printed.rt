ghost use Rattle.std.specs.Prelude.{◌≡◌, length};

use crate::nets::{every_form, far, sum};
use ix_bits::{List, Memory};
use ix_net::{Net, is_valid};
use ix_vprint::print;
use std::alloc::{AllocError, Global};

/// The text of a net, where it is valid.
fn text(alloc: Global, nets: &[Net]) -> Result<Option<List<u8>>, Memory>
    requires { length nets.now ≡ 1 }
{
    if !is_valid(alloc, &nets[0])? {
        return Ok(None);
    }
    Ok(Some(print(alloc, nets)?))
}

/// Puts the text of a net.
fn put_net(out: &mut String, alloc: Global, net: Result<Net, Memory>) -> Result<(), AllocError> {
    let Ok(net) = net else {
        return out.push_str("no memory\n");
    };
    match text(alloc, &[net]) {
        Ok(Some(bytes)) => out.push_str(str::from_utf8(bytes.as_slice()).unwrap_or("no text\n")),
        Ok(None) => out.push_str("not valid\n"),
        Err(_) => out.push_str("no memory\n"),
    }
}

/// Puts the text of the net that a name stands for.
pub fn put_printed(out: &mut String, alloc: Global, name: &[u8]) -> Result<(), AllocError> {
    match str::from_utf8(name).unwrap_or("") {
        "sum" => put_net(out, alloc, sum(alloc)),
        "wide 1" => put_net(out, alloc, every_form(alloc, "wide_1", 1)),
        "wide 128" => put_net(out, alloc, every_form(alloc, "wide_128", 128)),
        _ => out.push_str("no such net\n"),
    }
}

/// The length of the text of a chain of so many cells, where it is valid.
fn chain_length(alloc: Global, count: u32) -> Result<Option<usize>, Memory> {
    let net = far(alloc, count)?;
    match text(alloc, &[net])? {
        Some(bytes) => Ok(Some(bytes.len())),
        None => Ok(None),
    }
}

/// Puts the length of the text of a chain of so many cells.
pub fn put_chain(out: &mut String, alloc: Global, count: &[u8]) -> Result<(), AllocError> {
    let Ok(count) = str::from_utf8(count).unwrap_or("").parse::<u32>() else {
        return out.push_str("no count\n");
    };
    match chain_length(alloc, count) {
        Ok(Some(length)) => write!(out, "{length}\n"),
        Ok(None) => out.push_str("not valid\n"),
        Err(_) => out.push_str("no memory\n"),
    }
}
