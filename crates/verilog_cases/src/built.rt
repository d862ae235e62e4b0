use ix_design::design;
use ix_elab::elaborate;
use ix_modules::modules_text;
use ix_net::{Net, Port};
use ix_schedules::{TextErr, name_law};
use ix_sheet::read_sheet;
use ix_vread::read;
use std::alloc::{AllocError, Global};

/// The byte between the text of an extension and its datasheet.
const MIDDLE: u8 = 31;

/// Past the greatest count of bytes that an extension or a datasheet may have.
const TOO_MANY: usize = 0x10_0001;

/// Past the greatest count of bytes that are read again.
const TOO_LONG: usize = 0x1000_0000;

/// Whether two lists of ports have the same names and widths in the same order.
fn are_same_ports(one: &[Port], other: &[Port]) -> bool {
    if one.len() != other.len() {
        return false;
    }
    for (at, port) in one.iter().enumerate() {
        if port.width != other[at].width || port.name.as_str() != other[at].name.as_str() {
            return false;
        }
    }
    true
}

/// Whether two lists of nets have the same names and ports.
fn have_same_ports(one: &[Net], other: &[Net]) -> bool {
    if one.len() != other.len() {
        return false;
    }
    for (at, net) in one.iter().enumerate() {
        if net.name.as_str() != other[at].name.as_str()
            || !are_same_ports(net.inputs.as_slice(), other[at].inputs.as_slice())
            || !are_same_ports(net.outputs.as_slice(), other[at].outputs.as_slice())
        {
            return false;
        }
    }
    true
}

/// Puts bytes that are a text.
fn put_text(out: &mut String, bytes: &[u8]) -> Result<(), AllocError> {
    out.push_str(str::from_utf8(bytes).unwrap_or("no text\n"))
}

/// Puts a text of modules, and whether it is read as modules with the ports of these nets.
fn put_modules(
    out: &mut String,
    alloc: Global,
    text: &[u8],
    nets: &[Net],
) -> Result<(), AllocError> {
    put_text(out, text)?;
    if text.len() >= TOO_LONG {
        return out.push_str("too long\n");
    }
    match read(alloc, text) {
        Ok(again) => {
            if !have_same_ports(again.as_slice(), nets) {
                out.push_str("ports differ\n")?;
            }
            Ok(())
        }
        Err(_) => out.push_str("not read\n"),
    }
}

/// Puts the modules of an extension, or its refusal.
fn put_design(
    out: &mut String,
    alloc: Global,
    text: &[u8],
    sheet: &[u8],
) -> Result<(), AllocError> {
    if text.len() >= TOO_MANY || sheet.len() >= TOO_MANY {
        return out.push_str("too long\n");
    }
    let Ok(extension) = elaborate(alloc, text) else {
        return out.push_str("no extension\n");
    };
    let Ok(sheet) = read_sheet(alloc, sheet) else {
        return out.push_str("no datasheet\n");
    };
    name_law();
    match modules_text(alloc, &extension, &sheet) {
        Ok(modules) => match design(alloc, extension, sheet) {
            Ok(designed) => {
                put_modules(out, alloc, modules.as_slice(), designed.nets.as_slice())
            }
            Err(_) => out.push_str("no design\n"),
        },
        Err(TextErr::NoSchedule(report)) => put_text(out, report.as_slice()),
        Err(TextErr::TooManyOps(line)) => put_text(out, line.as_slice()),
        Err(TextErr::Memory) => out.push_str("no memory\n"),
    }
}

/// Puts the modules of an extension, or its refusal, from its text, a byte 31 and a datasheet; and
/// a byte 30, since each of both may have many lines.
pub fn put_built(out: &mut String, alloc: Global, case: &[u8]) -> Result<(), AllocError> {
    let mut parts = case.split(|byte| *byte == MIDDLE);
    let text = parts.next().unwrap_or(&[]);
    let sheet = parts.next().unwrap_or(&[]);
    put_design(out, alloc, text, sheet)?;
    out.push_str("\u{1e}")
}
