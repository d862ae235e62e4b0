use ix_sheet::{Sheet, SheetErr, read_sheet};
use std::alloc::{AllocError, Global};

/// Puts what a datasheet says.
fn put_sheet(out: &mut String, sheet: &Sheet) -> Result<(), AllocError> {
    write!(out, "{} {}", sheet.shape.stages, sheet.period)?;
    if sheet.shape.forward {
        out.push_str(" forward")?;
    }
    if sheet.weighted {
        out.push_str(" width")?;
    }
    for (kind, delay) in sheet.delay.iter().enumerate() {
        if *delay > 0 {
            write!(out, " {kind}:{delay}")?;
        }
    }
    put_windows(out, &sheet.window)
}

/// Puts windows, each as `FIRST-LAST`.
fn put_windows(out: &mut String, windows: &[(u8, u8)]) -> Result<(), AllocError> {
    for (first, last) in windows.iter() {
        write!(out, " {first}-{last}")?;
    }
    out.push_str("\n")
}

/// Puts why a text is no datasheet.
fn put_refusal(out: &mut String, error: &SheetErr) -> Result<(), AllocError> {
    let (kind, name) = match error {
        SheetErr::Utf8 => ("Utf8", "-"),
        SheetErr::Toml => ("Toml", "-"),
        SheetErr::Key { name } => ("Key", name.as_str()),
        SheetErr::Kind { name } => ("Kind", name.as_str()),
        SheetErr::Core => ("Core", "core"),
        SheetErr::Window { op } => ("Window", op.as_str()),
        SheetErr::Number { name } => ("Number", name.as_str()),
        SheetErr::Memory => ("Memory", ""),
    };
    writeln!(out, "refused {kind} {name}")
}

/// Puts a line of what a datasheet says, its stages, its period, whether its core
/// forwards and lifetimes are weighed by width, the delays that are not 0 by
/// their kind's number, and the ten windows; or the line of its refusal.
pub(crate) fn put_answer(out: &mut String, alloc: Global, text: &[u8]) -> Result<(), AllocError> {
    match read_sheet(alloc, text) {
        Ok(sheet) => put_sheet(out, &sheet),
        Err(error) => put_refusal(out, &error),
    }
}
