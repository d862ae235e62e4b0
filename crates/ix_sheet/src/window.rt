ghost use Rattle.std.specs.Prelude.{◌≡◌};
ghost use Rattle.ix_sheet.specs.Behaviours.{latency_of, weight_by, window_of, last_if_tight, window_in};

use crate::sheet::Sheet;
use ix_graph::{Kind, Mode, Op, kind_place};
use rv_core::Shape;

/// The last time that there is.
const LAST: u8 = 64;

/// How many times after its own an operation's result is there: a load's where memory is accessed, any other's at once.
pub fn latency(shape: Shape, kind: &Kind) -> u8
    ensures { result ≡ latency_of shape kind.now }
{
    match kind {
        Kind::RdMem => shape.mem - shape.ex,
        _ => 0,
    }
}

/// What it costs to keep an operation's result for one time, 1 to 128: by a sheet that weighs by width as many as the result
/// has bits, where that of a write has one; else 1.
pub fn weight(sheet: &Sheet, op: &Op) -> u8
    ensures { result ≡ weight_by sheet.now.weighted op.now }
{
    if sheet.weighted { op.ty.width } else { 1 }
}

/// The first and the last time that an operation may have in a mode; the window is empty where the last is before the first.
/// Writes of a `spawn` body come after the last stage, the writes of registers of an instruction that waits there may come
/// up to time 64, and all of a block is in the stage of execute.
pub fn mode_window(sheet: &Sheet, mode: Mode, kind: &Kind, spawned: bool) -> (u8, u8)
    ensures { result ≡ window_in sheet.now mode kind.now spawned }
{
    let (first, last) = sheet_window(sheet, kind);
    match mode {
        Mode::Always => (first.max(sheet.shape.ex), last.min(sheet.shape.ex)),
        _ if spawned => (sheet.shape.stages, LAST),
        Mode::Tight => (first, tight_last(kind, last)),
        Mode::InPipeline | Mode::Decoupled => (first, last),
    }
}

// The window by the sheet alone.
fn sheet_window(sheet: &Sheet, kind: &Kind) -> (u8, u8)
    ensures { result ≡ window_of sheet.now kind.now }
{
    let place = kind_place(kind);
    if place < 10 {
        sheet.window[place as usize]
    } else {
        (sheet.shape.rd, LAST)
    }
}

// The last time of an instruction that waits in the last stage.
fn tight_last(kind: &Kind, last: u8) -> u8
    ensures { result ≡ last_if_tight kind.now last }
{
    match kind {
        Kind::WrRD | Kind::WrPC | Kind::WrCustReg(_) => LAST,
        _ => last,
    }
}
