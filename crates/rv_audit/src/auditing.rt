ghost use Rattle.std.specs.Prelude.{◌≡◌, ◌≤◌, ◌<◌, ◌+◌, ◌^◌, ℕ, List, [], Some, length, drop, slice_get, IfOk, IfErr, OnOk};
ghost use Rattle.ix_extension.specs.Extensions.{view_extension};
ghost use Rattle.ix_standing.specs.Standing.{Stands};
ghost use Rattle.ix_eval.specs.Scratches.{IsScratchOf};
ghost use Rattle.rv_watch.specs.Printed.{widths_of, AreGiven};
ghost use Rattle.rv_watch.specs.Audited.{IsAudited};
ghost use Rattle.rv_watch.specs.AuditLaws.{IsRight};
ghost use Rattle.rv_watch.specs.Watched.{tree_of, IsFitting, IsWatched};
ghost use Rattle.rv_audit.specs.declared.auditing.AuditErr.{AuditErr as AuditErrValue};
ghost use Rattle.rv_audit.specs.declared.auditing.AuditErr.TheVariants as err;
ghost use Rattle.rv_audit.specs.declared.judging.Fault.TheVariants as wrong;
ghost use Rattle.rv_audit.specs.Refused.{IsFault, TellsFault, IsRefusedFor, unread as specified_unread, refused_for, IsReadOf, AreRightTo};

use crate::judging::{Fault, judge};
use ix_behaviour::behaviour_laws;
use ix_bits::{List, Memory};
use ix_eval::Scratch;
use ix_plan::Design;
use ix_tree::Extension;
use rv_asks::asking_of;
use rv_ending::differing_line;
use rv_isa::Image;
use rv_past::Page;
use rv_reader::{ReadErr, TraceRead, read_trace};
use rv_shown::ShownRow;
use rv_sight::sight_laws;
use rv_waits::Waits;
use rv_watch::{Against, Watch, audit_laws, settings_fit};
use std::alloc::Global;

/// Why a text is not that of a lawful run: the number, from 1, of the first line that is not right,
/// and in what respect.
#[derive(Clone, Copy, Debug, PartialEq, Eq)]
pub enum AuditErr {
    /// The line fits no form in its place, or is missing.
    Line { line: u32 },
    /// A cell does not stand where the row before puts it, is both flushed and held, or does not
    /// retire where it leaves.
    Moves { line: u32 },
    /// A cell does not show the first hold that is true of it.
    Hold { line: u32 },
    /// What is fetched is not what the run fetches there.
    Fetch { line: u32 },
    /// What is flushed, or the address that is named, is not what settled successors ask for.
    Successor { line: u32 },
    /// Another serial is written than the one that is due in a unit.
    Unit { line: u32 },
    /// There is a stop where none is due, none where one is, or a row behind a stop.
    Stop { line: u32 },
    /// The line of what retires is not that of the next record of the run.
    Commit { line: u32 },
    /// The line of outstanding writes is not that of what the run writes.
    Write { line: u32 },
    /// The line of the state is not that of the state behind the rows.
    State { line: u32 },
    /// The memory does not suffice.
    Memory,
}

// The widths of the custom registers, in bits.
fn widths(alloc: Global, ext: &Extension) -> Result<List<u8>, Memory>
    ensures { IfOk result (λ all. all ≡ widths_of (view_extension ext.now)) }
{
    let mut all = List::new(alloc);
    let registers = ext.registers.as_slice();
    for register in registers {
        all.push(register.ty.width)?;
    }
    Ok(all)
}

// The error for what is not read.
fn unread(error: ReadErr) -> AuditErr
    ensures { result ≡ specified_unread error }
{
    match error {
        ReadErr::Line { line } => AuditErr::Line { line },
        ReadErr::Memory => AuditErr::Memory,
    }
}

// The line of the writes of a row whose line has this number.
fn behind_retired(line: u32, retired: Option<u32>) -> AuditErr
    requires { line + 2 < 2 ^ 32 }
    ensures { result ≡ refused_for wrong.Write line retired }
{
    match retired {
        None => AuditErr::Write { line: line + 1 },
        Some(_) => AuditErr::Write { line: line + 2 },
    }
}

// The error for a fault of the row whose line has this number, and which retires this.
fn refused(fault: Fault, line: u32, retired: Option<u32>) -> AuditErr
    requires { line + 2 < 2 ^ 32 }
    ensures { result ≡ refused_for fault line retired }
{
    match fault {
        Fault::Moves => AuditErr::Moves { line },
        Fault::Hold => AuditErr::Hold { line },
        Fault::Fetch => AuditErr::Fetch { line },
        Fault::Successor => AuditErr::Successor { line },
        Fault::Unit => AuditErr::Unit { line },
        Fault::Stop => AuditErr::Stop { line },
        Fault::Commit => AuditErr::Commit { line: line + 1 },
        Fault::Write => behind_retired(line, retired),
    }
}

// What was read of a row.
fn row_at(read: &TraceRead, at: usize) -> ShownRow
    requires { at < length read.now.rows }
    ensures { slice_get read.now.rows at ≡ Some result }
{
    read.rows.as_slice()[at]
}

// The number of the line of a row.
fn line_at(read: &TraceRead, at: usize) -> u32
    requires { at < length read.now.lines }
    ensures { slice_get read.now.lines at ≡ Some result }
{
    read.lines.as_slice()[at]
}

// The text from this byte on.
fn rest(text: &[u8], from: usize) -> &[u8]
    requires { from ≤ length text.now }
    ensures { result.now ≡ drop from text.now }
{
    &text[from..]
}

// One row more.
fn one_row(
    against: &Against,
    text: &[u8],
    read: &TraceRead,
    at: usize,
    watch: &mut Watch,
    page: &mut Page,
    scratch: &mut Scratch,
) -> Result<(), AuditErr>
    requires fits { IsFitting against.now }
    requires scratch { IsScratchOf (tree_of against.now) scratch.old }
    requires short { length text.now ≤ 2 ^ 30 }
    requires read { IsReadOf against.now.design.now text.now read.now }
    requires at { at < length read.now.rows }
    requires so_far { AreRightTo against.now text.now read.now.rows at watch.old }
    ensures scratch { IsScratchOf (tree_of against.now) scratch.new }
    ensures right { OnOk result (AreRightTo against.now text.now read.now.rows (at + 1) watch.new) }
    ensures refused { IfErr result (TellsFault against.now.design.now against.now.image.now against.now.waits.now text.now) }
{
    let row = row_at(read, at);
    let line = line_at(read, at);
    match judge(against, text, watch, page, scratch, &row) {
        Err(_) => Err(AuditErr::Memory),
        Ok(None) => Ok(()),
        Ok(Some(fault)) => Err(refused(fault, line, row.retired)),
    }
}

// All rows.
fn rows(
    against: &Against,
    text: &[u8],
    read: &TraceRead,
    watch: &mut Watch,
    page: &mut Page,
    scratch: &mut Scratch,
) -> Result<(), AuditErr>
    requires fits { IsFitting against.now }
    requires scratch { IsScratchOf (tree_of against.now) scratch.old }
    requires short { length text.now ≤ 2 ^ 30 }
    requires read { IsReadOf against.now.design.now text.now read.now }
    requires watched { IsWatched against.now [] watch.old }
    ensures right { OnOk result (AreRightTo against.now text.now read.now.rows (length read.now.rows) watch.new) }
    ensures refused { IfErr result (TellsFault against.now.design.now against.now.image.now against.now.waits.now text.now) }
{
    for at in 0..read.rows.len() {
        match one_row(against, text, read, at, watch, page, scratch) {
            Ok(()) => {}
            Err(error) => return Err(error),
        }
    }
    Ok(())
}

// The state behind the rows.
fn ending(
    alloc: Global,
    against: &Against,
    text: &[u8],
    read: &TraceRead,
    watch: &Watch,
) -> Result<(), AuditErr>
    requires fits { IsFitting against.now }
    requires short { length text.now ≤ 2 ^ 30 }
    requires read { IsReadOf against.now.design.now text.now read.now }
    requires right { AreRightTo against.now text.now read.now.rows (length read.now.rows) watch.now }
    ensures right { IfOk result (λ x. IsRight against.now.design.now against.now.image.now against.now.waits.now text.now) }
    ensures refused { IfErr result (TellsFault against.now.design.now against.now.image.now against.now.waits.now text.now) }
{
    behaviour_laws();
    let state = rest(text, read.state);
    let registers = against.design.extension.registers.len();
    let owed = watch.owing.owed.as_slice();
    match differing_line(
        alloc,
        state,
        read.state_line,
        registers,
        owed,
        &watch.past.arch,
    ) {
        Err(_) => Err(AuditErr::Memory),
        Ok(None) => Ok(()),
        Ok(Some(line)) => Err(AuditErr::State { line }),
    }
}

// The rows and the state of a text that was read.
fn audit_read(
    alloc: Global,
    against: &Against,
    text: &[u8],
    read: &TraceRead,
) -> Result<(), AuditErr>
    requires fits { IsFitting against.now }
    requires short { length text.now ≤ 2 ^ 30 }
    requires read { IsReadOf against.now.design.now text.now read.now }
    ensures right { IfOk result (λ x. IsRight against.now.design.now against.now.image.now against.now.waits.now text.now) }
    ensures refused { IfErr result (TellsFault against.now.design.now against.now.image.now against.now.waits.now text.now) }
{
    let Ok(mut scratch) = Scratch::new(alloc, &against.design.extension) else {
        return Err(AuditErr::Memory);
    };
    let Ok(mut watch) = Watch::new(alloc, against, &mut scratch) else {
        return Err(AuditErr::Memory);
    };
    let Ok(mut page) = Page::new(alloc) else {
        return Err(AuditErr::Memory);
    };
    match rows(against, text, read, &mut watch, &mut page, &mut scratch) {
        Ok(()) => ending(alloc, against, text, read, &watch),
        Err(error) => Err(error),
    }
}

// What is read of a text.
fn read_text(alloc: Global, design: &Design, text: &[u8]) -> Result<TraceRead, AuditErr>
    requires stands { Stands design.now }
    requires short { length text.now ≤ 2 ^ 30 }
    ensures read { IfOk result (λ read. IsReadOf design.now text.now read) }
    ensures refused { IfErr result (λ e. (image waits : List ℕ) → TellsFault design.now image waits text.now e) }
{
    behaviour_laws();
    settings_fit();
    let Ok(widths) = widths(alloc, &design.extension) else {
        return Err(AuditErr::Memory);
    };
    let stages = usize::from(design.sheet.shape.stages);
    match read_trace(alloc, text, stages, widths.as_slice()) {
        Ok(read) => Ok(read),
        Err(error) => Err(unread(error)),
    }
}

// Whether a text is read as rows that are right in each respect, and as the state behind them.
fn audit_text(
    alloc: Global,
    design: &Design,
    image: &Image,
    waits: &Waits,
    bytes: &[u8],
) -> Result<(), AuditErr>
    requires stands { Stands design.now }
    requires short { length bytes.now ≤ 2 ^ 30 }
    ensures right { IfOk result (λ x. IsRight design.now image.now waits.now bytes.now) }
    ensures refused { IfErr result (TellsFault design.now image.now waits.now bytes.now) }
{
    sight_laws();
    let read = match read_text(alloc, design, bytes) {
        Ok(read) => read,
        Err(error) => return Err(error),
    };
    let Ok(asking) = asking_of(alloc, design) else {
        return Err(AuditErr::Memory);
    };
    let against = Against {
        design,
        asking: &asking,
        image: image.as_slice(),
        waits,
    };
    audit_read(alloc, &against, bytes, &read)
}

/// Whether a text of at most 2^30 bytes is that of a lawful run of this image on the core of this
/// design, whose memory has these waits, row by row and with its state. Any other text is refused
/// for the first line that is not right, and in the first respect in which it is not. There is no
/// other error but `Memory`.
pub fn audit(
    alloc: Global,
    design: &Design,
    image: &Image,
    waits: &Waits,
    bytes: &[u8],
) -> Result<(), AuditErr>
    requires stands { Stands design.now }
    requires given { AreGiven image.now waits.now }
    requires short { length bytes.now ≤ 2 ^ 30 }
    ensures audited { IfOk result (λ x. IsAudited design.now image.now waits.now bytes.now) }
    ensures only { IsAudited design.now image.now waits.now bytes.now → IfErr result (λ e. e ≡ err.Memory) }
    ensures refused { IfErr result (TellsFault design.now image.now waits.now bytes.now) }
    ensures refuses { (e : AuditErrValue) → IsFault design.now image.now waits.now bytes.now e → IsRefusedFor e result }
{
    audit_laws();
    match audit_text(alloc, design, image, waits, bytes) {
        Ok(()) => Ok(()),
        Err(error) => Err(error),
    }
}
