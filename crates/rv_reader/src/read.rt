ghost use Rattle.std.specs.Prelude.{◌≡◌, ◌≢◌, ◌≤◌, ◌<◌, ◌+◌, ◌^◌, ℕ, List, [], length, drop, map, codes, All, IfOk, IfErr};
ghost use Rattle.rv_shown.specs.Shown.{Shown, shown_in, shown_texts};
ghost use Rattle.rv_reader.specs.Words.{until};
ghost use Rattle.rv_reader.specs.Forms.{IsWord};
ghost use Rattle.rv_reader.specs.Traces.{IsReadTo, IsRowAt, IsBadLine, IsState, IsTrace, AreRows, HasNoState, IsStateAt, lines_of, bit, AreGroupsFrom, IsBadGroup, IsRest, IsBadRest, line_numbers, line_behind};
ghost use Rattle.rv_reader.specs.ReadTexts.{AreRowsRead, TellsBadLine, IsRefused};
ghost use Rattle.rv_reader.specs.declared.read.ReadErr.TheVariants as err;

use crate::lines::{line_at, retired_at, written_at};
use crate::row::row;
use crate::state::{group_of, is_in_group, is_pc_line};
use crate::word::is;
use ix_bits::{List, Memory};
use rv_shown::ShownRow;
use std::alloc::Global;

/// Why a text is not that of a trace.
#[derive(Clone, Copy, Debug, PartialEq, Eq)]
pub enum ReadErr {
    /// The number, from 1, of the first line that fits no form in its place, or of the place behind
    /// the last.
    Line { line: u32 },
    Memory,
}

/// What was read of the text of a trace.
#[derive(Drop)]
pub struct TraceRead {
    pub rows: List<ShownRow>,
    /// The number, from 1, of the line of each row.
    pub lines: List<u32>,
    /// The byte at which the state begins, and the number of its line.
    pub state: usize,
    pub state_line: u32,
}

/// One for a line that stands there, and else nothing.
fn bit_of(told: bool) -> u32
    ensures { result ≡ bit told }
{
    if told { 1 } else { 0 }
}

/// The lines of a row: its own, and those behind it.
fn count_of(row: &ShownRow) -> u32
    ensures { result ≡ lines_of row.now }
{
    1 + bit_of(row.retired.is_some()) + bit_of(row.written.is_some())
}

/// The row with this number, whose lines begin at this byte; the first has this number.
fn row_at(
    text: &[u8],
    at: usize,
    line: u32,
    number: u32,
    stages: usize,
    widths: &[u8],
) -> Result<ShownRow, u32>
    requires within { at ≤ length text.now }
    requires stages { stages ≤ 5 }
    requires few { length widths.now ≤ 255 }
    requires narrow { All (λ w. w ≤ 128) widths.now }
    requires small { line ≤ 2147483649 }
    ensures read { IfOk result (λ row. IsRowAt widths.now stages number text.now at row) }
    ensures refused { IfErr result (λ n. (rows : List Shown) → IsReadTo widths.now stages text.now at line rows → length rows ≡ number → HasNoState text.now at → IsBadLine widths.now stages text.now n) }
{
    let Some(own) = line_at(text, at) else {
        return Err(line);
    };
    let Some(found) = row(own, widths.len(), stages, number) else {
        return Err(line);
    };
    let mut row = found;
    let retires = row.retired.is_some();
    let writes = row.written.is_some();
    let Some(retired) = retired_at(text, at + own.len() + 1, retires, widths) else {
        return Err(line + 1);
    };
    let Some(written) = written_at(text, retired.end, writes, widths) else {
        return Err(line + 1 + bit_of(retires));
    };
    row.retired_line = retired;
    row.written_line = written;
    Ok(row)
}

/// Whether the line that begins at this byte says that a state follows.
fn is_state_at(text: &[u8], at: usize) -> bool
    requires { at ≤ length text.now }
    ensures { IsStateAt result text.now at }
{
    match line_at(text, at) {
        Some(line) => is(line, b"state"),
        None => false,
    }
}

/// Reads the lines of a state behind its pc, from this byte on; the first has this number.
fn read_groups(text: &[u8], start: usize, first: u32, widths: &[u8]) -> Result<(), u32>
    requires within { start ≤ length text.now }
    requires narrow { All (λ w. w ≤ 128) widths.now }
    requires small { first ≤ start + 1 }
    requires short { length text.now ≤ 2147483648 }
    ensures read { IfOk result (λ x. AreGroupsFrom widths.now text.now start) }
    ensures refused { IfErr result (λ n. IsBadGroup widths.now text.now start first n) }
{
    let mut at = start;
    let mut line = first;
    let mut low = 1u8;
    while at < text.len() {
        let Some(own) = line_at(text, at) else {
            return Err(line);
        };
        let group = group_of(own);
        if group < low {
            return Err(line);
        }
        if !is_in_group(own, group, widths) {
            return Err(line);
        }
        low = group;
        at = at + own.len() + 1;
        line += 1;
    }
    Ok(())
}

/// Reads the lines of a state behind the first, from this byte on; the first of them has this
/// number.
fn read_state(text: &[u8], at: usize, line: u32, widths: &[u8]) -> Result<(), u32>
    requires within { at ≤ length text.now }
    requires narrow { All (λ w. w ≤ 128) widths.now }
    requires small { line ≤ at + 1 }
    requires short { length text.now ≤ 2147483648 }
    ensures read { IfOk result (λ x. IsRest widths.now (drop at text.now)) }
    ensures refused { IfErr result (λ n. IsBadRest widths.now text.now at line n) }
{
    let Some(pc) = line_at(text, at) else {
        return Err(line);
    };
    if !is_pc_line(pc) {
        return Err(line);
    }
    read_groups(text, at + pc.len() + 1, line + 1, widths)
}

/// Reads rows up to the line `state`.
fn read_rows(alloc: Global, text: &[u8], stages: usize, widths: &[u8]) -> Result<TraceRead, ReadErr>
    requires stages { stages ≤ 5 }
    requires few { length widths.now ≤ 255 }
    requires narrow { All (λ w. w ≤ 128) widths.now }
    requires short { length text.now ≤ 2147483648 }
    ensures read { IfOk result (λ x. AreRowsRead widths.now stages text.now x) }
    ensures refused { IfErr result (TellsBadLine widths.now stages text.now) }
{
    let mut rows = List::new(alloc);
    let mut lines = List::new(alloc);
    let mut at = 0usize;
    let mut line = 1u32;
    let mut ended = is_state_at(text, at);
    while !ended {
        let number = rows.len() as u32;
        match row_at(text, at, line, number, stages, widths) {
            Ok(row) => {
                let (Ok(()), Ok(())) = (rows.push(row), lines.push(line)) else {
                    return Err(ReadErr::Memory);
                };
                at = row.written_line.end;
                line += count_of(&row);
            }
            Err(bad) => return Err(ReadErr::Line { line: bad }),
        }
        ended = is_state_at(text, at);
    }
    Ok(TraceRead {
        rows,
        lines,
        state: at,
        state_line: line,
    })
}

/// Reads the text of a trace, or tells its first bad line.
fn read_text(alloc: Global, text: &[u8], stages: usize, widths: &[u8]) -> Result<TraceRead, ReadErr>
    requires stages { stages ≤ 5 }
    requires few { length widths.now ≤ 255 }
    requires narrow { All (λ w. w ≤ 128) widths.now }
    requires short { length text.now ≤ 2147483648 }
    ensures read { IfOk result (λ x. IsTrace widths.now stages text.now (map (shown_in stages text.now) x.rows) (drop x.state text.now)) }
    ensures lines { IfOk result (λ x. x.lines ≡ line_numbers 1 x.rows) }
    ensures state_line { IfOk result (λ x. x.state_line ≡ line_behind 1 x.rows) }
    ensures refused { IfErr result (TellsBadLine widths.now stages text.now) }
{
    let read = match read_rows(alloc, text, stages, widths) {
        Ok(read) => read,
        Err(error) => return Err(error),
    };
    match read_state(text, read.state + 6, read.state_line + 1, widths) {
        Ok(()) => Ok(read),
        Err(line) => {
            drop(read);
            Err(ReadErr::Line { line })
        }
    }
}

/// Reads the text of a trace on a core with so many stages, whose custom registers have these
/// widths. A text of at most 2^31 bytes that is none is refused with `Line`, at the first line that
/// fits no form in its place or is missing; no other error comes but `Memory`.
pub fn read_trace(
    alloc: Global,
    text: &[u8],
    stages: usize,
    widths: &[u8],
) -> Result<TraceRead, ReadErr>
    requires stages { stages ≤ 5 }
    requires few { length widths.now ≤ 255 }
    requires narrow { All (λ w. w ≤ 128) widths.now }
    requires short { length text.now ≤ 2147483648 }
    ensures read { IfOk result (λ x. IsTrace widths.now stages text.now (map (shown_in stages text.now) x.rows) (drop x.state text.now)) }
    ensures one { IfOk result (λ x. (rows : List Shown) (state : List ℕ) → IsTrace widths.now stages text.now rows state → rows ≡ map (shown_in stages text.now) x.rows) }
    ensures lines { IfOk result (λ x. x.lines ≡ line_numbers 1 x.rows) }
    ensures state_line { IfOk result (λ x. x.state_line ≡ line_behind 1 x.rows) }
    ensures only { (rows : List Shown) (state : List ℕ) → IsTrace widths.now stages text.now rows state → IfErr result (λ e. e ≡ err.Memory) }
    ensures refused { IfErr result (TellsBadLine widths.now stages text.now) }
    ensures refuses { (n : ℕ) → IsBadLine widths.now stages text.now n → IsRefused n result }
{
    match read_text(alloc, text, stages, widths) {
        Ok(read) => Ok(read),
        Err(error) => Err(error),
    }
}
