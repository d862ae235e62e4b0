ghost use Rattle.std.specs.Prelude.{◌≡◌, ℕ, ◌≤◌, List, Option, Some, None, MatchOption, [], take};
ghost use Rattle.rv_reader.specs.Rows.{held_in, cell_in, cells_from, row_in, read_row};

use crate::hold::hold;
use crate::mark::marks_of;
use crate::word::{address, behind, is, serial, split};
use rv_shown::{ShownCell, ShownRow, Span};
use rv_trace::Hold;

/// Nothing, or the hold behind a stroke.
#[tactic(auto, unfolding(crate::specs::Rows::held_in))]
fn held(text: &[u8], count: usize) -> Option<Option<Hold>>
    ensures { result ≡ held_in count text.now }
{
    if text.is_empty() {
        return Some(None);
    }
    let Some(word) = behind(text, b"/") else {
        return None;
    };
    match hold(word, count) {
        Some(hold) => Some(Some(hold)),
        None => None,
    }
}

/// The cell that a word shows; `-` is an empty stage.
#[tactic(auto, unfolding(crate::specs::Rows::cell_in))]
fn cell(word: &[u8], count: usize) -> Option<Option<ShownCell>>
    ensures { result ≡ cell_in count word.now }
{
    if is(word, b"-") {
        return Some(None);
    }
    let (digits, behind_serial) = split(word, b'@');
    let Some(serial) = serial(digits) else {
        return None;
    };
    let Some(rest) = behind(behind_serial, b"@") else {
        return None;
    };
    let (digits, behind_at) = split(rest, b'/');
    let Some(at) = address(digits) else {
        return None;
    };
    match held(behind_at, count) {
        Some(hold) => Some(Some(ShownCell { serial, at, hold })),
        None => None,
    }
}

/// The cells of so many stages, and what stands behind them.
fn cells(text: &[u8], count: usize, stages: usize) -> Option<([Option<ShownCell>; 5], &[u8])>
    requires { stages ≤ 5 }
    ensures { MatchOption result (cells_from count stages [] text.now ≡ None) (λ x. cells_from count stages [] text.now ≡ Some (take stages x.0, x.1.now)) }
{
    let mut cells = [None; 5];
    let mut left = text;
    for k in 0..stages {
        let Some(rest) = behind(left, b" ") else {
            return None;
        };
        let (word, more) = split(rest, b' ');
        let Some(found) = cell(word, count) else {
            return None;
        };
        cells[k] = found;
        left = more;
    }
    Some((cells, left))
}

/// The row with this number that a line shows, without the lines behind its own.
#[tactic(auto, unfolding(crate::specs::Rows::row_in))]
pub fn row(line: &[u8], count: usize, stages: usize, number: u32) -> Option<ShownRow>
    requires { stages ≤ 5 }
    ensures { MatchOption result (row_in count stages number line.now ≡ None) (λ row. row_in count stages number line.now ≡ Some (read_row stages row)) }
{
    let (digits, behind_number) = split(line, b' ');
    let Some(told) = serial(digits) else {
        return None;
    };
    if told != number {
        return None;
    }
    let Some(found) = cells(behind_number, count, stages) else {
        return None;
    };
    let cells = found.0;
    let Some(marks) = marks_of(found.1, stages) else {
        return None;
    };
    let flushed = marks.flushed;
    Some(ShownRow {
        cells,
        retired: marks.retired,
        written: marks.written,
        flushed,
        redirect: marks.redirect,
        stop: marks.stop,
        retired_line: Span { start: 0, end: 0 },
        written_line: Span { start: 0, end: 0 },
    })
}
