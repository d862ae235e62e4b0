ghost use Rattle.std.specs.Prelude.{◌≡◌, ◌≤◌, ◌<◌, ◌+◌, length, drop, All, MatchOption};
ghost use Rattle.rv_reader.specs.Words.{Free};
ghost use Rattle.rv_reader.specs.Forms.{IsRetiredLine, IsWrittenLine};
ghost use Rattle.rv_reader.specs.Traces.{IsLineAt, IsSpanAt, HasNoLine};

use crate::word::split;
use crate::write::{is_retired_line, is_written_line};
use rv_shown::Span;

/// The line that begins at this byte, where a line feed ends it.
pub fn line_at(text: &[u8], at: usize) -> Option<&[u8]>
    requires { at ≤ length text.now }
    ensures { MatchOption result (Free 10 (drop at text.now)) (λ line. IsLineAt text.now at line.now) }
{
    let (line, rest) = split(&text[at..], b'\n');
    if rest.is_empty() { None } else { Some(line) }
}

/// Where the line of a retirement stands that begins at this byte, if one has to stand there.
pub fn retired_at(text: &[u8], at: usize, wanted: bool, widths: &[u8]) -> Option<Span>
    requires within { at ≤ length text.now }
    requires few { length widths.now ≤ 255 }
    requires narrow { All (λ w. w ≤ 128) widths.now }
    ensures { MatchOption result (HasNoLine (IsRetiredLine widths.now) wanted text.now at) (λ span. IsSpanAt (IsRetiredLine widths.now) wanted text.now at span) }
{
    if !wanted {
        return Some(Span { start: at, end: at });
    }
    let Some(line) = line_at(text, at) else {
        return None;
    };
    if !is_retired_line(line, widths) {
        return None;
    }
    Some(Span {
        start: at,
        end: at + line.len() + 1,
    })
}

/// Where the line of outstanding writes stands that begins at this byte, if one has to stand there.
pub fn written_at(text: &[u8], at: usize, wanted: bool, widths: &[u8]) -> Option<Span>
    requires within { at ≤ length text.now }
    requires few { length widths.now ≤ 255 }
    requires narrow { All (λ w. w ≤ 128) widths.now }
    ensures { MatchOption result (HasNoLine (IsWrittenLine widths.now) wanted text.now at) (λ span. IsSpanAt (IsWrittenLine widths.now) wanted text.now at span) }
{
    if !wanted {
        return Some(Span { start: at, end: at });
    }
    let Some(line) = line_at(text, at) else {
        return None;
    };
    if !is_written_line(line, widths) {
        return None;
    }
    Some(Span {
        start: at,
        end: at + line.len() + 1,
    })
}
