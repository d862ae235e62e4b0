ghost use Rattle.std.specs.Prelude.{◌≡◌, ℕ, ◌≤◌, List, Option, Some, None, MatchOption, [], suc, codes};
ghost use Rattle.rv_trace.specs.RowParts.{given};
ghost use Rattle.rv_reader.specs.Words.{behind_in};
ghost use Rattle.rv_reader.specs.Rows.{mark_in, flushed_from, redirected, stop_named, stop_in, marks_in, marks as specified_marks};

use crate::word::{address, behind, is, serial, split};
use rv_seq::Stop;

/// The marks that end the line of a row.
#[derive(Clone, Copy)]
pub struct Marks {
    pub retired: Option<u32>,
    pub written: Option<u32>,
    pub flushed: [Option<u32>; 5],
    pub redirect: Option<u32>,
    pub stop: Option<Stop>,
}

/// A mark with a serial, where the text begins with its front, and what stands behind it.
fn mark<'a>(text: &'a [u8], front: &[u8]) -> Option<(Option<u32>, &'a [u8])>
    ensures { MatchOption result (mark_in front.now text.now ≡ None) (λ x. mark_in front.now text.now ≡ Some (x.0, x.1.now)) }
{
    let Some(rest) = behind(text, front) else {
        return Some((None, text));
    };
    let (word, left) = split(rest, b' ');
    match serial(word) {
        Some(serial) => Some((Some(serial), left)),
        None => None,
    }
}

/// At most so many flushed serials, ascending, and what stands behind them.
fn flushed(text: &[u8], stages: usize) -> Option<([Option<u32>; 5], &[u8])>
    requires { stages ≤ 5 }
    ensures { MatchOption result (flushed_from stages 0 [] text.now ≡ None) (λ x. flushed_from stages 0 [] text.now ≡ Some (given x.0, x.1.now)) }
{
    let mut found = [None; 5];
    let mut low = 0u64;
    let mut left = text;
    for k in 0..stages {
        let Some(rest) = behind(left, b" f") else {
            return Some((found, left));
        };
        let (word, more) = split(rest, b' ');
        let Some(serial) = serial(word) else {
            return None;
        };
        if (serial as u64) < low {
            return None;
        }
        found[k] = Some(serial);
        low = serial as u64 + 1;
        left = more;
    }
    Some((found, left))
}

/// The address of a redirect, where there is one, and what stands behind it.
fn redirect(text: &[u8]) -> Option<(Option<u32>, &[u8])>
    ensures { MatchOption result (redirected (behind_in (codes " p") text.now) text.now ≡ None) (λ x. redirected (behind_in (codes " p") text.now) text.now ≡ Some (x.0, x.1.now)) }
{
    let Some(rest) = behind(text, b" p") else {
        return Some((None, text));
    };
    let (word, left) = split(rest, b' ');
    match address(word) {
        Some(at) => Some((Some(at), left)),
        None => None,
    }
}

#[tactic(auto, unfolding(crate::specs::Rows::stop_named))]
fn stop_of(word: &[u8]) -> Option<Stop>
    ensures { result ≡ stop_named word.now }
{
    if is(word, b"Ecall") {
        return Some(Stop::Ecall);
    }
    if is(word, b"Ebreak") {
        return Some(Stop::Ebreak);
    }
    if is(word, b"Illegal") {
        return Some(Stop::Illegal);
    }
    if is(word, b"Fetch") {
        return Some(Stop::Fetch);
    }
    if is(word, b"Misaligned") {
        return Some(Stop::Misaligned);
    }
    if is(word, b"DataRange") {
        return Some(Stop::DataRange);
    }
    if is(word, b"Target") {
        return Some(Stop::Target);
    }
    None
}

/// The stop that ends a row's line, where there is one.
fn stop(text: &[u8]) -> Option<Option<Stop>>
    ensures { result ≡ stop_in text.now }
{
    if text.is_empty() {
        return Some(None);
    }
    let Some(word) = behind(text, b" stop ") else {
        return None;
    };
    match stop_of(word) {
        Some(stop) => Some(Some(stop)),
        None => None,
    }
}

/// The marks of a row on a core with so many stages.
#[tactic(auto, unfolding(crate::specs::Rows::marks_in))]
pub fn marks_of(text: &[u8], stages: usize) -> Option<Marks>
    requires { stages ≤ 5 }
    ensures { MatchOption result (marks_in stages text.now ≡ None) (λ m. marks_in stages text.now ≡ Some (specified_marks m.retired m.written (given m.flushed) m.redirect m.stop)) }
{
    let Some((retired, behind_retired)) = mark(text, b" r") else {
        return None;
    };
    let Some((written, behind_written)) = mark(behind_retired, b" w") else {
        return None;
    };
    let Some(found) = flushed(behind_written, stages) else {
        return None;
    };
    let flushed = found.0;
    let Some((redirect, rest)) = redirect(found.1) else {
        return None;
    };
    let Some(stop) = stop(rest) else {
        return None;
    };
    Some(Marks {
        retired,
        written,
        flushed,
        redirect,
        stop,
    })
}
