ghost use Rattle.std.specs.Prelude.{◌≡◌, ℕ, List, [], ◌∷◌, ◌++◌, Some, IfOk, OnOk, IfErr, MatchResult};
ghost use Rattle.rv_asm.specs.LinesText.{row_in as specified_row_in, IsLinesText, IsLinesRefusal, IsRowRefusal};

use crate::image_text::TextErr;
use crate::numbers_text::{decimal_number, parts};
use rv_waits::Lines;
use std::alloc::Global;

/// The row whose number one to six decimal digits write, where it is below 200,000.
fn row_in(word: &[u8]) -> Option<u32>
    ensures { result ≡ specified_row_in word.now }
{
    if word.is_empty() || word.len() > 6 {
        return None;
    }
    match decimal_number(word) {
        Some(row) if row < Lines::END => Some(row),
        _ => None,
    }
}

/// Puts the row that a word writes behind the rows before it, or tells why the word is refused.
fn take_row(lines: &mut Lines, word: &[u8]) -> Result<(), TextErr>
    ensures taken { OnOk result ((row : ℕ) × (specified_row_in word.now ≡ Some row) × (lines.new ≡ lines.old ++ row ∷ [])) }
    ensures refused { IfErr result (IsRowRefusal lines.old word.now) }
{
    let at = lines.len();
    let Some(row) = row_in(word) else {
        return Err(TextErr::At(at));
    };
    if at as usize == Lines::MOST || row < lines.next() {
        return Err(TextErr::At(at));
    }
    match lines.push(row) {
        Ok(()) => Ok(()),
        Err(_) => Err(TextErr::Memory),
    }
}

/// Reads the text of the rows in which an interrupt line is raised: decimal numbers of one to six digits, 0 to 199,999, each greater than
/// the one before, which white space parts. There are at most 4,096 of them. `At` has the number, from 0, of the first word that is none,
/// or of number 4,097.
pub fn read_lines(alloc: Global, bytes: &[u8]) -> Result<Lines, TextErr>
    ensures lines { IfOk result (λ lines. IsLinesText bytes.now lines) }
    ensures refused { IfErr result (IsLinesRefusal bytes.now) }
    ensures again { (lines : List ℕ) → IsLinesText bytes.now lines → MatchResult result (λ read. read ≡ lines) (λ e. e ≡ TextErr.Memory) }
{
    let Ok(parts) = parts(alloc, bytes) else {
        return Err(TextErr::Memory);
    };
    let mut lines = Lines::new(alloc);
    for part in parts.iter() {
        if !part.is_empty() {
            match take_row(&mut lines, part) {
                Ok(()) => {}
                Err(error) => return Err(error),
            }
        }
    }
    Ok(lines)
}
