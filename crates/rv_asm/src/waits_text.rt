ghost use Rattle.std.specs.Prelude.{◌≡◌, ℕ, List, [], ◌∷◌, ◌++◌, Some, IfOk, OnOk, IfErr, MatchResult};
ghost use Rattle.rv_asm.specs.WaitsText.{wait_in as specified_wait_in, IsWaitsText, IsWaitsRefusal, IsWordRefusal};

use crate::image_text::TextErr;
use crate::numbers_text::{decimal_number, parts};
use rv_waits::Waits;
use std::alloc::Global;

/// The wait that one to three decimal digits write, where it is at most 255.
fn wait_in(word: &[u8]) -> Option<u8>
    ensures { result ≡ specified_wait_in word.now }
{
    if word.is_empty() || word.len() > 3 {
        return None;
    }
    match decimal_number(word) {
        Some(number) if number <= 255 => Some(number as u8),
        _ => None,
    }
}

/// Puts the wait that a word writes behind the waits before it, or tells why the word is refused.
fn take_wait(waits: &mut Waits, word: &[u8]) -> Result<(), TextErr>
    ensures taken { OnOk result ((wait : ℕ) × (specified_wait_in word.now ≡ Some wait) × (waits.new ≡ waits.old ++ wait ∷ [])) }
    ensures refused { IfErr result (IsWordRefusal waits.old word.now) }
{
    let at = waits.len();
    let Some(wait) = wait_in(word) else {
        return Err(TextErr::At(at));
    };
    if at as usize == Waits::MOST {
        return Err(TextErr::At(at));
    }
    match waits.push(wait) {
        Ok(()) => Ok(()),
        Err(_) => Err(TextErr::Memory),
    }
}

/// Reads the text of a memory's waits: decimal numbers of one to three digits, 0 to 255, which white space parts. There are at most
/// 65,536 of them. `At` has the number, from 0, of the first word that is none, or of number 65,537.
pub fn read_waits(alloc: Global, bytes: &[u8]) -> Result<Waits, TextErr>
    ensures waits { IfOk result (λ waits. IsWaitsText bytes.now waits) }
    ensures refused { IfErr result (IsWaitsRefusal bytes.now) }
    ensures again { (waits : List ℕ) → IsWaitsText bytes.now waits → MatchResult result (λ read. read ≡ waits) (λ e. e ≡ TextErr.Memory) }
{
    let Ok(parts) = parts(alloc, bytes) else {
        return Err(TextErr::Memory);
    };
    let mut waits = Waits::new(alloc);
    for part in parts.iter() {
        if !part.is_empty() {
            match take_wait(&mut waits, part) {
                Ok(()) => {}
                Err(error) => return Err(error),
            }
        }
    }
    Ok(waits)
}
