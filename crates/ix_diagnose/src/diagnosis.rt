ghost use Rattle.std.specs.Prelude.{◌≡◌, ◌≤◌, ◌<◌, ℕ, List, Some, IfOk};
ghost use Rattle.std.specs.Prelude.{codes, decimal, length, string_bytes};
ghost use Rattle.ix_diagnose.specs.Refusals.{IsWord, IsTold, before, refusal_line, TellsLine, Tells};
ghost use Rattle.ix_diagnose.specs.Shown.{TellsAt};
ghost use Rattle.ix_diagnose.specs.Findings.{IsLineOf};

use crate::finding::{Finding, finding_of};
use crate::place::Place;
use crate::shown::tell_at;
use crate::words::read_refusal;
use std::alloc::{AllocError, Global};

/// A sentence, and in brackets the names that it is about.
fn sentence_about(alloc: Global, sentence: &str, about: &str) -> Result<String, AllocError> {
    if about.is_empty() {
        return String::from_str(alloc, sentence);
    }
    format!(in alloc; "{sentence} ({about})")
}

/// Tells a finding: at its place, or of the whole file where it has none.
fn tell(alloc: Global, name: &str, bytes: &[u8], finding: Finding<'_>) -> Result<String, AllocError>
    ensures told { IfOk result (λ text. Tells name.now bytes.now (string_bytes text)) }
    ensures at { (from : ℕ) (to : ℕ) → finding.entry.place ≡ Some (record { from = from; to = to })
        → from ≤ length bytes.now
        → IfOk result (λ text. TellsAt name.now bytes.now from to (string_bytes text)) }
{
    let sentence = sentence_about(alloc, finding.sentence, finding.about)?;
    match finding.place {
        Some(place) => {
            let from = place.from.min(bytes.len());
            tell_at(
                alloc,
                name,
                bytes,
                Place { from, to: place.to },
                sentence.as_str(),
            )
        }
        None => format!(in alloc; "{name}: error: {sentence}\n"),
    }
}

/// Tells what a line of the output refuses: at its place of the file, in one sentence with what to
/// write in its place, and then the line of the file with carets under the place. `name` is that of
/// the file that the refusal is of, and `bytes` are the bytes of it. The answer is empty where the
/// line refuses nothing.
pub fn diagnose(alloc: Global, line: &str, name: &str, bytes: &[u8]) -> Result<String, AllocError>
    // What has a line and a column has those of a place of the file.
    ensures told { IfOk result (λ text. Tells name.now bytes.now (string_bytes text)) }

    // The refusal of an extension that tells two numbers is told of the bytes from the one up to
    // the other.
    ensures extension { (kind : List ℕ) (from : ℕ) (to : ℕ) → IsWord kind → IsTold from → IsTold to
        → from ≤ length bytes.now
        → line.now ≡ refusal_line (codes "Extension") (before kind (before (decimal from) (decimal to)))
        → IfOk result (λ text. TellsAt name.now bytes.now from to (string_bytes text)) }

    // Those that tell a line of the file are told at this line.
    ensures image { (n : ℕ) → IsLineOf bytes.now n
        → line.now ≡ refusal_line (codes "Image") (decimal n)
        → IfOk result (λ text. TellsLine name.now bytes.now n (string_bytes text)) }
    ensures certificate { (kind : List ℕ) (n : ℕ) → IsLineOf bytes.now n
        → line.now ≡ refusal_line (codes "Certificate") (before (decimal n) kind)
        → IfOk result (λ text. TellsLine name.now bytes.now n (string_bytes text)) }
    ensures source { (kind : List ℕ) (n : ℕ) → IsWord kind → IsLineOf bytes.now n
        → line.now ≡ refusal_line (codes "Source") (before kind (decimal n))
        → IfOk result (λ text. TellsLine name.now bytes.now n (string_bytes text)) }
    ensures trace { (kind : List ℕ) (n : ℕ) → IsLineOf bytes.now n
        → line.now ≡ refusal_line (codes "Trace") (before (decimal n) kind)
        → IfOk result (λ text. TellsLine name.now bytes.now n (string_bytes text)) }
{
    match read_refusal(line) {
        Some(refusal) => tell(alloc, name, bytes, finding_of(refusal, bytes)),
        None => Ok(String::new(alloc)),
    }
}
