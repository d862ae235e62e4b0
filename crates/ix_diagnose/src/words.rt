ghost use Rattle.std.specs.Prelude.{◌≡◌, ◌<◌, ◌^◌, ◌++◌, [], ◌∷◌, ℕ, List, Some, IsSomeAnd, decimal, codes};
ghost use Rattle.ix_diagnose.specs.Refusals.{IsWord, before, refusal_line};
ghost use Rattle.ix_diagnose.specs.Findings.{IsStatus};

use crate::place::Place;

/// What was refused, as the second word of its line says.
#[derive(Clone, Copy, Debug, PartialEq, Eq)]
pub(crate) enum Status {
    Usage,
    ReadFault,
    TooLong,
    Extension,
    Sheet,
    Image,
    NoSchedule,
    Certificate,
    Source,
    Waits,
    Lines,
    Trace,
    Barrel,
    /// No line of the tool begins so.
    Other,
}

/// What was refused, and what is told of it.
#[derive(Clone, Copy)]
pub(crate) struct Refusal<'a> {
    pub(crate) status: Status,
    pub(crate) rest: &'a str,
}

/// What the second word of a line says.
fn status_of(word: &str) -> Status
    ensures { IsStatus word.now result }
{
    match word {
        "Usage" => Status::Usage,
        "ReadFault" => Status::ReadFault,
        "TooLong" => Status::TooLong,
        "Extension" => Status::Extension,
        "Sheet" => Status::Sheet,
        "Image" => Status::Image,
        "NoSchedule" => Status::NoSchedule,
        "Certificate" => Status::Certificate,
        "Source" => Status::Source,
        "Waits" => Status::Waits,
        "Lines" => Status::Lines,
        "Trace" => Status::Trace,
        "Barrel" => Status::Barrel,
        _ => Status::Other,
    }
}

/// The first word of a text, and what stands behind the space after it.
pub(crate) fn cut(text: &str) -> (&str, &str)
    ensures first { (word : List ℕ) (rest : List ℕ) → IsWord word → text.now ≡ before word rest → (result.0.now ≡ word) × (result.1.now ≡ rest) }
    ensures whole { IsWord text.now → (result.0.now ≡ text.now) × (result.1.now ≡ []) }
{
    match text.split_once(' ') {
        Some(parts) => parts,
        None => (text, ""),
    }
}

/// The number that a word writes.
pub(crate) fn number(word: &str) -> Option<usize>
    ensures { (n : ℕ) → n < 2 ^ 64 → word.now ≡ decimal n → result ≡ Some n }
{
    match word.parse::<usize>() {
        Ok(n) => Some(n),
        Err(_) => None,
    }
}

/// The place that two numbers write.
pub(crate) fn span(text: &str) -> Option<Place>
    ensures { (from : ℕ) (to : ℕ) → from < 2 ^ 64 → to < 2 ^ 64 → text.now ≡ before (decimal from) (decimal to)
        → result ≡ Some (record { from = from; to = to }) }
{
    let (first, rest) = cut(text);
    match number(first) {
        None => None,
        Some(from) => match number(rest) {
            None => None,
            Some(to) => Some(Place { from, to }),
        },
    }
}

/// What a line without its line feed refuses.
fn refused_in(body: &str) -> Option<Refusal<'_>>
    ensures { (status : List ℕ) (rest : List ℕ) → IsWord status → body.now ≡ before (codes "refused") (before status rest)
        → IsSomeAnd result (λ r. IsStatus status r.status × (r.rest.now ≡ rest)) }
{
    let (first, told) = cut(body);
    if first == "refused" {
        let (status, rest) = cut(told);
        return Some(Refusal {
            status: status_of(status),
            rest,
        });
    }
    None
}

/// What a line of the output refuses, if it is such a line.
pub(crate) fn read_refusal(line: &str) -> Option<Refusal<'_>>
    ensures { (status : List ℕ) (rest : List ℕ) → IsWord status → line.now ≡ refusal_line status rest
        → IsSomeAnd result (λ r. IsStatus status r.status × (r.rest.now ≡ rest)) }
{
    match line.strip_suffix('\n') {
        None => None,
        Some(body) => refused_in(body),
    }
}
