ghost use Rattle.std.specs.Prelude.{◌≡◌, ℕ, ◌<◌, ◌≤◌, ◌^◌, List, length, map, IfOk, OnOk};
ghost use Rattle.rv_asm_text.specs.Lines.{label_of};
ghost use Rattle.rv_asm.specs.Labels.{words_of, kept, marked, is_labelled, place_of, offset as specified_offset, target_of, is_doubled, found};

use ix_bits::Memory;
use rv_asm_text::{Number, instruction, is_name, label, read_number};
use std::alloc::Global;
use std::collections::BTreeMap;

/// Where a label stands: its line and the count of words before it, both from 0.
#[derive(Clone, Copy, Debug, PartialEq, Eq)]
pub struct Place {
    pub line: u32,
    pub word: u32,
}

/// What a target is.
#[derive(Clone, Copy, Debug, PartialEq, Eq)]
pub enum Target {
    /// Neither a name nor a number.
    Bad,
    /// A label that stands nowhere.
    Unknown,
    /// This many bytes from the instruction.
    By(Number),
}

/// How many words a line counts as.
pub fn word_count(line: &[u8]) -> u32
    ensures value { result ≡ words_of line.now }
    ensures most { result ≤ 1 }
{
    if instruction(line).is_empty() { 0 } else { 1 }
}

fn lookup(labels: &BTreeMap<&[u8], Place>, name: &[u8]) -> Option<Place>
    ensures { result ≡ found labels.now name.now }
{
    labels.get(name).copied()
}

// Notes where the label of a line stands, where it stands on no line before.
fn note<'a>(
    labels: &mut BTreeMap<&'a [u8], Place>,
    line: &'a [u8],
    place: Place,
) -> Result<(), Memory>
    ensures { OnOk result ((name : List ℕ) → found labels.new name ≡ kept (found labels.old name) (marked (is_labelled name (label_of line.now)) place)) }
{
    let Some(name) = label(line) else {
        return Ok(());
    };
    match lookup(labels, name) {
        Some(_) => Ok(()),
        None => {
            labels.insert(name, place)?;
            Ok(())
        }
    }
}

/// Where each label of these lines stands first.
pub fn labels<'a>(alloc: Global, lines: &[&'a [u8]]) -> Result<BTreeMap<&'a [u8], Place>, Memory>
    requires { length lines.now < 2 ^ 32 }
    ensures { IfOk result (λ m. (name : List ℕ) → found m name ≡ place_of (map (λ line. line.now) lines.now) name) }
{
    let mut labels = BTreeMap::new(alloc);
    let mut word = 0u32;
    for (i, line) in lines.iter().enumerate() {
        let place = Place {
            line: i as u32,
            word,
        };
        note(&mut labels, line, place)?;
        word += word_count(line);
    }
    Ok(labels)
}

// The way from a word to another one in bytes.
fn offset(at: u32, to: u32) -> Number
    ensures { result ≡ specified_offset at to }
{
    if at <= to {
        Number {
            is_negative: false,
            size: 4 * u64::from(to - at),
        }
    } else {
        Number {
            is_negative: true,
            size: 4 * u64::from(at - to),
        }
    }
}

/// What the target of a jump is, for the word at a place: a name is a label, and anything else an offset.
#[tactic(auto, unfolding(crate::specs::Labels::target_of))]
pub(crate) fn target_at(labels: &BTreeMap<&[u8], Place>, at: u32, text: &[u8]) -> Target
    ensures { result ≡ target_of (found labels.now) at text.now }
{
    if is_name(text) {
        match lookup(labels, text) {
            None => Target::Unknown,
            Some(place) => Target::By(offset(at, place.word)),
        }
    } else {
        match read_number(text) {
            None => Target::Bad,
            Some(n) => Target::By(n),
        }
    }
}

/// Whether the label of the line of this number stands on an earlier line too.
#[tactic(auto, unfolding(crate::specs::Labels::is_doubled))]
pub(crate) fn has_doubled_label(labels: &BTreeMap<&[u8], Place>, number: u32, line: &[u8]) -> bool
    ensures { result ≡ is_doubled (found labels.now) number line.now }
{
    match label(line) {
        None => false,
        Some(name) => match lookup(labels, name) {
            None => false,
            Some(place) => place.line != number,
        },
    }
}
