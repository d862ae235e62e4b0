ghost use Rattle.std.specs.Prelude.{◌≡◌, ℕ, ◌<◌, ◌≤◌, ◌++◌, List, [], ◌∷◌, All, length};
ghost use Rattle.rv_unit.specs.declared.entry.Entry.{Entry};
ghost use Rattle.rv_unit.specs.Entries.{lower as specified_lower, last_time};
ghost use Rattle.rv_unit.specs.Surveys.{IsSurvey, is_frozen_by};

use crate::entry::Entry;

/// What is found once a row of the entries.
#[derive(Clone, Copy)]
pub struct Survey {
    /// The unit that writes: the lowest with an entry at its last time.
    pub granted: Option<u8>,
    /// Whether each unit has an entry at its last time.
    pub finished: [bool; 72],
}

/// What is found where nothing stands in the units.
pub fn nothing() -> Survey
    ensures { (lasts : List ℕ) → IsSurvey lasts [] result }
{
    Survey {
        granted: None,
        finished: [false; 72],
    }
}

/// What is found of these entries.
pub fn survey_of(lasts: &[u8], entries: &[Entry]) -> Survey
    requires units { length lasts.now ≤ 72 }
    requires below { All (λ e. e.unit < length lasts.now) entries.now }
    ensures { IsSurvey lasts.now entries.now result }
{
    let mut found = nothing();
    for entry in entries {
        let last = lasts[usize::from(entry.unit)];
        add(&mut found, *entry, last);
    }
    found
}

/// Adds what is found of one entry, the unit of which has this last time.
fn add(found: &mut Survey, entry: Entry, last: u8)
    requires { entry.unit < 72 }
    ensures { (lasts : List ℕ) (entries : List Entry) → last ≡ last_time lasts entry.unit → IsSurvey lasts entries found.old → IsSurvey lasts (entries ++ entry ∷ []) found.new }
{
    if entry.time == last {
        found.granted = Some(lower(entry.unit, found.granted));
        found.finished[usize::from(entry.unit)] = true;
    }
}

/// The lower one of a unit and another, if there is another.
fn lower(unit: u8, other: Option<u8>) -> u8
    ensures { result ≡ specified_lower unit other }
{
    match other {
        None => unit,
        Some(other) => unit.min(other),
    }
}

impl Survey {
    /// Whether the unit has an entry at its last time that does not write.
    pub fn is_frozen(&self, unit: u8) -> bool
        requires { unit < 72 }
        ensures { result ≡ is_frozen_by self.now unit }
    {
        self.finished[usize::from(unit)] && self.granted != Some(unit)
    }
}
