ghost use Rattle.std.specs.Prelude.{◌≡◌, ◌==◌, ◌&&◌, ℕ, ◌+◌, ◌<◌, ◌≤◌, ◌++◌, All, Some, length, map, IfSome, vec_capacity};
ghost use Rattle.rv_unit.specs.Entries.{writer, written_entry, unit_and_serial, entered, next_entries};
ghost use Rattle.rv_unit.specs.Timed.{IsTimed, CanEnter};
ghost use Rattle.rv_unit.specs.Surveys.{HasNext, IsWrittenPlace, AreKept, moved_by, staying};

use crate::entry::Entry;
use crate::survey::Survey;

/// Where the entry stands that writes: the one of this unit at its last time.
fn written_place(lasts: &[u8], entries: &[Entry], unit: u8) -> Option<usize>
    requires unit { writer lasts.now entries.now ≡ Some unit }
    requires below { unit < length lasts.now }
    ensures { IsWrittenPlace lasts.now entries.now result }
{
    let last = lasts[usize::from(unit)];
    for (at, entry) in entries.iter().enumerate() {
        if is_at(*entry, unit, last) {
            return Some(at);
        }
    }
    None
}

/// Whether an entry stands in this unit at this time.
fn is_at(entry: Entry, unit: u8, time: u8) -> bool
    ensures { result ≡ ((entry.unit == unit) && (entry.time == time)) }
{
    entry.unit == unit && entry.time == time
}

/// Takes the entry that writes, and tells its unit and serial.
fn take_written(lasts: &[u8], entries: &mut Vec<Entry>, granted: Option<u8>) -> Option<(u8, u32)>
    requires granted { granted ≡ writer lasts.now entries.old.items }
    requires below { IfSome granted (λ unit. unit < length lasts.now) }
    ensures written { result ≡ unit_and_serial (written_entry lasts.now entries.old.items) }
    ensures entries { (stages : ℕ) → IsTimed stages lasts.now entries.old.items → entries.new.items ≡ staying lasts.now entries.old.items entries.old.items }
    ensures capacity { vec_capacity entries.new ≡ vec_capacity entries.old }
{
    match granted {
        None => None,
        Some(unit) => match written_place(lasts, entries.as_slice(), unit) {
            None => None,
            Some(at) => {
                let entry = entries.remove(at);
                Some((entry.unit, entry.serial))
            }
        },
    }
}

/// Lets each entry go one time on, unless its unit is frozen.
fn go_on(entries: &mut [Entry], found: &Survey)
    requires { All HasNext entries.old }
    ensures { entries.new ≡ map (moved_by found.now) entries.old }
{
    for entry in entries.iter_mut() {
        *entry = moved(*entry, found);
    }
}

/// An entry a row later.
fn moved(entry: Entry, found: &Survey) -> Entry
    requires { HasNext entry }
    ensures { result ≡ moved_by found.now entry }
{
    let Entry { serial, unit, time } = entry;
    if found.is_frozen(unit) {
        entry
    } else {
        Entry {
            serial,
            unit,
            time: time + 1,
        }
    }
}

/// The same, of a vector.
fn let_all_go_on(entries: &mut Vec<Entry>, found: &Survey)
    requires { All HasNext entries.old.items }
    ensures items { entries.new.items ≡ map (moved_by found.now) entries.old.items }
    ensures capacity { vec_capacity entries.new ≡ vec_capacity entries.old }
{
    go_on(entries.as_mut_slice(), found);
}

/// Puts what enters, if anything, before all others, into reserved room.
fn put_first(entries: &mut Vec<Entry>, stages: u8, enter: Option<(u8, u32)>)
    requires { length (entered stages enter ++ entries.old.items) ≤ vec_capacity entries.old }
    ensures items { entries.new.items ≡ entered stages enter ++ entries.old.items }
    ensures capacity { vec_capacity entries.new ≡ vec_capacity entries.old }
{
    if let Some((unit, serial)) = enter {
        let entry = Entry {
            serial,
            unit,
            time: stages,
        };
        entries.insert(0, entry).unwrap();
    }
}

/// One row: takes the entry that writes, lets all others go on and puts in what enters. Takes no memory.
pub fn one_row(
    stages: u8,
    lasts: &[u8],
    entries: &mut Vec<Entry>,
    found: &Survey,
    enter: Option<(u8, u32)>,
) -> Option<(u8, u32)>
    requires kept { AreKept (record { stages = stages; lasts = lasts.now; entries = entries.old.items }) found.now (vec_capacity entries.old) }
    requires enters { CanEnter lasts.now entries.old.items enter }
    ensures written { result ≡ unit_and_serial (written_entry lasts.now entries.old.items) }
    ensures entries { entries.new.items ≡ next_entries stages lasts.now enter entries.old.items }
    ensures capacity { vec_capacity entries.new ≡ vec_capacity entries.old }
{
    let written = take_written(lasts, entries, found.granted);
    let_all_go_on(entries, found);
    put_first(entries, stages, enter);
    written
}
