ghost use Rattle.std.specs.Prelude.{◌≡◌, ◌<◌, ◌++◌, length, OnOk, IfSome};
ghost use Rattle.rv_unit.specs.Entries.{is_number};
ghost use Rattle.rv_unit.specs.Timed.{CanEnter};
ghost use Rattle.rv_lawful.specs.Outstanding.{is_serial as specified_is_serial};
ghost use Rattle.rv_owing.specs.Kept.{oldest_in as specified_oldest_in, place_from, place_among, without_at, are_all as specified_are_all, is_none_but as specified_is_none_but, unit_entering, owed_entering, place_entering};

use ix_bits::{Memory, put};
use rv_asks::Asks;
use rv_rows::Owed;
use rv_unit::{Entry, Units};

// Is it this serial?
pub fn is_serial(one: Option<u32>, serial: u32) -> bool
    ensures { result ≡ specified_is_serial one serial }
{
    match one {
        None => false,
        Some(one) => one == serial,
    }
}

// Is it this unit?
pub fn is_unit(one: Option<u8>, unit: u8) -> bool
    ensures { result ≡ is_number one unit }
{
    match one {
        None => false,
        Some(one) => one == unit,
    }
}

// The serial of the oldest entry of a unit.
pub fn oldest_in(entries: &[Entry], unit: u8) -> Option<u32>
    ensures { result ≡ specified_oldest_in unit entries.now }
{
    let mut found = None;
    for entry in entries {
        if entry.unit == unit {
            found = Some(entry.serial);
        }
    }
    found
}

// The place of the first with this serial.
pub fn place_of(owed: &[Owed], serial: u32) -> Option<usize>
    ensures place { result ≡ place_from 0 serial owed.now }
    ensures inside { IfSome result (λ at. at < length owed.now) }
{
    for (at, one) in owed.iter().enumerate() {
        if one.serial == serial {
            return Some(at);
        }
    }
    None
}

// The place of the one with this serial, where there is a serial.
fn place_where(owed: &[Owed], serial: Option<u32>) -> Option<usize>
    ensures place { result ≡ place_among serial owed.now }
    ensures inside { IfSome result (λ at. at < length owed.now) }
{
    match serial {
        None => None,
        Some(serial) => place_of(owed, serial),
    }
}

// Have all of these this serial?
pub fn are_all(written: Option<u32>, owed: &[Owed]) -> bool
    ensures { result ≡ specified_are_all written owed.now }
{
    for one in owed {
        if !is_serial(written, one.serial) {
            return false;
        }
    }
    true
}

// Has what enters, where something does, this serial?
pub fn is_none_but(written: Option<u32>, entering: Option<u32>) -> bool
    ensures { result ≡ specified_is_none_but written entering }
{
    match entering {
        None => true,
        Some(serial) => is_serial(written, serial),
    }
}

// Takes the place at this place out of the list, if there is one.
fn drop_place(places: &mut Vec<u32>, at: usize)
    ensures { places.new.items ≡ without_at (Some at) places.old.items }
{
    if at < places.len() {
        places.remove(at);
    }
}

// Takes the one with this serial out of both lists.
pub fn take_out(owed: &mut Vec<Owed>, places: &mut Vec<u32>, serial: Option<u32>)
    ensures owed { owed.new.items ≡ without_at (place_among serial owed.old.items) owed.old.items }
    ensures places { places.new.items ≡ without_at (place_among serial owed.old.items) places.old.items }
{
    if let Some(at) = place_where(owed.as_slice(), serial) {
        owed.remove(at);
        drop_place(places, at);
    }
}

// The unit and the serial of what enters. A frozen unit takes nothing.
pub fn into_open(units: &Units, entering: Option<(u8, u32, u32, Asks)>) -> Option<(u8, u32)>
    ensures can { CanEnter units.now.lasts units.now.entries result }
    ensures same { CanEnter units.now.lasts units.now.entries (unit_entering entering) → result ≡ unit_entering entering }
{
    let Some((unit, serial, _, _)) = entering else {
        return None
    };
    if usize::from(unit) >= units.count() {
        return None;
    }
    if units.frozen(unit) {
        return None;
    }
    Some((unit, serial))
}

// Puts what enters behind the others.
pub fn put_behind(
    owed: &mut Vec<Owed>,
    places: &mut Vec<u32>,
    entering: Option<(u8, u32, u32, Asks)>,
) -> Result<(), Memory>
    ensures owed { OnOk result (owed.new.items ≡ owed.old.items ++ owed_entering entering) }
    ensures places { OnOk result (places.new.items ≡ places.old.items ++ place_entering entering) }
{
    match entering {
        None => Ok(()),
        Some((_, serial, place, asks)) => {
            put(owed, Owed { serial, asks })?;
            put(places, place)
        }
    }
}
