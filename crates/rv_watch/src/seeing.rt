ghost use Rattle.std.specs.Prelude.{◌≡◌, ℕ, List, [], ◌∷◌, Some, true, is_some, length, slice_get, OnOk, OnErr};
ghost use Rattle.rv_trace.specs.declared.row.Row.{Row as RowValue};
ghost use Rattle.rv_lawful.specs.Settings.{Setting, Stands};
ghost use Rattle.rv_lawful.specs.LawfulTrace.{IsWordOf, LawfulRow};
ghost use Rattle.rv_rows.specs.Facts.{IsPlain, AreGoingOn, MovesAbove};
ghost use Rattle.rv_rows.specs.Kinds.{upper};
ghost use Rattle.rv_watch.specs.Seen.{AreSeen};
ghost use Rattle.rv_watch.specs.Seeing.{spawns_of, is_next as specified_is_next, with_first, AreMarked};

use crate::seen::Seen;
use ix_bits::Memory;
use rv_rows::row_facts;
use rv_trace::{Cell, Row};
use std::alloc::Global;

/// Before the first row nothing is kept.
pub fn nothing_seen(alloc: Global) -> Vec<Seen>
    ensures { (k : Setting) → AreSeen k [] result.items }
{
    Vec::new(alloc)
}

// Whether the `spawn` body of the instruction of this serial writes an x register, as is kept.
fn is_spawning(seen: &[Seen], serial: u32) -> bool
    ensures { result ≡ spawns_of (slice_get seen.now serial) }
{
    match seen.get(serial as usize) {
        None => false,
        Some(entry) => entry.spawns,
    }
}

/// Whether the `spawn` body of the instruction of this serial writes an x register; no for a serial
/// that was never fetched.
pub fn spawns(seen: &[Seen], serial: u32) -> bool
    ensures { (k : Setting) (earlier : List RowValue) (row : RowValue) → IsPlain k → AreGoingOn k earlier → MovesAbove k earlier row → AreSeen k earlier seen.now
        → (result ≡ true → (word : ℕ) × IsWordOf k (upper row ∷ earlier) serial word × (is_some (k.asks word).spawned ≡ true))
        × ((word : ℕ) → IsWordOf k (upper row ∷ earlier) serial word → is_some (k.asks word).spawned ≡ true → result ≡ true) }
{
    row_facts();
    is_spawning(seen, serial)
}

// Whether the cell of stage 0 has the serial behind so many.
fn is_next(first: Option<Cell>, count: usize) -> bool
    ensures { result ≡ specified_is_next first count }
{
    match first {
        None => false,
        Some(cell) => cell.serial as usize == count,
    }
}

// What stands in stage 0.
fn first_of(row: &Row) -> Option<Cell>
    ensures { slice_get row.now.cells 0 ≡ Some result }
{
    row.cells[0]
}

// Puts an entry for the cell of stage 0, where it is new.
fn add(seen: &mut Vec<Seen>, first: Option<Cell>, asked: bool) -> Result<(), Memory>
    ensures ok { OnOk result (seen.new.items ≡ with_first seen.old.items first asked) }
    ensures err { OnErr result (seen.new.items ≡ seen.old.items) }
{
    if !is_next(first, seen.len()) {
        return Ok(());
    }
    let entry = Seen {
        flushed: false,
        spawns: asked,
    };
    match seen.push(entry) {
        Ok(()) => Ok(()),
        Err(_) => Err(Memory),
    }
}

// Marks one serial, if it has an entry.
fn mark_one(seen: &mut [Seen], mark: Option<u32>)
    ensures { AreMarked (mark ∷ []) seen.old seen.new }
{
    if let Some(serial) = mark {
        let at = serial as usize;
        if at < seen.len() {
            seen[at].flushed = true;
        }
    }
}

// Marks these serials as flushed.
fn mark(seen: &mut [Seen], marks: &[Option<u32>; 5])
    ensures { AreMarked marks.now seen.old seen.new }
{
    for one in marks {
        mark_one(seen, *one);
    }
}

// The same, of a vector.
fn mark_all(seen: &mut Vec<Seen>, marks: &[Option<u32>; 5])
    ensures { AreMarked marks.now seen.old.items seen.new.items }
{
    mark(seen.as_mut_slice(), marks);
}

/// One row more, whose stage 0 has an instruction that asks for this (anything where none comes
/// newly there). Without memory all stays as it was.
pub fn see(seen: &mut Vec<Seen>, row: &Row, spawns: bool) -> Result<(), Memory>
    ensures ok { OnOk result ((k : Setting) (earlier : List RowValue) → IsPlain k → AreGoingOn k earlier → LawfulRow k earlier row.now → AreSeen k earlier seen.old.items
        → ((c : Cell) → Stands k row.now 0 c → spawns ≡ is_some (k.asks c.word).spawned) → AreSeen k (row.now ∷ earlier) seen.new.items) }
    ensures err { OnErr result (seen.new.items ≡ seen.old.items) }
{
    row_facts();
    let first = first_of(row);
    add(seen, first, spawns)?;
    mark_all(seen, &row.flushed);
    Ok(())
}
