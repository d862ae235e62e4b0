ghost use Rattle.std.specs.Prelude.{◌≡◌, ◌<◌, ◌+◌, [], ◌∷◌, ℕ, List as list_type, length, slice_index_or, IfOk, OnOk};
ghost use Rattle.ix_vread.specs.Orders.{IsOrder};
ghost use Rattle.ix_vread.specs.Searches.{AreKnown, AreLoops, Feeds, IsNew, Reaches, Visits};

use crate::mark::{Mark, is_new};
use ix_bits::{List, Memory};
use std::alloc::Global;

/// Marks a cell, and puts it on the list of those to be looked at, if it is new.
fn visit(cell: usize, marks: &mut [Mark], left: &mut Vec<usize>) -> Result<(), Memory>
    ensures { OnOk result (Visits (cell ∷ []) marks.old left.old.items marks.new left.new.items) }
{
    if cell < marks.len() && is_new(marks[cell]) {
        marks[cell] = Mark::Looped;
        left.push(cell)?;
    }
    Ok(())
}

/// The same for each of the cells.
fn visit_all(cells: &[usize], marks: &mut [Mark], left: &mut Vec<usize>) -> Result<(), Memory>
    ensures { OnOk result (Visits cells.now marks.old left.old.items marks.new left.new.items) }
{
    for cell in cells {
        visit(*cell, marks, left)?;
    }
    Ok(())
}

/// Marks the new cells that depend on a cell. Nothing is left to be looked at before.
fn search(
    readers: &[List<usize>],
    root: usize,
    marks: &mut [Mark],
    left: &mut Vec<usize>,
) -> Result<(), Memory>
    requires cell { root < length readers.now }
    requires size { length marks.old ≡ length readers.now }
    requires nothing_left { left.old.items ≡ [] }
    ensures { OnOk result (Reaches readers.now root marks.old marks.new) }
{
    left.push(root)?;
    while let Some(cell) = left.pop() {
        prove!(cell < readers.len());
        visit_all(readers[cell].as_slice(), marks, left)?;
    }
    Ok(())
}

/// Marks what depends on a cell and the cell on it, where those behind it in an order are known.
fn look_at(
    alloc: Global,
    readers: &[List<usize>],
    root: usize,
    marks: &mut [Mark],
) -> Result<(), Memory>
    requires cell { root < length readers.now }
    requires size { length marks.old ≡ length readers.now }
    ensures { OnOk result ((order : list_type ℕ) (place : ℕ) → IsOrder (Feeds readers.now) (length readers.now) order → place < length order → slice_index_or order place 0 ≡ root
        → AreKnown readers.now order (place + 1) marks.old → AreKnown readers.now order place marks.new) }
{
    if !is_new(marks[root]) {
        return Ok(());
    }
    let mut left = Vec::new(alloc);
    search(readers, root, marks, &mut left)?;
    if is_new(marks[root]) {
        marks[root] = Mark::Free;
    }
    Ok(())
}

/// Looks at the cells of an order, the last one first.
fn look_at_all(
    alloc: Global,
    readers: &[List<usize>],
    order: &[usize],
    marks: &mut [Mark],
) -> Result<(), Memory>
    requires order { IsOrder (Feeds readers.now) (length readers.now) order.now }
    requires known { AreKnown readers.now order.now (length order.now) marks.old }
    ensures { OnOk result (AreKnown readers.now order.now 0 marks.new) }
{
    for place in (0..order.len()).rev() {
        look_at(alloc, readers, order[place], marks)?;
    }
    Ok(())
}

/// Marks the cells that depend on themselves, by the lists of readers and an order in which a
/// search leaves the cells behind.
pub fn loops_in(
    alloc: Global,
    readers: &[List<usize>],
    order: &[usize],
) -> Result<Vec<Mark>, Memory>
    requires { IsOrder (Feeds readers.now) (length readers.now) order.now }
    ensures { IfOk result (λ marks. AreLoops readers.now marks.items) }
{
    let mut marks = vec![in alloc; Mark::New; readers.len()]?;
    look_at_all(alloc, readers, order, &mut marks)?;
    Ok(marks)
}
