ghost use Rattle.std.specs.Prelude.{◌≡◌, [], ◌∷◌, IfOk, OnOk};
ghost use Rattle.ix_vread.specs.Graphs.{AreReaders, AreReadersIn, Puts};

use ix_bits::{List, Memory};
use std::alloc::Global;

/// Puts a reader behind those of a cell.
fn put_reader(readers: &mut [List<usize>], cell: usize, reader: usize) -> Result<(), Memory>
    ensures { OnOk result (Puts (cell ∷ []) reader readers.old readers.new) }
{
    if cell < readers.len() {
        readers[cell].push(reader)?;
    }
    Ok(())
}

/// The same for each of the cells that it reads.
fn put_readers(readers: &mut [List<usize>], read: &[usize], reader: usize) -> Result<(), Memory>
    ensures { OnOk result (Puts read.now reader readers.old readers.new) }
{
    for cell in read {
        put_reader(readers, *cell, reader)?;
    }
    Ok(())
}

/// An empty list for each cell.
fn no_readers(alloc: Global, graph: &[List<usize>]) -> Result<Vec<List<usize>>, Memory>
    ensures { IfOk result (λ readers. AreReadersIn graph.now 0 readers.items) }
{
    let mut readers = Vec::with_capacity(alloc, graph.len())?;
    'cells: for _ in 0..graph.len() {
        readers.push(List::new(alloc))?;
    }
    Ok(readers)
}

/// For each cell those that read it.
pub fn readers_of(alloc: Global, graph: &[List<usize>]) -> Result<Vec<List<usize>>, Memory>
    ensures { IfOk result (λ readers. AreReaders graph.now readers.items) }
{
    let mut readers = no_readers(alloc, graph)?;
    let lists = readers.as_mut_slice();
    'readers: for reader in 0..graph.len() {
        put_readers(lists, graph[reader].as_slice(), reader)?;
    }
    Ok(readers)
}
