ghost use Rattle.std.specs.Prelude.{◌≡◌, ◌++◌, [], ◌∷◌, map, IfOk, OnOk};
ghost use Rattle.ix_net.specs.Signals.{cell_port};
ghost use Rattle.ix_net.specs.Forms.{operands};
ghost use Rattle.ix_net.specs.Tables.{Holds};
ghost use Rattle.ix_vread.specs.Graphs.{found, listed, read_by, graph_of as specified_graph};
ghost use Rattle.ix_vread.specs.Loops.{AreDrivenOnce};

use ix_bits::{List, Memory, Name};
use ix_net::{Cell, Form};
use std::alloc::Global;
use std::collections::BTreeMap;

/// The number of each cell by its target.
fn places_of<'a>(alloc: Global, cells: &'a [Cell]) -> Result<BTreeMap<&'a str, usize>, Memory>
    requires { AreDrivenOnce cells.now }
    ensures { IfOk result (Holds (map cell_port cells.now)) }
{
    let mut places = BTreeMap::new(alloc);
    for (place, cell) in cells.iter().enumerate() {
        places.insert(cell.target.as_str(), place)?;
    }
    Ok(places)
}

/// Puts the number of the cell with this target behind others, if there is such a cell.
fn put(cells: &mut List<usize>, places: &BTreeMap<&str, usize>, name: &Name) -> Result<(), Memory>
    ensures { OnOk result (cells.new ≡ cells.old ++ listed (found places.now name.now)) }
{
    match places.get(name.as_str()).copied() {
        Some(place) => cells.push(place),
        None => Ok(()),
    }
}

fn one(alloc: Global, places: &BTreeMap<&str, usize>, a: &Name) -> Result<List<usize>, Memory>
    ensures { IfOk result (λ r. r ≡ read_by (found places.now) (a.now ∷ [])) }
{
    let mut cells = List::new(alloc);
    put(&mut cells, places, a)?;
    Ok(cells)
}

fn two(
    alloc: Global,
    places: &BTreeMap<&str, usize>,
    a: &Name,
    b: &Name,
) -> Result<List<usize>, Memory>
    ensures { IfOk result (λ r. r ≡ read_by (found places.now) (a.now ∷ b.now ∷ [])) }
{
    let mut cells = List::new(alloc);
    put(&mut cells, places, a)?;
    put(&mut cells, places, b)?;
    Ok(cells)
}

fn three(
    alloc: Global,
    places: &BTreeMap<&str, usize>,
    a: &Name,
    b: &Name,
    c: &Name,
) -> Result<List<usize>, Memory>
    ensures { IfOk result (λ r. r ≡ read_by (found places.now) (a.now ∷ b.now ∷ c.now ∷ [])) }
{
    let mut cells = List::new(alloc);
    put(&mut cells, places, a)?;
    put(&mut cells, places, b)?;
    put(&mut cells, places, c)?;
    Ok(cells)
}

/// The cells that a right side reads.
fn reads(alloc: Global, places: &BTreeMap<&str, usize>, form: &Form) -> Result<List<usize>, Memory>
    ensures { IfOk result (λ r. r ≡ read_by (found places.now) (operands form.now)) }
{
    match form {
        Form::Hex(_) => Ok(List::new(alloc)),
        Form::Copy(a) => one(alloc, places, a),
        Form::Add(a, b) => two(alloc, places, a, b),
        Form::Sub(a, b) => two(alloc, places, a, b),
        Form::Mul(a, b) => two(alloc, places, a, b),
        Form::And(a, b) => two(alloc, places, a, b),
        Form::Or(a, b) => two(alloc, places, a, b),
        Form::Xor(a, b) => two(alloc, places, a, b),
        Form::Not(a) => one(alloc, places, a),
        Form::Eq(a, b) => two(alloc, places, a, b),
        Form::Lt(a, b) => two(alloc, places, a, b),
        Form::LtSigned(a, b) => two(alloc, places, a, b),
        Form::Join(a, b) => two(alloc, places, a, b),
        Form::Range {
            source,
            hi: _,
            lo: _,
        } => one(alloc, places, source),
        Form::Choose(c, a, b) => three(alloc, places, c, a, b),
    }
}

/// For each cell those that it reads.
pub(crate) fn graph_of(alloc: Global, cells: &[Cell]) -> Result<Vec<List<usize>>, Memory>
    requires { AreDrivenOnce cells.now }
    ensures { IfOk result (λ graph. graph.items ≡ specified_graph cells.now) }
{
    let places = places_of(alloc, cells)?;
    let mut graph = Vec::with_capacity(alloc, cells.len())?;
    for cell in cells {
        graph.push(reads(alloc, &places, &cell.form)?)?;
    }
    Ok(graph)
}
