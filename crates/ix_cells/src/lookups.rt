ghost use Rattle.std.specs.Prelude.{ℕ, ◌≡◌, ◌≤◌, ◌<◌, ◌+◌, ◌*◌, ◌/◌, ◌^◌, [], ◌∷◌, length, slice_get, slice_index, map, All, IfOk, List, Some, true, ◌==◌, if◌then◌else◌};
ghost use Rattle.ix_bits.specs.declared.number.Bits.{Bits};
ghost use Rattle.ix_graph.specs.Graphs.{IsRomResult};
ghost use Rattle.ix_mean.specs.GraphValues.{by_entry};
ghost use Rattle.ix_cells.specs.Growth.{Adds};
ghost use Rattle.ix_cells.specs.Operands.{wire_of};
ghost use Rattle.ix_cells.specs.Tables.{AddsAll, AddsNext, entries_shown, ArePlaces, Halves, Levels};

use crate::cells::{bits, chosen, constant};
use crate::{Operand, Signal, Wire};
use ix_bits::{Bits, Memory, Ty};
use ix_graph::Graph;
use ix_net::Net;
use std::alloc::Global;
use std::collections::BTreeMap;

// A place of each pattern that an entry has: that of its first entry.
fn first_places(alloc: Global, entries: &[Bits]) -> Result<BTreeMap<u128, usize>, Memory>
    ensures { IfOk result (ArePlaces entries.now) }
{
    let mut places = BTreeMap::new(alloc);
    let mut place = entries.len();
    while place > 0 {
        place -= 1;
        places.insert(entries[place].raw, place)?;
    }
    Ok(places)
}

// The wire of the next entry: that of an earlier entry with its pattern, or a constant.
fn leaf(
    alloc: Global,
    net: &mut Net,
    entries: &[Bits],
    places: &BTreeMap<u128, usize>,
    wires: &[Wire],
) -> Result<Wire, Memory>
    requires more { length wires.now < length entries.now }
    requires places { ArePlaces entries.now places.now }
    ensures { IfOk result (λ r. (width : ℕ) → All (λ e. e.width ≡ width) entries.now → AddsNext net.old net.new wires.now entries.now width r) }
{
    let next = wires.len();
    let entry = entries[next];
    match places.get(&entry.raw).copied() {
        Some(place) if place < next => Ok(wires[place]),
        _ => constant(alloc, net, entry),
    }
}

// A wire for each entry: equal entries share a constant.
fn constants(alloc: Global, net: &mut Net, entries: &[Bits], width: u8) -> Result<Vec<Wire>, Memory>
    requires { All (λ e. e.width ≡ width) entries.now }
    ensures { IfOk result (λ ws. length ws.items ≡ length entries.now × AddsAll [] net.old net.new ws.items width (entries_shown entries.now)) }
{
    let places = first_places(alloc, entries)?;
    let mut wires = Vec::new(alloc);
    while wires.len() < entries.len() {
        let wire = leaf(alloc, net, entries, &places, &wires)?;
        wires.push(wire)?;
    }
    Ok(wires)
}

// Whether both signals are one cell.
fn is_one_node(a: Signal, b: Signal) -> bool
    ensures { result ≡ true → a ≡ b }
{
    match (a, b) {
        (Signal::Node(left), Signal::Node(right)) => left == right,
        _ => false,
    }
}

// The one of two wires that the bit chooses; no cell is put where they are one.
fn chosen_once(alloc: Global, net: &mut Net, bit: Wire, a: Wire, b: Wire) -> Result<Wire, Memory>
    requires bit { bit.width ≡ 1 }
    requires alike { b.width ≡ a.width }
    ensures { IfOk result (λ r. Adds (bit ∷ a ∷ b ∷ []) net.old net.new r a.width
        (λ see. if see bit.signal == 0 then see b.signal else see a.signal)) }
{
    if is_one_node(a.signal, b.signal) {
        return Ok(b);
    }
    chosen(alloc, net, bit, a, b)
}

// Of each two neighbours the one that the bit chooses.
fn halved(
    alloc: Global,
    net: &mut Net,
    wires: &[Wire],
    bit: Wire,
    width: u8,
) -> Result<Vec<Wire>, Memory>
    requires bit { bit.width ≡ 1 }
    requires wide { All (λ w. w.width ≡ width) wires.now }
    ensures { IfOk result (λ rs. Halves net.old net.new wires.now bit rs.items (length wires.now / 2)) }
{
    let mut halves = Vec::new(alloc);
    for place in 0..wires.len() / 2 {
        let wire = chosen_once(alloc, net, bit, wires[2 * place + 1], wires[2 * place])?;
        halves.push(wire)?;
    }
    Ok(halves)
}

// Of each two neighbours the one that the bit of the index at a place chooses.
fn level(
    alloc: Global,
    net: &mut Net,
    wires: &[Wire],
    index: Wire,
    place: u8,
    width: u8,
) -> Result<Vec<Wire>, Memory>
    requires within { place < index.width }
    requires wide { All (λ w. w.width ≡ width) wires.now }
    ensures { IfOk result (λ rs. Levels net.old net.new wires.now index place rs.items) }
{
    let bit = bits(alloc, net, index, place, place)?;
    halved(alloc, net, wires, bit, width)
}

// The entry of a table at an index.
fn looked_up(
    alloc: Global,
    net: &mut Net,
    entries: &[Bits],
    index: Wire,
    width: u8,
) -> Result<Wire, Memory>
    requires alike { All (λ e. e.width ≡ width) entries.now }
    requires enough { 2 ^ index.width ≤ length entries.now }
    ensures { IfOk result (λ r. Adds (index ∷ []) net.old net.new r width (λ see. slice_index (map (λ e. e.raw) entries.now) (see index.signal))) }
{
    let mut wires = constants(alloc, net, entries, width)?;
    for place in 0..index.width {
        wires = level(alloc, net, &wires, index, place, width)?;
    }
    Ok(wires[0])
}

/// The entry of a table, by the table's number, at the index that an operand shows.
pub(crate) fn entry_of(
    alloc: Global,
    net: &mut Net,
    graph: &Graph,
    table: u16,
    index: Operand,
    ty: Ty,
) -> Result<Wire, Memory>
    requires { (entries : List Bits) × (slice_get graph.now.tables table ≡ Some entries) × IsRomResult entries index.ty ty }
    ensures { IfOk result (λ r. Adds (wire_of index ∷ []) net.old net.new r ty.width
        (λ see. by_entry (slice_get graph.now.tables table) (see index.signal ∷ []))) }
{
    let entries = graph.tables.as_slice()[table as usize].as_slice();
    let wire = Wire {
        signal: index.signal,
        width: index.ty.width,
    };
    looked_up(alloc, net, entries, wire, ty.width)
}
