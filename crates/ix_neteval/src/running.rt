ghost use Rattle.std.specs.Prelude.{◌≡◌, ◌+◌, ◌<◌, ◌≤◌, ◌++◌, ℕ, [], Some, false, length, take, drop, slice_get, slice_index, slice_set, not, ◌==◌, ◌||◌};
ghost use Rattle.std.specs.List.{AllByRecursion, list_any};
ghost use Rattle.ix_net.specs.declared.wires.Latch.{Latch};
ghost use Rattle.ix_net.specs.Gates.{reads_of, gate_result};
ghost use Rattle.ix_neteval.specs.Wired.{GateFits, HasPattern, FitWidths, AreWired, GateHolds, KeepsOthers};
ghost use Rattle.ix_neteval.specs.Wired.{pattern_widths, pattern_values, AreWithin, latched};
ghost use Rattle.ix_neteval.specs.Marked.{is_marked, IsMarked};

use crate::arithmetic::{add, bits, is_signed_lt, join, mul, not, sub};
use ix_bits::Bits;
use ix_net::{Gate, Latch, Wiring};

/// The value of a right side with a target of this width, from the values of the signals.
fn gate_value(gate: Gate, width: u8, values: &[u128]) -> u128
    requires some { 1 ≤ width }
    requires most { width ≤ 128 }
    requires fits { GateFits (HasPattern values.now) width gate }
    ensures { result ≡ gate_result (slice_index values.now) width gate }
{
    match gate {
        Gate::Hex(number) => number,
        Gate::Copy(a) => values[a],
        Gate::Add(a, b) => add(values[a], values[b], width),
        Gate::Sub(a, b) => sub(values[a], values[b], width),
        Gate::Mul(a, b) => mul(values[a], values[b], width),
        Gate::And(a, b) => values[a] & values[b],
        Gate::Or(a, b) => values[a] | values[b],
        Gate::Xor(a, b) => values[a] ^ values[b],
        Gate::Not(a) => not(values[a], width),
        Gate::Eq(a, b) => u128::from(values[a] == values[b]),
        Gate::Lt(a, b) => u128::from(values[a] < values[b]),
        Gate::LtSigned { a, b, width } => u128::from(is_signed_lt(values[a], values[b], width)),
        Gate::Join { high, low, width } => join(values[high], values[low], width),
        Gate::Range { source, hi, lo } => bits(values[source], hi, lo),
        Gate::Choose(c, a, b) => { if values[c] == 0 { values[b] } else { values[a] } }
    }
}

/// Whether a right side reads a signal that is marked.
fn reads_marked(gate: Gate, marks: &[bool]) -> bool
    requires inside { AllByRecursion (λ s. s < length marks.now) (reads_of gate) }
    ensures { result ≡ list_any (is_marked marks.now) (reads_of gate) }
{
    match gate {
        Gate::Hex(_) => false,
        Gate::Copy(a) => marks[a],
        Gate::Add(a, b) => marks[a] || marks[b],
        Gate::Sub(a, b) => marks[a] || marks[b],
        Gate::Mul(a, b) => marks[a] || marks[b],
        Gate::And(a, b) => marks[a] || marks[b],
        Gate::Or(a, b) => marks[a] || marks[b],
        Gate::Xor(a, b) => marks[a] || marks[b],
        Gate::Not(a) => marks[a],
        Gate::Eq(a, b) => marks[a] || marks[b],
        Gate::Lt(a, b) => marks[a] || marks[b],
        Gate::LtSigned { a, b, .. } => marks[a] || marks[b],
        Gate::Join { high, low, .. } => marks[high] || marks[low],
        Gate::Range { source, .. } => marks[source],
        Gate::Choose(c, a, b) => marks[c] || marks[a] || marks[b],
    }
}

/// The value of a cell with this place and width: the one that it has, where nothing that it reads is marked and not all is settled anew.
fn next_value(
    gate: Gate,
    width: u8,
    place: usize,
    anew: bool,
    marks: &[bool],
    values: &[u128],
) -> u128
    requires some { 1 ≤ width }
    requires most { width ≤ 128 }
    requires fits { GateFits (HasPattern values.now) width gate }
    requires inside { place < length values.now }
    requires marked { length marks.now ≡ length values.now }
    requires kept { anew ≡ false → list_any (is_marked marks.now) (reads_of gate) ≡ false → slice_index values.now place ≡ gate_result (slice_index values.now) width gate }
    ensures { result ≡ gate_result (slice_index values.now) width gate }
{
    if anew || reads_marked(gate, marks) {
        gate_value(gate, width, values)
    } else {
        values[place]
    }
}

/// Gives a signal a value, and marks it where that is another one.
fn put(place: usize, value: u128, marks: &mut [bool], values: &mut [u128])
    requires inside { place < length values.old }
    requires marks { length marks.old ≡ length values.old }
    ensures values { values.new ≡ slice_set values.old place value }
    ensures marks { marks.new ≡ slice_set marks.old place (is_marked marks.old place || not (slice_index values.old place == value)) }
{
    if values[place] != value {
        marks[place] = true;
        values[place] = value;
    }
}

/// Gives each cell the value of its right side, in an order in which each stands behind those that it reads. Where not all is settled anew, a cell that
/// reads no signal that is marked keeps its value; a cell is marked where its value changes.
pub(crate) fn run_gates(
    order: &[usize],
    gates: &[Gate],
    widths: &[u8],
    first: usize,
    anew: bool,
    marks: &mut [bool],
    values: &mut [u128],
)
    requires wired { AreWired first gates.now order.now widths.now }
    requires fit { FitWidths widths.now values.old }
    requires marks { length marks.old ≡ length values.old }
    requires marked { anew ≡ false → IsMarked first gates.now widths.now [] marks.old values.old }
    ensures fit { FitWidths widths.now values.new }
    ensures hold { (k : ℕ) → k < length gates.now → GateHolds first gates.now widths.now values.new k }
    ensures others { KeepsOthers first (length gates.now) values.old values.new }
{
    for cell in order {
        let place = first + *cell;
        let value = next_value(gates[*cell], widths[place], place, anew, marks, values);
        put(place, value, marks, values);
    }
}

/// Marks the inputs that change.
fn mark_inputs(inputs: &[Bits], values: &[u128], marks: &mut [bool])
    requires room { length inputs.now ≤ length values.now }
    requires marks { length marks.old ≡ length values.now }
    ensures { (s : ℕ) → s < length inputs.now → is_marked marks.new s ≡ false → slice_index values.now s ≡ slice_index (pattern_values inputs.now) s }
{
    for (i, input) in inputs.iter().enumerate() {
        marks[i] = values[i] != input.raw;
    }
}

/// Marks the banks that change, the first of which stands at this place.
fn mark_banks(banks: &[u128], from: usize, values: &[u128], marks: &mut [bool])
    requires room { from + length banks.now ≡ length values.now }
    requires marks { length marks.old ≡ length values.now }
    ensures marked { (k : ℕ) → k < length banks.now → is_marked marks.new (from + k) ≡ false → slice_index values.now (from + k) ≡ slice_index banks.now k }
    ensures kept { (s : ℕ) → s < from → is_marked marks.new s ≡ is_marked marks.old s }
{
    for (i, bank) in banks.iter().enumerate() {
        marks[from + i] = values[from + i] != *bank;
    }
}

/// Puts the patterns of the inputs in front.
fn load_inputs(values: &mut [u128], inputs: &[Bits])
    requires { length inputs.now ≤ length values.old }
    ensures { values.new ≡ pattern_values inputs.now ++ drop (length inputs.now) values.old }
{
    for (i, input) in inputs.iter().enumerate() {
        values[i] = input.raw;
    }
}

/// Puts the values of the banks at the end.
fn load_banks(values: &mut [u128], from: usize, banks: &[u128])
    requires { from + length banks.now ≡ length values.old }
    ensures { values.new ≡ take from values.old ++ banks.now }
{
    values[from..].copy_from_slice(banks);
}

/// Gives each signal its value for these inputs and banks: to all, or only to what changes where each cell has the value of its right side.
pub(crate) fn settle_values(
    wiring: &Wiring,
    inputs: &[Bits],
    banks: &[u128],
    anew: bool,
    marks: &mut [bool],
    values: &mut [u128],
)
    requires wired { AreWired (length inputs.now) wiring.now.gates.items wiring.now.order.items wiring.now.widths.items }
    requires fit { FitWidths wiring.now.widths.items values.old }
    requires inputs_fit { pattern_widths inputs.now ≡ take (length inputs.now) wiring.now.widths.items }
    requires banks_fit { FitWidths (drop (length inputs.now + length wiring.now.gates.items) wiring.now.widths.items) banks.now }
    requires marks { length marks.old ≡ length values.old }
    requires settled { anew ≡ false → (k : ℕ) → k < length wiring.now.gates.items → GateHolds (length inputs.now) wiring.now.gates.items wiring.now.widths.items values.old k }
    ensures fit { FitWidths wiring.now.widths.items values.new }
    ensures hold { (k : ℕ) → k < length wiring.now.gates.items →
        GateHolds (length inputs.now) wiring.now.gates.items wiring.now.widths.items values.new k }
    ensures inputs { take (length inputs.now) values.new ≡ pattern_values inputs.now }
    ensures banks { drop (length inputs.now + length wiring.now.gates.items) values.new ≡ banks.now }
{
    let first = inputs.len();
    let last = first + wiring.gates.len();
    marks.fill(false);
    mark_inputs(inputs, values, marks);
    mark_banks(banks, last, values, marks);
    load_inputs(values, inputs);
    load_banks(values, last, banks);
    run_gates(
        &wiring.order,
        &wiring.gates,
        &wiring.widths,
        first,
        anew,
        marks,
        values,
    );
}

/// Moves each bank to the value of its source where that of its enable is 1, else to its own, which stands from `own`
/// on.
pub(crate) fn clock_banks(latches: &[Latch], own: usize, values: &[u128], banks: &mut [u128])
    requires lengths { length latches.now ≡ length banks.old }
    requires room { own + length latches.now ≤ length values.now }
    requires in_range { AreWithin (length values.now) latches.now }
    ensures { (k : ℕ) (l : Latch) → slice_get latches.now k ≡ Some l →
        slice_index banks.new k ≡ latched values.now (own + k) l }
{
    for (i, latch) in latches.iter().enumerate() {
        banks[i] = if values[latch.enable] == 1 {
            values[latch.source]
        } else {
            values[own + i]
        };
    }
}
