ghost use Rattle.std.specs.Prelude.{◌≡◌, ◌+◌, ◌<◌, ◌↔◌, IsTrue, length, Contains, IfOk, MatchOption, MatchBool};
ghost use Rattle.ix_net.specs.Gates.{reads_of};
ghost use Rattle.ix_net.specs.Order.{IsOrder, IsResting, Waits, AreDone, Visits, HasLoop};

use crate::gates::Gate;
use ix_bits::Memory;
use std::alloc::Global;

/// How far the search has come with a cell.
#[derive(Clone, Copy, Debug)]
pub enum Mark {
    New,
    /// On the path that is searched.
    Open,
    /// In the order, behind all that it reads.
    Done,
}

fn is_new(mark: Mark) -> bool
    ensures { IsTrue result ↔ (mark ≡ Mark.New) }
{
    match mark {
        Mark::New => true,
        Mark::Open => false,
        Mark::Done => false,
    }
}

fn is_open(mark: Mark) -> bool
    ensures { IsTrue result ↔ (mark ≡ Mark.Open) }
{
    match mark {
        Mark::New => false,
        Mark::Open => true,
        Mark::Done => false,
    }
}

/// The signal as a cell, where it is one that is not done.
fn waiting_cell(signal: usize, first: usize, marks: &[Mark]) -> Option<usize>
    ensures { MatchOption result (AreDone (λ k. signal ≡ first + k) marks.now) (Waits (λ k. signal ≡ first + k) marks.now) }
{
    if signal < first {
        return None;
    }
    let cell = signal - first;
    if cell >= marks.len() {
        return None;
    }
    match marks[cell] {
        Mark::Done => None,
        Mark::New => Some(cell),
        Mark::Open => Some(cell),
    }
}

/// The first of the signals that is a cell which is not done.
fn first_waiting(signals: &[usize], first: usize, marks: &[Mark]) -> Option<usize>
    ensures { MatchOption result (AreDone (λ k. Contains signals.now (first + k)) marks.now)
        (Waits (λ k. Contains signals.now (first + k)) marks.now) }
{
    for signal in signals {
        if let Some(cell) = waiting_cell(*signal, first, marks) {
            return Some(cell);
        }
    }
    None
}

/// A cell that a gate reads and that is not done.
fn waits_for(gate: Gate, first: usize, marks: &[Mark]) -> Option<usize>
    ensures { MatchOption result (AreDone (λ k. Contains (reads_of gate) (first + k)) marks.now)
        (Waits (λ k. Contains (reads_of gate) (first + k)) marks.now) }
{
    match gate {
        Gate::Hex(_) => None,
        Gate::Copy(a) => first_waiting(&[a], first, marks),
        Gate::Add(a, b) => first_waiting(&[a, b], first, marks),
        Gate::Sub(a, b) => first_waiting(&[a, b], first, marks),
        Gate::Mul(a, b) => first_waiting(&[a, b], first, marks),
        Gate::And(a, b) => first_waiting(&[a, b], first, marks),
        Gate::Or(a, b) => first_waiting(&[a, b], first, marks),
        Gate::Xor(a, b) => first_waiting(&[a, b], first, marks),
        Gate::Not(a) => first_waiting(&[a], first, marks),
        Gate::Eq(a, b) => first_waiting(&[a, b], first, marks),
        Gate::Lt(a, b) => first_waiting(&[a, b], first, marks),
        Gate::LtSigned { a, b, width: _ } => first_waiting(&[a, b], first, marks),
        Gate::Join {
            high,
            low,
            width: _,
        } => first_waiting(&[high, low], first, marks),
        Gate::Range {
            source,
            hi: _,
            lo: _,
        } => first_waiting(&[source], first, marks),
        Gate::Choose(c, a, b) => first_waiting(&[c, a, b], first, marks),
    }
}

/// Puts a cell into the order, and before it all that it reads; false where a cell is found to depend on itself.
fn visit(
    alloc: Global,
    root: usize,
    gates: &[Gate],
    first: usize,
    marks: &mut [Mark],
    order: &mut Vec<usize>,
) -> Result<bool, Memory>
    requires lengths { length marks.old ≡ length gates.now }
    requires root_new { root < length gates.now }
    requires resting { IsResting first gates.now marks.old order.old.items }
    ensures { IfOk result (λ done.
        MatchBool done (Visits first gates.now marks.old marks.new order.new.items root) (HasLoop first gates.now)) }
{
    let mut path = Vec::new(alloc);
    path.push(root)?;
    marks[root] = Mark::Open;
    while let Some(cell) = path.pop() {
        match waits_for(gates[cell], first, marks) {
            None => {
                order.push(cell)?;
                marks[cell] = Mark::Done;
            }
            Some(next) => {
                path.push(cell)?;
                if is_open(marks[next]) {
                    return Ok(false);
                }
                path.push(next)?;
                marks[next] = Mark::Open;
            }
        }
    }
    Ok(true)
}

/// An order of the cells in which each stands behind those that it reads; None where a cell depends on itself.
pub(crate) fn order_of(
    alloc: Global,
    gates: &[Gate],
    first: usize,
) -> Result<Option<Vec<usize>>, Memory>
    ensures { IfOk result (λ o. MatchOption o (HasLoop first gates.now) (λ order. IsOrder first gates.now order.items)) }
{
    let mut marks = vec![in alloc; Mark::New; gates.len()]?;
    let mut order = Vec::with_capacity(alloc, gates.len())?;
    for root in 0..gates.len() {
        if !is_new(marks[root]) {
            continue;
        }
        if !visit(alloc, root, gates, first, &mut marks, &mut order)? {
            return Ok(None);
        }
    }
    Ok(Some(order))
}
