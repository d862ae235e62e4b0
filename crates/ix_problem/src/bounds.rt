ghost use Rattle.std.specs.Prelude.{◌≡◌, ◌++◌, IfOk, OnOk, length, map};
ghost use Rattle.std.specs.List.{range_with_len};
ghost use Rattle.ix_sheet.specs.declared.problem.Bound.TheVariants.{Early, Late, Dep};
ghost use Rattle.ix_sheet.specs.Schedules.{IsValidProblem};
ghost use Rattle.ix_problem.specs.Constraints.{AreConstraints, MeetWhereLegal};

use crate::chains::push_chains;
use ix_bits::{List, Memory};
use ix_sheet::{Bound, Problem};
use std::alloc::Global;

/// The constraints of a valid problem: its windows, its edges, and chains. Times meet them all exactly where they are a legal
/// schedule. There is one chain at most for each pair of ends, along a path of the greatest delay.
pub fn constraints(alloc: Global, p: &Problem) -> Result<List<Bound>, Memory>
    requires { IsValidProblem p.now }
    ensures are { IfOk result (AreConstraints p.now) }
    ensures legal { IfOk result (MeetWhereLegal p.now) }
{
    let mut bounds = List::new(alloc);
    push_earlies(p, &mut bounds)?;
    push_lates(p, &mut bounds)?;
    push_edges(p, &mut bounds)?;
    push_chains(alloc, p, &mut bounds)?;
    Ok(bounds)
}

fn push_earlies(p: &Problem, bounds: &mut List<Bound>) -> Result<(), Memory>
    requires { IsValidProblem p.now }
    ensures { OnOk result (bounds.new ≡ bounds.old ++ map Early (range_with_len 0 (length p.now.ops))) }
{
    'ops: for op in 0..p.ops.len() {
        bounds.push(Bound::Early(op as u32))?;
    }
    Ok(())
}

fn push_lates(p: &Problem, bounds: &mut List<Bound>) -> Result<(), Memory>
    requires { IsValidProblem p.now }
    ensures { OnOk result (bounds.new ≡ bounds.old ++ map Late (range_with_len 0 (length p.now.ops))) }
{
    'ops: for op in 0..p.ops.len() {
        bounds.push(Bound::Late(op as u32))?;
    }
    Ok(())
}

fn push_edges(p: &Problem, bounds: &mut List<Bound>) -> Result<(), Memory>
    ensures { OnOk result (bounds.new ≡ bounds.old ++ map (λ e. Dep e.0 e.1) p.now.edges) }
{
    'edges: for edge in p.edges.as_slice() {
        bounds.push(Bound::Dep(edge.0, edge.1))?;
    }
    Ok(())
}
