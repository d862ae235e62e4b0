ghost use Rattle.std.specs.Prelude.{◌≡◌};
ghost use Rattle.ix_sheet.specs.Schedules.{IsValidProblem};
ghost use Rattle.ix_sheet.specs.Bounds.{IsBoundOf, arc_of};

use ix_bits::List;

/// An operation as a schedule sees it.
#[derive(Clone, Copy, Debug, PartialEq, Eq)]
pub struct Node {
    /// In the unit of the period.
    pub delay: u32,
    /// In times: how long after its own time the result is there.
    pub latency: u8,
    /// What it costs to keep the result for one time: 1 to 128, the result's width in bits, or 1.
    pub weight: u8,
    /// The first time that it may have.
    pub early: u8,
    /// The last time that it may have. The window is empty where this is before the first.
    pub late: u8,
}

/// What a schedule obeys: the operations, the edges (from, to) along which results go, and the longest delay within one time.
#[derive(Debug, Drop)]
pub struct Problem {
    pub ops: List<Node>,
    pub edges: List<(u32, u32)>,
    pub period: u32,
}

/// An inequality that each legal schedule of a problem meets, by the operations that it is about.
#[derive(Debug, Drop)]
pub enum Bound {
    /// The operation's time is not before its window.
    Early(u32),
    /// The operation's time is not after its window.
    Late(u32),
    /// The second operation's time is not before the first one's result.
    Dep(u32, u32),
    /// The last operation of the path is at a later time than the first: the delays along the path pass the period.
    Chain(List<u32>),
}

/// An inequality between two times: the time of `to` less the time of `from` is at least `up` less `down`.
/// The number after the last operation is the root, whose time is 0.
#[derive(Clone, Copy, Debug, PartialEq, Eq)]
pub struct Arc {
    pub from: u32,
    pub to: u32,
    pub up: u32,
    pub down: u32,
}

/// The inequality that a bound of a problem is.
pub fn arc_of_bound(problem: &Problem, bound: &Bound) -> Arc
    requires valid { IsValidProblem problem.now }
    requires of { IsBoundOf problem.now bound.now }
    ensures { result ≡ arc_of problem.now bound.now }
{
    let ops = problem.ops.as_slice();
    let root = ops.len() as u32;
    match bound {
        Bound::Early(op) => Arc {
            from: root,
            to: *op,
            up: u32::from(ops[*op as usize].early),
            down: 0,
        },
        Bound::Late(op) => Arc {
            from: *op,
            to: root,
            up: 0,
            down: u32::from(ops[*op as usize].late),
        },
        Bound::Dep(from, to) => Arc {
            from: *from,
            to: *to,
            up: u32::from(ops[*from as usize].latency),
            down: 0,
        },
        Bound::Chain(path) => {
            let path = path.as_slice();
            Arc {
                from: path[0],
                to: path[path.len() - 1],
                up: 1,
                down: 0,
            }
        }
    }
}
