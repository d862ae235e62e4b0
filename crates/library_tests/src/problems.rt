ghost use Rattle.std.specs.Prelude.{◌≤◌, IfOk};
ghost use Rattle.ix_graph.specs.Graphs.{IsValidGraph};
ghost use Rattle.ix_sheet.specs.Schedules.{IsValidProblem};

use ix_bits::{Bits, List, Memory, Ty};
use ix_graph::{Arg, Args, Graph, Kind, Mode, Op};
use ix_problem::{constraints, problem_of};
use ix_sheet::{Bound, Node, Problem, read_sheet};
use std::alloc::Global;
use std::test::Fail;

const WORD: Ty = Ty {
    signed: false,
    width: 32,
};

const BIT: Ty = Ty {
    signed: false,
    width: 1,
};

// `X[rd] = (unsigned<32>)(X[rs1] + X[rs2]);`
fn addition(alloc: Global) -> Result<Graph, Memory>
    ensures { IfOk result IsValidGraph }
{
    let sum = Ty {
        signed: false,
        width: 33,
    };
    let one = Arg::Const(BIT, Bits { raw: 1, width: 1 });
    let ops = vec![in alloc;
        Op {
            kind: Kind::RdRS1,
            args: Args::of(alloc, &[]),
            ty: WORD
        },
        Op {
            kind: Kind::RdRS2,
            args: Args::of(alloc, &[]),
            ty: WORD
        },
        Op {
            kind: Kind::Add,
            args: Args::of(alloc, &[Arg::Op(0), Arg::Op(1)]),
            ty: sum
        },
        Op {
            kind: Kind::Cast,
            args: Args::of(alloc, &[Arg::Op(2)]),
            ty: WORD
        },
        Op {
            kind: Kind::WrRD,
            args: Args::of(alloc, &[Arg::Op(3), one]),
            ty: BIT
        },
    ]?;
    let spawned = vec![in alloc; false, false, false, false, false]?;
    Ok(Graph {
        ops: List::from_vec(ops),
        spawned: List::from_vec(spawned),
        tables: List::new(alloc),
    })
}

// The problem of an addition in the pipeline, by a sheet of five stages with these delays.
fn problem_by(alloc: Global, text: &[u8]) -> Result<Problem, Fail>
    ensures { IfOk result IsValidProblem }
{
    let sheet = read_sheet(alloc, text)?;
    let graph = addition(alloc)?;
    Ok(problem_of(alloc, &graph, &sheet, Mode::InPipeline)?)
}

#[test]
fn problem_of_an_addition(rt: HostRuntime) -> Result<(), Fail> {
    let problem = problem_by(
        rt.alloc(),
        b"core = \"five\"\nperiod = 1000\n[delay]\nadd = 300\nmul = 600\n",
    )?;
    let nodes = [(0, 1, 2), (0, 1, 2), (300, 1, 64), (0, 1, 64), (0, 2, 4)];
    for (at, (delay, early, late)) in nodes.iter().enumerate() {
        let node = Node {
            delay: *delay,
            latency: 0,
            weight: 1,
            early: *early,
            late: *late,
        };
        assert_eq!(rt; problem.ops.as_slice().get(at), Some(&node), "at {at}");
    }
    assert_eq!(rt; problem.ops.len(), 5);
    let edges = [(0, 2), (1, 2), (2, 3), (3, 4)];
    assert_eq!(rt; problem.edges.as_slice(), edges.as_slice());
    assert_eq!(rt; problem.period, 1000);
    Ok(())
}

// Whether the constraints of a problem of five operations and four edges are its windows, its edges, and then these chains.
fn has_chains(alloc: Global, text: &[u8], chains: &[&[u32]]) -> Result<bool, Fail> {
    let problem = problem_by(alloc, text)?;
    let bounds = constraints(alloc, &problem)?;
    let mut right = bounds.len() == 14 + chains.len();
    for (at, bound) in bounds.as_slice().iter().enumerate() {
        right = right
            && match bound {
                Bound::Early(op) => *op as usize == at,
                Bound::Late(op) => *op as usize + 5 == at,
                Bound::Dep(from, to) => {
                    at >= 10 && problem.edges.as_slice().get(at - 10) == Some(&(*from, *to))
                }
                Bound::Chain(path) => at >= 14 && chains.get(at - 14) == Some(&path.as_slice()),
            };
    }
    Ok(right)
}

#[test]
fn chains(rt: HostRuntime) -> Result<(), Fail> {
    let alloc = rt.alloc();
    let none = b"core = \"five\"\nperiod = 1000\n[delay]\nadd = 1000\n";
    assert!(rt; has_chains(alloc, none, &[])?);
    let one = b"core = \"five\"\nperiod = 1000\n[delay]\nadd = 1200\n";
    assert!(rt; has_chains(alloc, one, &[&[0, 2], &[1, 2], &[2]])?);
    let two = b"core = \"five\"\nperiod = 1000\n[delay]\nadd = 600\ncast = 600\n";
    assert!(rt; has_chains(alloc, two, &[&[0, 2, 3], &[1, 2, 3], &[2, 3]])?);
    Ok(())
}
