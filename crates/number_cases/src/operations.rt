ghost use Rattle.std.specs.Prelude.{◌≡◌, [], ◌∷◌, List};
ghost use Rattle.ix_bits.specs.declared.number.Ty.{Ty};
ghost use Rattle.ix_graph.specs.declared.graph.Graph.{Graph};
ghost use Rattle.ix_graph.specs.declared.args.Arg.{Arg};
ghost use Rattle.ix_graph.specs.Graphs.{IsTyped, TakesOne, TakesTwo, IsBinaryResult, IsUnaryResult};
ghost use Rattle.ix_graph.specs.Roles.{role_of};
ghost use Rattle.number_cases.specs.Alone.{constant};

use crate::given::Given;
use crate::settled::shown;
use ix_bits::{BinOp, Bits, Memory, Ty, UnOp};
use ix_cells::{Operand, Signal};
use ix_graph::{Arg, Args, Graph, Kind, Op, Role};
use std::alloc::Global;

// A pattern as an argument.
fn argument(given: Given) -> Arg
    ensures { result ≡ constant given }
{
    Arg::Const(given.ty, given.bits)
}

// The operand that an input of the module shows, by the input's number.
fn operand(given: Given, number: usize) -> Operand
    ensures { result.ty ≡ given.ty }
{
    Operand {
        ty: given.ty,
        signal: Signal::Input(number),
    }
}

/// The kind of an operator on two numbers.
pub fn kind_of(op: BinOp) -> Kind
    ensures role { role_of result ≡ Role.Compute }
    ensures typed { (g : Graph) (args : List Arg) (ty : Ty) → TakesTwo g.ops args (λ a b. IsBinaryResult op a b ty) → IsTyped g result args ty }
{
    match op {
        BinOp::Add => Kind::Add,
        BinOp::Sub => Kind::Sub,
        BinOp::Mul => Kind::Mul,
        BinOp::And => Kind::And,
        BinOp::Or => Kind::Or,
        BinOp::Xor => Kind::Xor,
        BinOp::Shl => Kind::Shl,
        BinOp::Shr => Kind::Shr,
        BinOp::Eq => Kind::Eq,
        BinOp::Ne => Kind::Ne,
        BinOp::Lt => Kind::Lt,
        BinOp::Le => Kind::Le,
        BinOp::Gt => Kind::Gt,
        BinOp::Ge => Kind::Ge,
        BinOp::Land => Kind::Land,
        BinOp::Lor => Kind::Lor,
        BinOp::Concat => Kind::Concat,
    }
}

/// The kind of an operator on one number.
pub fn unary_kind(op: UnOp) -> Kind
    ensures role { role_of result ≡ Role.Compute }
    ensures typed { (g : Graph) (args : List Arg) (ty : Ty) → TakesOne g.ops args (λ a. IsUnaryResult op a ty) → IsTyped g result args ty }
{
    match op {
        UnOp::Neg => Kind::Neg,
        UnOp::Not => Kind::Not,
        UnOp::Lnot => Kind::Lnot,
    }
}

/// What the cells of an operation on one number show.
pub fn of_one(
    alloc: Global,
    graph: &Graph,
    kind: Kind,
    a: Given,
    ty: Ty,
) -> Result<Option<Bits>, Memory>
    requires role { role_of kind ≡ Role.Compute }
    requires typed { IsTyped graph.now kind (constant a ∷ []) ty }
{
    let args = Args::of(alloc, &[argument(a)]);
    let op = Op { kind, args, ty };
    shown(alloc, graph, &op, &[operand(a, 0)], &[a.bits])
}

/// What the cells of an operation on two numbers show.
pub fn of_two(
    alloc: Global,
    graph: &Graph,
    kind: Kind,
    a: Given,
    b: Given,
    ty: Ty,
) -> Result<Option<Bits>, Memory>
    requires role { role_of kind ≡ Role.Compute }
    requires typed { IsTyped graph.now kind (constant a ∷ constant b ∷ []) ty }
{
    let args = Args::of(alloc, &[argument(a), argument(b)]);
    let op = Op { kind, args, ty };
    shown(
        alloc,
        graph,
        &op,
        &[operand(a, 0), operand(b, 1)],
        &[a.bits, b.bits],
    )
}

/// What the cells of an operation on three numbers show.
pub fn of_three(
    alloc: Global,
    graph: &Graph,
    kind: Kind,
    a: Given,
    b: Given,
    c: Given,
    ty: Ty,
) -> Result<Option<Bits>, Memory>
    requires role { role_of kind ≡ Role.Compute }
    requires typed { IsTyped graph.now kind (constant a ∷ constant b ∷ constant c ∷ []) ty }
{
    let args = Args::of(alloc, &[argument(a), argument(b), argument(c)]);
    let op = Op { kind, args, ty };
    shown(
        alloc,
        graph,
        &op,
        &[operand(a, 0), operand(b, 1), operand(c, 2)],
        &[a.bits, b.bits, c.bits],
    )
}
