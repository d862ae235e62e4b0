ghost use Rattle.std.specs.Prelude.{◌≡◌};
ghost use Rattle.ix_tree.specs.Lexing.{same_bytes};
ghost use Rattle.ix_tree.specs.View.{view};
ghost use Rattle.ix_typing.specs.SameTrees.{binary_number_of, unary_number_of, same_kind, same_cast, same_literal, same_tree};

use ix_bits::{BinOp, Bits, Name, Ty, UnOp};
use ix_tree::{CastTo, Expr, ExprKind, TypeKind};

fn place_of_binary(op: BinOp) -> u8
    ensures { result ≡ binary_number_of op }
{
    match op {
        BinOp::Add => 0,
        BinOp::Sub => 1,
        BinOp::Mul => 2,
        BinOp::And => 3,
        BinOp::Or => 4,
        BinOp::Xor => 5,
        BinOp::Shl => 6,
        BinOp::Shr => 7,
        BinOp::Eq => 8,
        BinOp::Ne => 9,
        BinOp::Lt => 10,
        BinOp::Le => 11,
        BinOp::Gt => 12,
        BinOp::Ge => 13,
        BinOp::Land => 14,
        BinOp::Lor => 15,
        BinOp::Concat => 16,
    }
}

fn place_of_unary(op: UnOp) -> u8
    ensures { result ≡ unary_number_of op }
{
    match op {
        UnOp::Neg => 0,
        UnOp::Not => 1,
        UnOp::Lnot => 2,
    }
}

fn is_same_type(a: TypeKind, b: TypeKind) -> bool
    ensures { result ≡ same_kind a b }
{
    match (a, b) {
        (TypeKind::Signed(v), TypeKind::Signed(w)) => v == w,
        (TypeKind::Unsigned(v), TypeKind::Unsigned(w)) => v == w,
        (TypeKind::Int, TypeKind::Int) => true,
        (TypeKind::Bool, TypeKind::Bool) => true,
        _ => false,
    }
}

fn is_same_cast(a: CastTo, b: CastTo) -> bool
    ensures { result ≡ same_cast a b }
{
    match (a, b) {
        (CastTo::Written(v), CastTo::Written(w)) => is_same_type(v.kind, w.kind),
        (CastTo::Signed, CastTo::Signed) => true,
        (CastTo::Unsigned, CastTo::Unsigned) => true,
        _ => false,
    }
}

fn is_same_literal(a: Ty, x: Bits, b: Ty, y: Bits) -> bool
    ensures { result ≡ same_literal a x b y }
{
    a.signed == b.signed && a.width == b.width && x.raw == y.raw && x.width == y.width
}

pub fn is_same_name(m: &Name, n: &Name) -> bool
    ensures { result ≡ same_bytes m.now n.now }
{
    m.as_str() == n.as_str()
}

/// Whether two expressions are the same but for their spans.
pub fn is_same(a: &Expr, b: &Expr) -> bool
    ensures { result ≡ same_tree (view a.now) (view b.now) }
{
    match (&a.kind, &b.kind) {
        (ExprKind::Literal(s, x), ExprKind::Literal(t, y)) => is_same_literal(*s, *x, *t, *y),
        (ExprKind::Name(m), ExprKind::Name(n)) => is_same_name(m, n),
        (ExprKind::Pc, ExprKind::Pc) => true,
        (ExprKind::X, ExprKind::X) => true,
        (ExprKind::Mem, ExprKind::Mem) => true,
        (ExprKind::Index(x, i), ExprKind::Index(y, j)) => is_same(x, y) && is_same(i, j),
        (ExprKind::Range(x, h, l), ExprKind::Range(y, i, j)) => {
            is_same(x, y) && is_same(h, i) && is_same(l, j)
        }
        (ExprKind::Unary(o, x), ExprKind::Unary(p, y)) => {
            place_of_unary(*o) == place_of_unary(*p) && is_same(x, y)
        }
        (ExprKind::Cast(t, x), ExprKind::Cast(u, y)) => is_same_cast(*t, *u) && is_same(x, y),
        (ExprKind::Binary(o, x, v), ExprKind::Binary(p, y, w)) => {
            place_of_binary(*o) == place_of_binary(*p) && is_same(x, y) && is_same(v, w)
        }
        (ExprKind::Choose(c, x, v), ExprKind::Choose(d, y, w)) => {
            is_same(c, d) && is_same(x, y) && is_same(v, w)
        }
        _ => false,
    }
}
