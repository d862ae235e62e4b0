ghost use Rattle.std.specs.Prelude.{◌≡◌, ◌++◌, fold};
ghost use Rattle.ix_mean.specs.Terms.{same_ty};
ghost use Rattle.ix_graph.specs.Roles.{first_number, second_number, same_kind};
ghost use Rattle.ix_terms.specs.Nodes.{same_node, fed_kind, fed_ty, fed_node};
ghost use Rattle.ix_terms.specs.NodeLaws.{node_equivalence, node_partial, node_fed};

use ix_bits::Ty;
use ix_graph::{Kind, kind_place};
use std::hash::{Hash, Hasher};

/// A term whose arguments are named by their places in a store.
#[derive(Clone, Copy)]
pub enum Node {
    /// A constant, by its pattern.
    Const(Ty, u128),
    /// What is read of the core's state.
    Read(Kind, Ty),
    /// An operator on one number, a range of bits or a cast.
    One(Kind, Ty, u32),
    /// An entry of a table, by the table's number.
    Entry(usize, Ty, u32),
    /// An operator on two numbers, a load, or a write with a value and a condition.
    Two(Kind, Ty, u32, u32),
    /// A choice, or a store with an address, a value and a condition.
    Three(Kind, Ty, u32, u32, u32),
}

impl PartialEq for Node {
    ghost eq = { same_node };

    ghost laws = { node_partial };

    fn eq(&self, other: &Node) -> bool {
        same(*self, *other)
    }
}

impl Eq for Node {
    ghost laws = { node_equivalence };
}

impl Hash for Node {
    ghost hash_input = { fed_node };

    ghost respects_eq = { node_fed };

    fn hash<H: Hasher>(&self, state: &mut H) {
        match self {
            Node::Const(ty, raw) => {
                0u8.hash(state);
                feed_ty(*ty, state);
                raw.hash(state);
            }
            Node::Read(kind, ty) => {
                1u8.hash(state);
                feed_kind(*kind, state);
                feed_ty(*ty, state);
            }
            Node::One(kind, ty, a) => {
                2u8.hash(state);
                feed_kind(*kind, state);
                feed_ty(*ty, state);
                a.hash(state);
            }
            Node::Entry(table, ty, a) => {
                3u8.hash(state);
                feed_ty(*ty, state);
                table.hash(state);
                a.hash(state);
            }
            Node::Two(kind, ty, a, b) => {
                4u8.hash(state);
                feed_kind(*kind, state);
                feed_ty(*ty, state);
                a.hash(state);
                b.hash(state);
            }
            Node::Three(kind, ty, a, b, c) => {
                5u8.hash(state);
                feed_kind(*kind, state);
                feed_ty(*ty, state);
                a.hash(state);
                b.hash(state);
                c.hash(state);
            }
        }
    }
}

// Feeds a kind to a hasher.
fn feed_kind<H: Hasher>(kind: Kind, state: &mut H)
    ensures { state.new ≡ fold H.write state.old (fed_kind kind) }
{
    kind_place(&kind).hash(state);
    first_number(kind).hash(state);
    second_number(kind).hash(state);
}

// Feeds a type to a hasher.
fn feed_ty<H: Hasher>(ty: Ty, state: &mut H)
    ensures { state.new ≡ fold H.write state.old (fed_ty ty) }
{
    ty.signed.hash(state);
    ty.width.hash(state);
}

/// Whether the types are the same.
pub fn same_ty(a: Ty, b: Ty) -> bool
    ensures { result ≡ same_ty a b }
{
    a.signed == b.signed && a.width == b.width
}

// The numbers that a kind has, 0 where it has none.
fn first_number(kind: Kind) -> u16
    ensures { result ≡ first_number kind }
{
    match kind {
        Kind::RdCustReg(register) | Kind::WrCustReg(register) => u16::from(register),
        Kind::Range { hi, .. } => u16::from(hi),
        Kind::Rom(table) => table,
        _ => 0,
    }
}

fn second_number(kind: Kind) -> u8
    ensures { result ≡ second_number kind }
{
    match kind {
        Kind::Range { lo, .. } => lo,
        _ => 0,
    }
}

fn same_kind(a: Kind, b: Kind) -> bool
    ensures { result ≡ same_kind a b }
{
    kind_place(&a) == kind_place(&b)
        && first_number(a) == first_number(b)
        && second_number(a) == second_number(b)
}

// Whether the nodes are the same.
fn same(a: Node, b: Node) -> bool
    ensures { result ≡ same_node a b }
{
    match (a, b) {
        (Node::Const(t, x), Node::Const(u, y)) => same_ty(t, u) && x == y,
        (Node::Read(k, t), Node::Read(l, u)) => same_kind(k, l) && same_ty(t, u),
        (Node::One(k, t, x), Node::One(l, u, y)) => same_kind(k, l) && same_ty(t, u) && x == y,
        (Node::Entry(n, t, x), Node::Entry(m, u, y)) => n == m && same_ty(t, u) && x == y,
        (Node::Two(k, t, x, xx), Node::Two(l, u, y, yy)) => {
            same_kind(k, l) && same_ty(t, u) && x == y && xx == yy
        }
        (Node::Three(k, t, x, xx, xxx), Node::Three(l, u, y, yy, yyy)) => {
            same_kind(k, l) && same_ty(t, u) && x == y && xx == yy && xxx == yyy
        }
        _ => false,
    }
}
