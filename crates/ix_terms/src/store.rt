ghost use Rattle.std.specs.Prelude.{◌≡◌, ◌<◌, ◌≤◌, [], length, IfOk};
ghost use Rattle.ix_mean.specs.Terms.{same_term};
ghost use Rattle.ix_terms.specs.Stores.{at, size, decode, stock_of, ArgsBelow, AreDistinct, Has};

use crate::Node;
use indexmap::IndexSet;
use ix_bits::{Bits, List, Memory};
use std::alloc::Global;
use std::marker::Model;

/// The greatest count of terms.
const MOST: usize = 4_000_000_000;

/// Distinct terms, each at a place, with its arguments before it, over the tables of an extension.
#[derive(Drop)]
pub struct Store {
    tables: List<List<Bits>>,
    nodes: IndexSet<Node>,
}

impl Model for Store {
    ghost use Rattle.ix_terms.specs.Stores.{Held, IsKept};

    ghost Value = { Held };

    ghost view = { λ s. record { tables = s.tables; nodes = s.nodes.keys } };

    ghost invariant = { λ s. IsKept (record { tables = s.tables; nodes = s.nodes.keys }) };
}

impl Store {
    /// A store without terms.
    pub fn new(alloc: Global, tables: List<List<Bits>>) -> Store
        ensures tables { result.tables ≡ tables }
        ensures empty { result.nodes ≡ [] }
    {
        Store {
            tables,
            nodes: IndexSet::new(alloc),
        }
    }

    /// The tables.
    pub fn tables(&self) -> &[List<Bits>]
        ensures { result.now ≡ (stock_of self.now).tables }
    {
        self.tables.as_slice()
    }

    /// The tables, for which the terms are given up.
    pub fn into_tables(self) -> List<List<Bits>>
        ensures { result ≡ (stock_of self).tables }
    {
        let Store { tables, nodes: _ } = self;
        tables
    }

    /// The node at a place.
    pub fn node(&self, k: u32) -> Node
        requires { k < size (stock_of self.now) }
        ensures below { ArgsBelow k result }
        ensures term { at (stock_of self.now) k ≡ decode (stock_of self.now) result }
    {
        self.nodes.as_slice()[k as usize]
    }

    /// Whether the terms at two places are the same: no term stands at two.
    pub fn is_at(&self, j: u32, k: u32) -> bool
        requires first { j < size (stock_of self.now) }
        requires second { k < size (stock_of self.now) }
        ensures { result ≡ same_term (at (stock_of self.now) j) (at (stock_of self.now) k) }
    {
        let _nodes = &self.nodes;
        j == k
    }

    /// It does nothing, and says that no term stands at two places.
    pub fn same_as_place(&self)
        ensures { AreDistinct (stock_of self.now) }
    {
        let _nodes = &self.nodes;
    }

    /// The place of a node's term, which is put behind the others where the store has it not yet.
    pub fn put(&mut self, node: Node) -> Result<u32, Memory>
        requires { ArgsBelow (size (stock_of self.old)) node }
        ensures { IfOk result (λ k. Has (stock_of self.old) (stock_of self.new) k (decode (stock_of self.old) node)) }
    {
        if self.nodes.len() >= MOST {
            return Err(Memory);
        }
        let (k, _) = self.nodes.insert_full(node)?;
        Ok(k as u32)
    }
}
