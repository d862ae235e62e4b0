ghost use Rattle.std.specs.Prelude.{◌≡◌, ◌+◌, ◌<◌, [], ◌∷◌, ◌++◌, length, slice_get, Some, IfOk};

use crate::row::Row;
use ix_bits::Memory;
use std::alloc::Global;
use std::marker::Model;

/// The rows of a run, oldest first. All memory is taken when it is made.
#[derive(Drop)]
pub struct Trace {
    rows: Vec<Row>,
    cycles: u32,
}

impl Model for Trace {
    ghost use Rattle.std.specs.Prelude.{◌-◌, ◌≤◌, ◌<◌, ◌^◌, vec_len, vec_capacity};
    ghost use Rattle.rv_trace.specs.History.{History};

    ghost Value = { History };

    ghost view = { λ trace. record { rows = trace.rows.items; spare = trace.cycles - vec_len trace.rows } };

    ghost invariant = { λ trace. (vec_len trace.rows ≤ trace.cycles) × (trace.cycles ≤ vec_capacity trace.rows) × (trace.cycles < 2 ^ 32) };
}

impl Trace {
    /// A trace without rows, with room for so many.
    pub fn new(alloc: Global, cycles: u32) -> Result<Trace, Memory>
        ensures rows { IfOk result (λ trace. trace.rows ≡ []) }
        ensures spare { IfOk result (λ trace. trace.spare ≡ cycles) }
    {
        match Vec::with_capacity(alloc, cycles as usize) {
            Ok(rows) => Ok(Trace { rows, cycles }),
            Err(_) => Err(Memory),
        }
    }

    /// Puts a row behind the last one. Takes no memory.
    pub fn push(&mut self, row: Row)
        requires { 0 < self.old.spare }
        ensures rows { self.new.rows ≡ self.old.rows ++ row ∷ [] }
        ensures spare { self.new.spare + 1 ≡ self.old.spare }
    {
        self.rows.push(row).unwrap();
    }

    /// The count of rows.
    pub fn count(&self) -> u32
        ensures { result ≡ length self.now.rows }
    {
        self.rows.len() as u32
    }

    /// The row of this number, below the count.
    pub fn row(&self, k: u32) -> &Row
        requires { k < length self.now.rows }
        ensures { slice_get self.now.rows k ≡ Some result.now }
    {
        &self.rows[k as usize]
    }
}
