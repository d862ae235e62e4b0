ghost use Rattle.std.specs.Prelude.{List, ◌≡◌, [], ◌∷◌, None, IfOk};
ghost use Rattle.ix_extension.specs.Extensions.{view_extension};
ghost use Rattle.ix_extension.specs.WellFormed.{IsWellFormed};
ghost use Rattle.ix_eval.specs.Scratches.{IsScratchOf};
ghost use Rattle.rv_seq.specs.WordEffects.{AreWide};
ghost use Rattle.rv_seq.specs.States.{first};
ghost use Rattle.rv_trace.specs.declared.row.Row.{Row as TraceRow};
ghost use Rattle.rv_lawful.specs.Settings.{Setting};
ghost use Rattle.rv_lawful.specs.LawfulTrace.{plain_fetch};
ghost use Rattle.rv_past.specs.Making.{IsStored, IsWrittenWide};
ghost use Rattle.rv_past.specs.Past.{IsPast, JumpsSo, IsRetiredStep, IsExecutedStep};

use crate::due::Due;
use crate::filing::{executing, file_row, going_on};
use crate::guessing::guess_behind;
use crate::paying::{pay_written, retire};
use ix_bits::{Bits, Memory};
use ix_eval::Scratch;
use ix_tree::Extension;
use rv_core::Shape;
use rv_seq::Arch;
use rv_trace::Row;
use std::alloc::Global;

/// The states behind the rows so far.
#[derive(Drop)]
pub struct Past {
    /// The architectural state.
    pub arch: Arch,
    /// The custom registers as a cell that comes to EX reads them.
    pub file: [Bits; 16],
}

impl Past {
    /// The states before the first row, with a well-formed extension and no interrupt line.
    pub fn new(alloc: Global, ext: &Extension) -> Result<Past, Memory>
        requires { IsWellFormed ext.now }
        ensures { (k : Setting) → k.entries ≡ None → k.initial ≡ (first (view_extension ext.now)).custom → IfOk result (IsPast (view_extension ext.now) k []) }
    {
        let arch = Arch::new(alloc, ext)?;
        let file = arch.custom;
        Ok(Past { arch, file })
    }

    /// The address that is fetched behind a row where the row names none; `fetch` is the address that
    /// is fetched in it. The scratch is of this extension, and so are the widths of the registers. It
    /// takes no memory.
    pub fn plain(
        &self,
        ext: &Extension,
        shape: Shape,
        row: &Row,
        fetch: u32,
        scratch: &mut Scratch,
    ) -> u32
        requires well_formed { IsWellFormed ext.now }
        requires wide { AreWide (view_extension ext.now) self.now.file }
        requires scratch { IsScratchOf (view_extension ext.now) scratch.old }
        ensures scratch { IsScratchOf (view_extension ext.now) scratch.new }
        ensures plain { (k : Setting) (earlier : List TraceRow) → k.shape ≡ shape → JumpsSo (view_extension ext.now) k → IsPast (view_extension ext.now) k earlier self.now → result ≡ plain_fetch k earlier fetch row.now }
    {
        match going_on(row, row.cells[0]) {
            None => fetch,
            Some(cell) => guess_behind(ext, shape, &self.file, &self.arch.mem, &cell, scratch),
        }
    }

    /// One row more, where these are the steps of what it retires and of the cell that leaves EX in
    /// it. It takes no memory.
    pub fn next(&mut self, ext: &Extension, shape: Shape, row: &Row, retired: &Due, executed: &Due)
        requires well_formed { IsWellFormed ext.now }
        requires stored { IsStored row.now.retired }
        ensures { (k : Setting) (earlier : List TraceRow) → k.shape ≡ shape → row.now.taken ≡ None → IsRetiredStep (view_extension ext.now) k earlier row.now retired.now → IsExecutedStep (view_extension ext.now) k earlier row.now executed.now → IsWrittenWide (view_extension ext.now) row.now.written → IsPast (view_extension ext.now) k earlier self.old → IsPast (view_extension ext.now) k (row.now ∷ earlier) self.new }
    {
        retire(ext, retired, &row.retired, &mut self.arch);
        pay_written(&row.written, &mut self.arch);
        let cell = executing(shape, row);
        file_row(row, cell, retired, executed, &mut self.file);
    }
}
