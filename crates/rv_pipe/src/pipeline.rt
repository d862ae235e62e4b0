ghost use Rattle.std.specs.Option.{option_copied};
ghost use Rattle.std.specs.Prelude.{◌≡◌, ◌+◌, ◌<◌, ◌^◌, None, true, slice_get, IfOk};
ghost use Rattle.ix_standing.specs.Standing.{Stands};
ghost use Rattle.rv_engine.specs.Rows.{IsRowOf, machine_after};
ghost use Rattle.rv_engine.specs.Settings.{setting, first_machine};
ghost use Rattle.rv_engine.specs.Showing.{shown_of};
ghost use Rattle.rv_machine.specs.Owing.{targets_owed};

use crate::outstanding::nth_owed;
use ix_behaviour::behaviour_laws;
use ix_bits::{Bits, Memory};
use ix_eval::Scratch;
use ix_plan::{Design, Target};
use rv_asks::{Asking, asking_of};
use rv_engine::{Kept, first_kept, make_row};
use rv_isa::Image;
use rv_ports::Shown;
use rv_seq::Arch;
use rv_sight::sight_laws;
use rv_trace::Row;
use rv_waits::{Lines, Waits};
use std::alloc::Global;
use std::marker::Model;

/// A pipeline with the extension of a design over an image, as it stands between two rows. It keeps none of the rows that it made. All memory is taken when it is made.
#[derive(Drop)]
pub(crate) struct Pipeline<'a> {
    design: &'a Design,
    words: &'a [u32],
    waits: &'a Waits,
    lines: Option<&'a Lines>,
    asking: Asking,
    scratch: Scratch,
    kept: Kept,
}

impl<'a> Model for Pipeline<'a> {
    ghost use Rattle.std.specs.Option.{option_copied};
    ghost use Rattle.std.specs.Coded.{codes};
    ghost use Rattle.ix_tree.specs.contracts.typed.TypedStmtKind as statements;
    ghost use Rattle.rv_engine.specs.Kept.{machine_of};
    ghost use Rattle.rv_engine.specs.Settings.{setting};
    ghost use Rattle.rv_pipe.specs.Machines.{Between, IsSteady};

    ghost Value = { Between };

    ghost coded = { Prim.hlevel (codes, statements.the_row.coded) };

    ghost view = { λ p. record { setting = setting p.design.now p.words.now p.waits.now (option_copied p.lines); machine = machine_of p.design.now.sheet.shape p.kept } };

    ghost invariant = { λ p. IsSteady (setting p.design.now p.words.now p.waits.now (option_copied p.lines)) p.asking p.scratch p.kept };
}

/// A row in which nothing happens.
pub(crate) fn quiet() -> Row
    ensures retired { result.retired ≡ None }
    ensures written { result.written ≡ None }
{
    Row {
        cells: [None; 5],
        retired: None,
        written: None,
        flushed: [None; 5],
        redirect: None,
        taken: None,
        stop: None,
    }
}

/// Takes back what a row shows of a retirement and of outstanding writes: most rows show neither, and then nothing is written.
fn clear(row: &mut Row)
    ensures retired { row.new.retired ≡ None }
    ensures written { row.new.written ≡ None }
{
    if row.retired.is_some() {
        row.retired = None;
    }
    if row.written.is_some() {
        row.written = None;
    }
}

/// What a row without cells and values shows.
pub(crate) fn nothing_shown() -> Shown {
    Shown {
        seats: [None; 5],
        custom: [Bits { raw: 0, width: 1 }; 16],
        datum: 0,
        frozen: [false; 64],
    }
}

impl<'a> Pipeline<'a> {
    /// A pipeline before its first row, over a memory with these waits, with this interrupt line, if there is one.
    pub(crate) fn new(
        alloc: Global,
        design: &'a Design,
        image: &'a Image,
        waits: &'a Waits,
        lines: Option<&'a Lines>,
    ) -> Result<Pipeline<'a>, Memory>
        requires stands { Stands design.now }
        ensures setting { IfOk result (λ p. p.setting ≡ setting design.now image.now waits.now (option_copied lines.entry)) }
        ensures machine { IfOk result (λ p. p.machine ≡ first_machine (setting design.now image.now waits.now (option_copied lines.entry))) }
    {
        behaviour_laws();
        sight_laws();
        let asking = asking_of(alloc, design)?;
        let scratch = Scratch::new(alloc, &design.extension)?;
        let kept = first_kept(alloc, design, lines.is_some())?;
        Ok(Pipeline {
            design,
            words: image.as_slice(),
            waits,
            lines,
            asking,
            scratch,
            kept,
        })
    }

    /// Puts one more row in place of the last one, and where modules are there to see it, what it shows them. Takes no memory.
    pub(crate) fn cycle(&mut self, shows: bool, shown: &mut Shown, row: &mut Row)
        requires room { self.old.machine.rows + 1 < 2 ^ 32 }
        ensures row { IsRowOf self.old.setting self.old.machine row.new }
        ensures shown { shows ≡ true → shown.new ≡ shown_of self.old.setting self.old.machine }
        ensures setting { self.new.setting ≡ self.old.setting }
        ensures after { self.new.machine ≡ machine_after self.old.setting self.old.machine }
    {
        clear(row);
        make_row(
            self.design,
            &self.asking,
            self.words,
            self.waits,
            self.lines,
            &mut self.kept,
            &mut self.scratch,
            row,
            shows,
            shown,
        );
    }

    /// The architectural state after the last row.
    pub(crate) fn arch(&self) -> &Arch
        ensures { result.now ≡ self.now.machine.arch }
    {
        &self.kept.arch
    }

    /// The k-th register with an outstanding write after the last row, in the order of retirement, with the serial of its instruction; none where there are no more than k.
    pub(crate) fn outstanding(&self, k: u32) -> Option<(u32, Target)>
        ensures { result ≡ slice_get (targets_owed self.now.machine.owed) k }
    {
        match nth_owed(self.kept.owing.owed(), k) {
            Ok(found) => Some(found),
            Err(_) => None,
        }
    }
}
