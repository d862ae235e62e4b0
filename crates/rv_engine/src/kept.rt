ghost use Rattle.std.specs.Prelude.{◌≡◌, ℕ, List, Option, is_some, IfOk};
ghost use Rattle.ix_extension.specs.Extensions.{view_extension};
ghost use Rattle.ix_extension.specs.WellFormed.{IsWellFormed};
ghost use Rattle.rv_unit.specs.Numbering.{lasts_of};
ghost use Rattle.rv_unit.specs.Timed.{AreUnits};
ghost use Rattle.rv_engine.specs.Owing.{IsOwingOf};
ghost use Rattle.rv_seq.specs.WordEffects.{AreWide};
ghost use Rattle.rv_engine.specs.Settings.{setting, first_state, first_machine};
ghost use Rattle.rv_engine.specs.Kept.{machine_of, IsFit};

use crate::front::{Front, Kept};
use crate::owing::Owing;
use ix_bits::Memory;
use ix_plan::Design;
use rv_seq::Arch;
use std::alloc::Global;

/// The first state, of a core with an interrupt line or without one.
fn first_arch(alloc: Global, design: &Design, has_line: bool) -> Result<Arch, Memory>
    requires well_formed { IsWellFormed design.now.extension }
    ensures state { (lines : Option (List ℕ)) → has_line ≡ is_some lines → IfOk result (λ arch. arch ≡ first_state (view_extension design.now.extension) lines) }
    ensures wide { IfOk result (λ arch. AreWide (view_extension design.now.extension) arch.custom) }
{
    if has_line {
        Arch::with_trap(alloc, &design.extension)
    } else {
        Arch::new(alloc, &design.extension)
    }
}

/// What a pipeline of a core with an interrupt line, or without one, keeps before its first row. All memory that its rows use is taken here.
pub fn first_kept(alloc: Global, design: &Design, has_line: bool) -> Result<Kept, Memory>
    requires well_formed { IsWellFormed design.now.extension }
    requires units { AreUnits design.now.sheet.shape.stages (lasts_of design.now.plans) }
    ensures machine { (image waits : List ℕ) (lines : Option (List ℕ)) → has_line ≡ is_some lines → IfOk result (λ kept. machine_of design.now.sheet.shape kept ≡ first_machine (setting design.now image waits lines)) }
    ensures units { IfOk result (λ kept. IsOwingOf design.now kept.owing) }
    ensures fit { (image waits : List ℕ) (lines : Option (List ℕ)) → IfOk result (λ kept. IsFit (setting design.now image waits lines) (machine_of design.now.sheet.shape kept)) }
{
    let owing = Owing::new(alloc, design)?;
    match first_arch(alloc, design, has_line) {
        Ok(arch) => {
            let future = arch.custom;
            Ok(Kept {
                slots: [None; 5],
                front: Front {
                    fetch: 0,
                    next: 0,
                    accesses: 0,
                    stood: 0,
                    rows: 0,
                    waiting: false,
                },
                future,
                arch,
                owing,
            })
        }
        Err(error) => Err(error),
    }
}
