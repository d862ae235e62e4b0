ghost use Rattle.std.specs.Prelude.{◌≡◌, false, IfOk};
ghost use Rattle.ix_extension.specs.Extensions.{view_extension};
ghost use Rattle.ix_sheet.specs.Sheets.{IsValidSheet};
ghost use Rattle.rv_core.specs.Kinds.{HasNumbers};
ghost use Rattle.rv_seq.specs.Bare.{bare};
ghost use Rattle.ix_tool.specs.PlainDesign.{IsPlain};

use ix_bits::{List, Memory, Name};
use ix_plan::Design;
use ix_sheet::{Sheet, native_windows};
use ix_tree::Extension;
use rv_core::CoreKind;
use std::alloc::Global;

// A datasheet of the core of three stages, whose operations take no time.
fn plain_sheet() -> Sheet
    ensures valid { IsValidSheet result }
    ensures shape { HasNumbers result.shape 3 1 1 2 false }
{
    let shape = CoreKind::Three.shape();
    Sheet {
        shape,
        period: 1,
        weighted: false,
        delay: [0; 34],
        window: native_windows(shape),
    }
}

// The extension without sections.
fn plain_extension(alloc: Global) -> Result<Extension, Memory>
    ensures { IfOk result (λ x. view_extension x ≡ bare) }
{
    Ok(Extension {
        name: Name::from_text(alloc, "")?,
        registers: List::new(alloc),
        tables: List::new(alloc),
        instructions: List::new(alloc),
        blocks: List::new(alloc),
    })
}

/// The design of an extension without sections on the core of three stages, or want of memory: it has no behaviour, so no plan and no net.
pub fn plain_design(alloc: Global) -> Result<Design, Memory>
    ensures { IfOk result (λ d. IsPlain d) }
{
    let extension = plain_extension(alloc)?;
    Ok(Design {
        extension,
        sheet: plain_sheet(),
        plans: List::new(alloc),
        nets: List::new(alloc),
    })
}
