ghost use Rattle.std.specs.Prelude.{◌≡◌, ◌<◌, length, option_map, if◌then◌else◌, IfSome};
ghost use Rattle.ix_extension.specs.Extensions.{view_extension};
ghost use Rattle.ix_extension.specs.WellFormed.{IsWellFormed};
ghost use Rattle.ix_eval.specs.Scratches.{IsScratchOf};
ghost use Rattle.rv_seq.specs.WordEffects.{AreWide};
ghost use Rattle.rv_engine.specs.Rows.{tried_with, seeing, is_ripe as specified_is_ripe, trying, is_loading as specified_is_loading, with_load, loading};
ghost use Rattle.rv_engine.specs.Kept.{IsFitting, IsFittingSlot, AreFitting};

use ix_bits::Bits;
use ix_eval::Scratch;
use ix_plan::Design;
use rv_core::Shape;
use rv_holds::{Token, waiting_hold};
use rv_memory::RandomAccess;
use rv_tried::try_word;

/// Tries a token with its inputs on this memory.
fn try_token(design: &Design, memory: &RandomAccess, token: &mut Token, scratch: &mut Scratch)
    requires well_formed { IsWellFormed design.now.extension }
    requires fitting { IsFitting design.now token.old }
    requires scratch { IsScratchOf (view_extension design.now.extension) scratch.old }
    ensures scratch { IsScratchOf (view_extension design.now.extension) scratch.new }
    ensures token { token.new ≡ tried_with (view_extension design.now.extension) memory.now token.old.inputs token.old }
    ensures fitting { IsFitting design.now token.new }
{
    let trial = try_word(
        &design.extension,
        token.decoded,
        token.back,
        &token.inputs,
        memory,
        scratch,
    );
    token.trial = Some(trial);
}

/// Tries a token, which sees the custom registers of the future file, on this memory.
fn execute(
    design: &Design,
    future: &[Bits; 16],
    memory: &RandomAccess,
    token: &mut Token,
    scratch: &mut Scratch,
)
    requires well_formed { IsWellFormed design.now.extension }
    requires future { AreWide (view_extension design.now.extension) future.now }
    requires fitting { IsFitting design.now token.old }
    requires scratch { IsScratchOf (view_extension design.now.extension) scratch.old }
    ensures scratch { IsScratchOf (view_extension design.now.extension) scratch.new }
    ensures token { token.new ≡ tried_with (view_extension design.now.extension) memory.now (seeing future.now token.old.inputs) token.old }
    ensures fitting { IsFitting design.now token.new }
{
    token.inputs.custom = *future;
    try_token(design, memory, token, scratch);
}

/// Whether a token of this stage is to be tried: at EX, once, when it waits for no register and no pc.
fn is_ripe(shape: Shape, stage: usize, token: &Token, older: &[Option<Token>]) -> bool
    ensures { result ≡ specified_is_ripe shape stage token.now older.now }
{
    if stage != usize::from(shape.ex) {
        return false;
    }
    if token.trial.is_some() {
        return false;
    }
    waiting_hold(shape, stage, token, older).is_none()
}

/// Whether the token of EX in this slot, where one is there, is to be tried.
fn is_ripe_in(shape: Shape, slot: &Option<Token>, older: &[Option<Token>]) -> bool
    ensures { IfSome slot.now (λ t. result ≡ specified_is_ripe shape shape.ex t older.now) }
{
    match slot {
        None => false,
        Some(token) => is_ripe(shape, usize::from(shape.ex), token, older),
    }
}

/// Tries the token of EX in this slot, if it is to be.
fn execute_if(
    design: &Design,
    future: &[Bits; 16],
    memory: &RandomAccess,
    ripe: bool,
    slot: &mut Option<Token>,
    scratch: &mut Scratch,
)
    requires well_formed { IsWellFormed design.now.extension }
    requires future { AreWide (view_extension design.now.extension) future.now }
    requires fitting { IsFittingSlot design.now slot.old }
    requires scratch { IsScratchOf (view_extension design.now.extension) scratch.old }
    ensures scratch { IsScratchOf (view_extension design.now.extension) scratch.new }
    ensures slot { slot.new ≡ option_map (λ t. if ripe then tried_with (view_extension design.now.extension) memory.now (seeing future.now t.inputs) t else t) slot.old }
    ensures fitting { IsFittingSlot design.now slot.new }
{
    if let Some(token) = slot {
        if ripe {
            execute(design, future, memory, token, scratch);
        }
    }
}

/// Tries the token of EX, once, when it waits for no register and no pc.
pub fn try_executing(
    design: &Design,
    future: &[Bits; 16],
    memory: &RandomAccess,
    slots: &mut [Option<Token>],
    scratch: &mut Scratch,
)
    requires well_formed { IsWellFormed design.now.extension }
    requires future { AreWide (view_extension design.now.extension) future.now }
    requires inside { design.now.sheet.shape.ex < length slots.old }
    requires fitting { AreFitting design.now slots.old }
    requires scratch { IsScratchOf (view_extension design.now.extension) scratch.old }
    ensures scratch { IsScratchOf (view_extension design.now.extension) scratch.new }
    ensures slots { slots.new ≡ trying (view_extension design.now.extension) design.now.sheet.shape future.now memory.now 0 slots.old }
    ensures fitting { AreFitting design.now slots.new }
{
    let stage = usize::from(design.sheet.shape.ex);
    let ripe = is_ripe_in(design.sheet.shape, &slots[stage], &slots[stage + 1..]);
    execute_if(design, future, memory, ripe, &mut slots[stage], scratch);
}

/// Whether a token of this stage reads the memory as it leaves: a load at MEM.
fn is_loading(shape: Shape, stage: usize, token: &Token) -> bool
    ensures { result ≡ specified_is_loading shape stage token.now }
{
    stage == usize::from(shape.mem) && token.cell.hold.is_none() && token.asks.loads
}

/// Lets the token of MEM in this slot read the memory, if it is a load that leaves.
fn load_slot(
    design: &Design,
    memory: &RandomAccess,
    slot: &mut Option<Token>,
    scratch: &mut Scratch,
)
    requires well_formed { IsWellFormed design.now.extension }
    requires fitting { IsFittingSlot design.now slot.old }
    requires scratch { IsScratchOf (view_extension design.now.extension) scratch.old }
    ensures scratch { IsScratchOf (view_extension design.now.extension) scratch.new }
    ensures slot { slot.new ≡ with_load (view_extension design.now.extension) design.now.sheet.shape memory.now design.now.sheet.shape.mem slot.old }
    ensures fitting { IsFittingSlot design.now slot.new }
{
    let shape = design.sheet.shape;
    if let Some(token) = slot {
        if is_loading(shape, usize::from(shape.mem), token) {
            try_token(design, memory, token, scratch);
        }
    }
}

/// Lets a load of MEM that leaves read the memory.
pub fn load(
    design: &Design,
    memory: &RandomAccess,
    slots: &mut [Option<Token>],
    scratch: &mut Scratch,
)
    requires well_formed { IsWellFormed design.now.extension }
    requires inside { design.now.sheet.shape.mem < length slots.old }
    requires fitting { AreFitting design.now slots.old }
    requires scratch { IsScratchOf (view_extension design.now.extension) scratch.old }
    ensures scratch { IsScratchOf (view_extension design.now.extension) scratch.new }
    ensures slots { slots.new ≡ loading (view_extension design.now.extension) design.now.sheet.shape memory.now 0 slots.old }
    ensures fitting { AreFitting design.now slots.new }
{
    let stage = usize::from(design.sheet.shape.mem);
    load_slot(design, memory, &mut slots[stage], scratch);
}
