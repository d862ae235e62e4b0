ghost use Rattle.std.specs.Prelude.{◌≡◌, ◌≤◌, ℕ, None, length, map, drop, IfOk, slice_index_or};
ghost use Rattle.ix_plan.specs.declared.design.Design.{Design};
ghost use Rattle.rv_asks.specs.Asks.{plan_outline as specified_plan_outline, block_acts as specified_block_acts, base_time as specified_base_time, base_asks as specified_base_asks, with_word as specified_with_word, where_so as specified_where_so, some_so as specified_some_so, asks_with, asks_in, IsAskingOf};
ghost use Rattle.rv_unit.specs.Numbering.{lasts_of, unit_of as specified_unit_of};

use crate::acts::add_all_acts;
use crate::asks::{Act, Asks, Outline};
use crate::outlines::{outline, plan_outline};
use ix_bits::{List, Memory};
use ix_plan::{Design, Plan};
use rv_base::{load_of, store_of};
use rv_core::Shape;
use rv_isa::Base;
use rv_isa::rows::FENCE;
use rv_seq::{Decoded, rd_of, rs1_of, rs2_of};
use rv_unit::unit_of;
use std::alloc::Global;

/// What the laws of rows ask of each instruction of a design but for the numbers of the x registers, and of a word that is none.
#[derive(Drop)]
pub struct Asking {
    shape: Shape,
    outlines: List<Outline>,
    units: List<Option<u8>>,
    blank: Outline,
}

// The plans from a number on.
fn behind(plans: &[Plan], number: usize) -> &[Plan]
    ensures { result.now ≡ drop number plans.now }
{
    if number <= plans.len() {
        plans.split_at(number).1
    } else {
        &[]
    }
}

// The operations of a design's blocks.
fn block_acts(alloc: Global, design: &Design) -> Result<List<Act>, Memory>
    ensures { IfOk result (λ acts. acts ≡ specified_block_acts design.now) }
{
    let mut acts = List::new(alloc);
    let blocks = behind(design.plans.as_slice(), design.extension.instructions.len());
    add_all_acts(&mut acts, blocks)?;
    Ok(acts)
}

// What is asked of each plan's instruction.
fn outlines(
    alloc: Global,
    shape: Shape,
    plans: &[Plan],
    blocks: &[Act],
) -> Result<List<Outline>, Memory>
    ensures { IfOk result (λ all. all ≡ map (specified_plan_outline shape blocks.now) plans.now) }
{
    let mut all = List::new(alloc);
    for plan in plans {
        let one = plan_outline(alloc, shape, plan, blocks)?;
        all.push(one)?;
    }
    Ok(all)
}

// The unit of each plan's instruction.
fn units_of(alloc: Global, plans: &[Plan]) -> Result<List<Option<u8>>, Memory>
    requires few { length (lasts_of plans.now) ≤ 72 }
    ensures { IfOk result (λ units. (n : ℕ) → slice_index_or units n None ≡ specified_unit_of plans.now n) }
{
    let mut units = List::new(alloc);
    for number in 0..plans.len() {
        let unit = unit_of(plans, number);
        units.push(unit)?;
    }
    Ok(units)
}

/// What is asked of each instruction of a design, so that `asks_of` looks at no operation. At most 72 of its plans are decoupled.
pub fn asking_of(alloc: Global, design: &Design) -> Result<Asking, Memory>
    requires few { length (lasts_of design.now.plans) ≤ 72 }
    ensures asking { IfOk result (λ a. IsAskingOf design.now a) }
{
    let blocks = block_acts(alloc, design)?;
    let shape = design.sheet.shape;
    let outlines = outlines(alloc, shape, design.plans.as_slice(), blocks.as_slice())?;
    let units = units_of(alloc, design.plans.as_slice())?;
    let blank = outline(&[], blocks.as_slice(), shape.ex, 0);
    Ok(Asking {
        shape,
        outlines,
        units,
        blank,
    })
}

// The number, where it counts, and else 0.
fn where_so(counts: bool, number: u8) -> u8
    ensures { result ≡ specified_where_so counts number }
{
    if counts { number } else { 0 }
}

// The number, where there is one.
fn some_so(is_there: bool, number: u8) -> Option<u8>
    ensures { result ≡ specified_some_so is_there number }
{
    if is_there { Some(number) } else { None }
}

// What is asked of an instruction with this outline and this unit, whose word is this.
fn with_word(outline: Outline, unit: Option<u8>, word: u32) -> Asks
    ensures { result ≡ specified_with_word word unit outline }
{
    let customs = outline.customs;
    let late_customs = outline.late_customs;
    let spawned_customs = outline.spawned_customs;
    Asks {
        first: where_so(outline.first, rs1_of(word)),
        second: where_so(outline.second, rs2_of(word)),
        destination: where_so(outline.destination, rd_of(word)),
        x_time: outline.x_time,
        spawned: some_so(outline.spawned, rd_of(word)),
        loads: outline.loads,
        stores: outline.stores,
        late: outline.late,
        tail: outline.tail,
        customs,
        late_customs,
        spawned_customs,
        unit,
    }
}

// The time at which a base instruction writes its x register.
fn base_time(shape: Shape, base: Base) -> u8
    ensures { result ≡ specified_base_time shape base }
{
    if load_of(base).is_some() {
        shape.mem
    } else {
        shape.ex
    }
}

// What is asked of a base instruction, beside the custom registers of blocks.
fn base_asks(shape: Shape, base: Base, customs: [bool; 16]) -> Asks
    ensures { result ≡ specified_base_asks shape customs base }
{
    let touches = base.row != FENCE;
    let destination = where_so(touches, base.rd);
    let late_customs = [false; 16];
    let spawned_customs = [false; 16];
    Asks {
        first: where_so(touches, base.rs1),
        second: base.rs2,
        destination,
        x_time: where_so(destination != 0, base_time(shape, base)),
        spawned: None,
        loads: load_of(base).is_some(),
        stores: store_of(base).is_some(),
        late: false,
        tail: 0,
        customs,
        late_customs,
        spawned_customs,
        unit: None,
    }
}

// What is asked of an instruction of the extension, by its number.
fn own_outline(asking: &Asking, number: u8) -> Outline
    ensures { result ≡ slice_index_or asking.now.outlines number asking.now.blank }
{
    let outlines = asking.outlines.as_slice();
    outlines
        .get(usize::from(number))
        .copied()
        .unwrap_or(asking.blank)
}

// The unit of an instruction of the extension, by its number.
fn own_unit(asking: &Asking, number: u8) -> Option<u8>
    ensures { result ≡ slice_index_or asking.now.units number None }
{
    let units = asking.units.as_slice();
    units.get(usize::from(number)).copied().unwrap_or(None)
}

// What is asked of an instruction, by the outlines.
fn asks_by(asking: &Asking, word: u32, decoded: Option<Decoded>) -> Asks
    ensures { result ≡ asks_with asking.now.shape asking.now.outlines (λ n. slice_index_or asking.now.units n None) asking.now.blank word decoded }
{
    match decoded {
        Some(Decoded::Base(base)) => {
            let customs = asking.blank.customs;
            base_asks(asking.shape, base, customs)
        }
        Some(Decoded::Own(number)) => {
            let unit = own_unit(asking, number);
            with_word(own_outline(asking, number), unit, word)
        }
        None => with_word(asking.blank, None, word),
    }
}

/// What is asked of the instruction that a word is, on the core of the design that this asking was made for.
pub fn asks_of(asking: &Asking, word: u32, decoded: Option<Decoded>) -> Asks
    ensures asks { (d : Design) → IsAskingOf d asking.now → result ≡ asks_in d word decoded }
{
    asks_by(asking, word, decoded)
}
