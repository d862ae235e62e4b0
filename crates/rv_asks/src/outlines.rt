ghost use Rattle.std.specs.Prelude.{◌≡◌, ◌||◌, IfOk};
ghost use Rattle.std.specs.List.{list_any};
ghost use Rattle.rv_asks.specs.Acts as specified;
ghost use Rattle.rv_asks.specs.Asks.{flags, tail_of as specified_tail_of, outline_of, plan_outline as specified_plan_outline};

use crate::acts::{
    add_acts, jumps_late, loads, reads_first, reads_second, spawns_custom, spawns_x, stores,
    touches, writes_late, writes_own,
};
use crate::asks::{Act, Outline};
use ix_bits::{List, Memory};
use ix_plan::{Mode, Plan};
use rv_core::Shape;
use std::alloc::Global;

// The custom registers that these operations, or those of blocks, read or write.
fn customs_of(own: &[Act], blocks: &[Act]) -> [bool; 16]
    ensures { result ≡ flags (λ r. list_any (specified.touches r) own.now || list_any (specified.touches r) blocks.now) 16 }
{
    let mut customs = [false; 16];
    for r in 0..16u8 {
        customs[usize::from(r)] = does_touch(own, r) || does_touch(blocks, r);
    }
    customs
}

// Does one of these operations read or write this custom register?
fn does_touch(acts: &[Act], register: u8) -> bool
    ensures { result ≡ list_any (specified.touches register) acts.now }
{
    acts.iter().any(|act| touches(*act, register))
}

// Does one of these operations write this custom register at a time above EX?
fn does_write_late(acts: &[Act], register: u8, ex: u8) -> bool
    ensures { result ≡ list_any (specified.writes_late ex register) acts.now }
{
    acts.iter().any(|act| writes_late(*act, register, ex))
}

// The custom registers that these operations write at a time above EX.
fn late_customs_of(own: &[Act], ex: u8) -> [bool; 16]
    ensures { result ≡ flags (λ r. list_any (specified.writes_late ex r) own.now) 16 }
{
    let mut customs = [false; 16];
    for r in 0..16u8 {
        customs[usize::from(r)] = does_write_late(own, r, ex);
    }
    customs
}

// Does one of these operations write this custom register by `spawn`?
fn does_spawn_custom(acts: &[Act], register: u8) -> bool
    ensures { result ≡ list_any (specified.spawns_custom register) acts.now }
{
    acts.iter().any(|act| spawns_custom(*act, register))
}

// The custom registers that these operations write by `spawn`.
fn spawned_customs_of(own: &[Act]) -> [bool; 16]
    ensures { result ≡ flags (λ r. list_any (specified.spawns_custom r) own.now) 16 }
{
    let mut customs = [false; 16];
    for r in 0..16u8 {
        customs[usize::from(r)] = does_spawn_custom(own, r);
    }
    customs
}

// Does one of these operations write the x register by `spawn`?
fn does_spawn_x(acts: &[Act]) -> bool
    ensures { result ≡ list_any specified.spawns_x acts.now }
{
    acts.iter().any(|act| spawns_x(*act))
}

// The time of the first operation that writes the x register in the instruction's own body, 0 where there is none.
fn x_time_of(acts: &[Act]) -> u8
    ensures { result ≡ specified.time_of specified.writes_own acts.now }
{
    'acts: for act in acts {
        if writes_own(*act) {
            return act.time;
        }
    }
    0
}

// Does one of these operations read the first operand?
fn does_read_first(acts: &[Act]) -> bool
    ensures { result ≡ list_any specified.reads_first acts.now }
{
    acts.iter().any(|act| reads_first(*act))
}

// Does one of these operations read the second operand?
fn does_read_second(acts: &[Act]) -> bool
    ensures { result ≡ list_any specified.reads_second acts.now }
{
    acts.iter().any(|act| reads_second(*act))
}

// Does one of these operations write the x register, and not by `spawn`?
fn does_write(acts: &[Act]) -> bool
    ensures { result ≡ list_any specified.writes_own acts.now }
{
    acts.iter().any(|act| writes_own(*act))
}

// Is one of these operations a load?
fn does_load(acts: &[Act]) -> bool
    ensures { result ≡ list_any specified.loads acts.now }
{
    acts.iter().any(|act| loads(*act))
}

// Is one of these operations a store?
fn does_store(acts: &[Act]) -> bool
    ensures { result ≡ list_any specified.stores acts.now }
{
    acts.iter().any(|act| stores(*act))
}

// Does one of these operations write the pc, and not by `spawn`, at a time above EX?
fn does_jump_late(acts: &[Act], ex: u8) -> bool
    ensures { result ≡ list_any (specified.jumps_late ex) acts.now }
{
    acts.iter().any(|act| jumps_late(*act, ex))
}

/// What is asked of an instruction with these operations, beside those of blocks.
pub fn outline(own: &[Act], blocks: &[Act], ex: u8, tail: u8) -> Outline
    ensures { result ≡ outline_of ex tail blocks.now own.now }
{
    let customs = customs_of(own, blocks);
    let late_customs = late_customs_of(own, ex);
    let spawned_customs = spawned_customs_of(own);
    Outline {
        first: does_read_first(own),
        second: does_read_second(own),
        destination: does_write(own),
        x_time: x_time_of(own),
        spawned: does_spawn_x(own),
        loads: does_load(own),
        stores: does_store(own),
        late: does_jump_late(own, ex),
        tail,
        customs,
        late_customs,
        spawned_customs,
    }
}

// For how many cycles a module goes on past the entry to the last stage.
fn tail_of(mode: Mode, stages: u8, last: u8) -> u8
    ensures { result ≡ specified_tail_of mode stages last }
{
    match mode {
        Mode::Tight => last.saturating_sub(stages.saturating_sub(1)),
        _ => 0,
    }
}

/// What is asked of an instruction with this plan, beside the operations of blocks.
#[tactic(auto, unfolding(crate::specs::Asks::plan_outline))]
pub fn plan_outline(
    alloc: Global,
    shape: Shape,
    plan: &Plan,
    blocks: &[Act],
) -> Result<Outline, Memory>
    ensures { IfOk result (λ o. o ≡ specified_plan_outline shape blocks.now plan.now) }
{
    let mut own = List::new(alloc);
    add_acts(&mut own, plan)?;
    let tail = tail_of(plan.mode, shape.stages, plan.last);
    Ok(outline(own.as_slice(), blocks, shape.ex, tail))
}
