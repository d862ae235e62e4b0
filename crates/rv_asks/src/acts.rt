ghost use Rattle.std.specs.Prelude.{◌≡◌, ◌++◌, OnOk};
ghost use Rattle.rv_asks.specs.Acts.{acts_of, acts_of_all, is_custom_write, is_late as specified_is_late, reads_first as specified_reads_first, reads_second as specified_reads_second, writes_own as specified_writes_own, loads as specified_loads, stores as specified_stores, jumps_late as specified_jumps_late, touches as specified_touches, writes_late as specified_writes_late, spawns_x as specified_spawns_x, spawns_custom as specified_spawns_custom};

use crate::asks::Act;
use ix_bits::{List, Memory};
use ix_graph::Kind;
use ix_plan::Plan;

/// Puts the operations of a plan behind others.
pub fn add_acts(acts: &mut List<Act>, plan: &Plan) -> Result<(), Memory>
    ensures { OnOk result (acts.new ≡ acts.old ++ acts_of plan.now) }
{
    let spawned = plan.graph.spawned.as_slice();
    let times = plan.times.as_slice();
    let mut k = 0usize;
    for op in plan.graph.ops.as_slice() {
        let act = Act {
            kind: op.kind,
            spawned: spawned.get(k).copied().unwrap_or(false),
            time: times.get(k).copied().unwrap_or(0),
        };
        acts.push(act)?;
        k += 1;
    }
    Ok(())
}

/// Puts the operations of these plans behind others.
pub fn add_all_acts(acts: &mut List<Act>, plans: &[Plan]) -> Result<(), Memory>
    ensures { OnOk result (acts.new ≡ acts.old ++ acts_of_all plans.now) }
{
    for plan in plans {
        add_acts(acts, plan)?;
    }
    Ok(())
}

// Is it of the instruction's own body, at a time above EX?
fn is_late(act: Act, ex: u8) -> bool
    ensures { result ≡ specified_is_late ex act }
{
    !act.spawned && act.time > ex
}

/// Does it read the first operand?
pub fn reads_first(act: Act) -> bool
    ensures { result ≡ specified_reads_first act }
{
    matches!(act.kind, Kind::RdRS1)
}

/// Does it read the second operand?
pub fn reads_second(act: Act) -> bool
    ensures { result ≡ specified_reads_second act }
{
    matches!(act.kind, Kind::RdRS2)
}

/// Does it write the x register, and not by `spawn`?
pub fn writes_own(act: Act) -> bool
    ensures { result ≡ specified_writes_own act }
{
    !act.spawned && matches!(act.kind, Kind::WrRD)
}

/// Does it write the x register by `spawn`?
pub fn spawns_x(act: Act) -> bool
    ensures { result ≡ specified_spawns_x act }
{
    act.spawned && matches!(act.kind, Kind::WrRD)
}

/// Does it write this custom register by `spawn`?
pub fn spawns_custom(act: Act, register: u8) -> bool
    ensures { result ≡ specified_spawns_custom register act }
{
    act.spawned && writes_custom(act, register)
}

/// Is it a load?
pub fn loads(act: Act) -> bool
    ensures { result ≡ specified_loads act }
{
    matches!(act.kind, Kind::RdMem)
}

/// Is it a store?
pub fn stores(act: Act) -> bool
    ensures { result ≡ specified_stores act }
{
    matches!(act.kind, Kind::WrMem)
}

/// Does it write the pc, and not by `spawn`, at a time above EX?
pub fn jumps_late(act: Act, ex: u8) -> bool
    ensures { result ≡ specified_jumps_late ex act }
{
    is_late(act, ex) && matches!(act.kind, Kind::WrPC)
}

/// Does it read or write this custom register?
pub fn touches(act: Act, register: u8) -> bool
    ensures { result ≡ specified_touches register act }
{
    match act.kind {
        Kind::RdCustReg(number) | Kind::WrCustReg(number) => number == register,
        _ => false,
    }
}

// Does it write this custom register?
fn writes_custom(act: Act, register: u8) -> bool
    ensures { result ≡ is_custom_write register act.kind }
{
    match act.kind {
        Kind::WrCustReg(number) => number == register,
        _ => false,
    }
}

/// Does it write this custom register, and not by `spawn`, at a time above EX?
pub fn writes_late(act: Act, register: u8, ex: u8) -> bool
    ensures { result ≡ specified_writes_late ex register act }
{
    is_late(act, ex) && writes_custom(act, register)
}
