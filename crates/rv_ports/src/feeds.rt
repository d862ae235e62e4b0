ghost use Rattle.std.specs.Prelude.{◌≡◌, ◌++◌, ◌-◌, map, IfOk, OnOk};
ghost use Rattle.ix_graph.specs.Roles.{role_of};
ghost use Rattle.ix_plan.specs.Service.{result_time};
ghost use Rattle.ix_ports.specs.Ports.{last_from};
ghost use Rattle.ix_sheet.specs.Behaviours.{latency_of};
ghost use Rattle.rv_ports.specs.Feeds.{AreFeeds, enable_key, enable_keys, key_of, keys_of, read_key, read_keys};

use ix_bits::{Memory, Ty};
use ix_graph::{Kind, Op, Role, kind_role};
use ix_plan::Plan;
use rv_core::Shape;
use std::alloc::Global;

/// What an input of a module carries.
#[derive(Clone, Copy)]
pub enum Carried {
    /// Whether a token goes on.
    Enable,
    /// What an operation of this kind reads.
    Read(Kind),
}

/// An input of a module: what it carries, the time at which this stands, and its type.
#[derive(Clone, Copy)]
pub struct Feed {
    pub carried: Carried,
    pub time: u16,
    pub ty: Ty,
}

// The greatest of the times of a plan; the stage of operands, `rd`, where there is none.
fn last_of(times: &[u8], rd: u8) -> u8
    ensures { result ≡ last_from rd times.now }
{
    let mut last = rd;
    for time in times {
        last = last.max(*time);
    }
    last
}

// The input that moves on the token of a time.
fn enable_at(time: u8) -> Feed
    ensures { key_of result ≡ enable_key time }
{
    Feed {
        carried: Carried::Enable,
        time: u16::from(time),
        ty: Ty {
            signed: false,
            width: 1,
        },
    }
}

// The inputs that move a token on.
fn enables(alloc: Global, rd: u8, last: u8) -> Result<Vec<Feed>, Memory>
    ensures { IfOk result (λ feeds. map key_of feeds.items ≡ enable_keys rd last) }
{
    let mut feeds = Vec::new(alloc);
    for time in rd..last {
        feeds.push(enable_at(time))?;
    }
    Ok(feeds)
}

// For how many times the result of an operation of this kind is still to come: a load has it at MEM.
fn latency(shape: &Shape, kind: Kind) -> u8
    ensures { result ≡ latency_of shape.now kind }
{
    match kind {
        Kind::RdMem => shape.mem - shape.ex,
        _ => 0,
    }
}

// The time at which the result of the operation with this number is there.
fn ready(shape: &Shape, times: &[u8], number: usize, op: &Op) -> u16
    ensures { result ≡ result_time shape.now times.now number op.now }
{
    let time = if number < times.len() {
        times[number]
    } else {
        0
    };
    u16::from(time) + u16::from(latency(shape, op.kind))
}

// The input of an operation, if it reads.
fn put_read(
    feeds: &mut Vec<Feed>,
    shape: &Shape,
    times: &[u8],
    number: usize,
    op: &Op,
) -> Result<(), Memory>
    ensures { OnOk result (map key_of feeds.new.items ≡ map key_of feeds.old.items ++ read_key shape.now times.now number op.now (role_of op.now.kind)) }
{
    match kind_role(&op.kind) {
        Role::Read => {
            feeds.push(Feed {
                carried: Carried::Read(op.kind),
                time: ready(shape, times, number, op),
                ty: op.ty,
            })?;
            Ok(())
        }
        Role::Compute => Ok(()),
        Role::Write => Ok(()),
    }
}

// The inputs of the reads.
fn put_reads(feeds: &mut Vec<Feed>, shape: &Shape, times: &[u8], ops: &[Op]) -> Result<(), Memory>
    ensures { OnOk result (map key_of feeds.new.items ≡ map key_of feeds.old.items ++ read_keys shape.now times.now 0 ops.now) }
{
    for number in 0..ops.len() {
        put_read(feeds, shape, times, number, &ops[number])?;
    }
    Ok(())
}

// The same as `feeds_of`, said of each input.
fn keyed(alloc: Global, shape: &Shape, plan: &Plan) -> Result<Vec<Feed>, Memory>
    ensures { IfOk result (λ feeds. map key_of feeds.items ≡ keys_of shape.now plan.now) }
{
    let times = plan.times.as_slice();
    let mut feeds = enables(alloc, shape.rd, last_of(times, shape.rd))?;
    put_reads(&mut feeds, shape, times, plan.graph.ops.as_slice())?;
    Ok(feeds)
}

/// What the inputs of the module of a behaviour with this plan carry, in the order of its ports.
pub fn feeds_of(alloc: Global, shape: &Shape, plan: &Plan) -> Result<Vec<Feed>, Memory>
    ensures { IfOk result (λ feeds. AreFeeds shape.now plan.now feeds.items) }
{
    let feeds = keyed(alloc, shape, plan)?;
    Ok(feeds)
}
