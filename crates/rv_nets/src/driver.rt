ghost use Rattle.std.specs.Prelude.{◌≡◌, ◌<◌, Some, length, slice_get, IfOk};
ghost use Rattle.ix_net.specs.Valid.{IsValid};
ghost use Rattle.ix_net.specs.Valuation.{value_of};
ghost use Rattle.ix_net.specs.declared.netlist.Port.{Port};
ghost use Rattle.ix_neteval.specs.State.{first_state};
ghost use Rattle.ix_ports.specs.Ports.{input_ports};
ghost use Rattle.rv_ports.specs.Driven.{ports_in};
ghost use Rattle.rv_nets.specs.Modules.{IsStep, own_ports};

use ix_bits::{Bits, Memory};
use ix_net::Net;
use ix_neteval::{Sim, prepare};
use ix_plan::Plan;
use rv_ports::{Feed, Module, Shown, drive, feeds_of};
use std::alloc::Global;
use std::marker::Model;

/// The module of a behaviour with what drives it.
#[derive(Drop)]
pub struct Driver<'a> {
    driven: Module,
    plan: &'a Plan,
    net: &'a Net,
    feeds: Vec<Feed>,
    // Room for what is driven in a row, one for each feed.
    inputs: Vec<Bits>,
    // How many ports the net has.
    count: u32,
    sim: Sim<'a>,
}

impl<'a> Model for Driver<'a> {
    ghost use Rattle.rv_nets.specs.Modules.{Driver as Driven};
    ghost use Rattle.rv_nets.specs.Kept.{IsKept};

    ghost Value = { Driven };

    ghost view = { λ s. record { driven = s.driven; plan = s.plan.now; state = s.sim } };

    ghost invariant = { λ s. IsKept s.driven s.plan.now s.net.now s.feeds.items s.inputs.items s.count s.sim };
}

/// How many ports a net has, where these are fewer than 2^32.
fn count_of(net: &Net) -> Result<u32, Memory>
    ensures { IfOk result (λ count. count ≡ length (ports_in net.now)) }
{
    let Ok(inputs) = u32::try_from(net.inputs.len()) else {
        return Err(Memory);
    };
    let Ok(outputs) = u32::try_from(net.outputs.len()) else {
        return Err(Memory);
    };
    match inputs.checked_add(outputs) {
        Some(count) => Ok(count),
        None => Err(Memory),
    }
}

impl<'a> Driver<'a> {
    /// A module before the first row: all is 0. Its net has the ports of a behaviour with this plan. A net with 2^32 ports or more
    /// is one for which there is no memory.
    pub fn new(
        alloc: Global,
        driven: Module,
        plan: &'a Plan,
        net: &'a Net,
    ) -> Result<Driver<'a>, Memory>
        requires valid { IsValid net.now }
        requires ports { net.now.inputs ≡ input_ports driven.shape.rd plan.now.graph.ops plan.now.times }
        ensures { IfOk result (λ s. s ≡ record { driven = driven; plan = plan.now; state = first_state net.now }) }
    {
        let count = count_of(net)?;
        let feeds = feeds_of(alloc, &driven.shape, plan)?;
        let zero = Bits { raw: 0, width: 1 };
        let inputs = vec![in alloc; zero; feeds.len()]?;
        let sim = prepare(alloc, net)?;
        Ok(Driver {
            driven,
            plan,
            net,
            feeds,
            inputs,
            count,
            sim,
        })
    }

    /// How many ports the module has.
    pub fn count(&self) -> u32
        ensures { result ≡ length (own_ports self.now) }
    {
        self.count
    }

    /// One row that shows this: the inputs are driven, the names get their values, and the banks are clocked. Takes no memory.
    pub fn step(&mut self, shown: &Shown)
        ensures { IsStep shown.now self.old self.new }
    {
        drive(&self.driven, &self.feeds, shown, &mut self.inputs);
        self.sim.settle(&self.inputs);
        self.sim.clock();
    }

    /// The value of a port in the last row, the inputs before the outputs; 0 before the first row.
    pub fn port(&self, k: u32) -> Bits
        requires { k < length (own_ports self.now) }
        ensures value { (p : Port) → slice_get (own_ports self.now) k ≡ Some p → result.raw ≡ value_of self.now.state.net self.now.state.values p.name }
        ensures width { (p : Port) → slice_get (own_ports self.now) k ≡ Some p → result.width ≡ p.width }
    {
        let place = k as usize;
        let count = self.net.inputs.len();
        if place < count {
            self.sim.input(k)
        } else {
            self.sim.output((place - count) as u32)
        }
    }
}
