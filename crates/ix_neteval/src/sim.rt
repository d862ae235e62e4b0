ghost use Rattle.std.specs.Prelude.{◌≡◌, ◌<◌, ◌↔◌, Some, IfOk, IsTrue, length, map, slice_get};
ghost use Rattle.ix_net.specs.declared.netlist.Port.{Port};
ghost use Rattle.ix_net.specs.Run.{next_banks};
ghost use Rattle.ix_net.specs.Valid.{IsValid};
ghost use Rattle.ix_net.specs.Valuation.{Settles, value_of};
ghost use Rattle.ix_neteval.specs.State.{first_state};
ghost use Rattle.ix_neteval.specs.Wired.{pattern_widths, pattern_values};

use crate::running::{clock_banks, settle_values};
use ix_bits::{Bits, Memory};
use ix_net::{Net, Port, Wiring, wire};
use std::alloc::Global;
use std::marker::Model;

/// A net as it runs. Contracts see the net, the values of its banks, and the values of its signals (inputs, cells,
/// banks) as they were last settled.
#[derive(Drop)]
pub struct Sim<'a> {
    net: &'a Net,
    wiring: Wiring,
    banks: Vec<u128>,
    values: Vec<u128>,
    // Room for the signals that change in a cycle.
    marks: Vec<bool>,
    // Whether the values are settled: what has not changed then keeps its value.
    settled: bool,
}

impl<'a> Model for Sim<'a> {
    ghost use Rattle.ix_neteval.specs.State.{State, IsState};

    ghost Value = { State };

    ghost view = { λ s. record { net = s.net.now; banks = s.banks.items; values = s.values.items } };

    ghost invariant = { λ s. IsState s.net.now s.wiring s.banks.items s.values.items s.marks.items s.settled };
}

/// Makes a net ready to run, with all banks 0.
pub fn prepare<'a>(alloc: Global, net: &'a Net) -> Result<Sim<'a>, Memory>
    requires { IsValid net.now }
    ensures { IfOk result (λ s. s ≡ first_state net.now) }
{
    match wire(alloc, net)? {
        Some(wiring) => {
            let banks = vec![in alloc; 0u128; net.banks.len()]?;
            let values = vec![in alloc; 0u128; wiring.widths.len()]?;
            let marks = vec![in alloc; false; wiring.widths.len()]?;
            Ok(Sim {
                net,
                wiring,
                banks,
                values,
                marks,
                settled: false,
            })
        }
        None => unreachable!(),
    }
}

/// Whether the patterns have the widths of the ports, one for each.
fn are_of_widths(inputs: &[Bits], ports: &[Port]) -> bool
    ensures { IsTrue result ↔ (pattern_widths inputs.now ≡ map (λ p. p.width) ports.now) }
{
    if inputs.len() != ports.len() {
        return false;
    }
    for i in 0..inputs.len() {
        if inputs[i].width != ports[i].width {
            return false;
        }
    }
    true
}

impl<'a> Sim<'a> {
    /// Whether these are one pattern of the right width for each input, as `settle` requires.
    pub fn accepts(&self, inputs: &[Bits]) -> bool
        ensures { IsTrue result ↔ (pattern_widths inputs.now ≡ map (λ p. p.width) self.now.net.inputs) }
    {
        are_of_widths(inputs, self.net.inputs.as_slice())
    }

    /// Gives each name its value in a cycle with these inputs, one pattern of the right width for each input. A cell whose operands stand as they were
    /// settled last is not evaluated again.
    pub fn settle(&mut self, inputs: &[Bits])
        requires { pattern_widths inputs.now ≡ map (λ p. p.width) self.old.net.inputs }
        ensures same_net { self.new.net ≡ self.old.net }
        ensures same_banks { self.new.banks ≡ self.old.banks }
        ensures settled { Settles self.old.net (pattern_values inputs.now) self.old.banks self.new.values }
    {
        settle_values(
            &self.wiring,
            inputs,
            &self.banks,
            !self.settled,
            &mut self.marks,
            &mut self.values,
        );
        self.settled = true;
    }

    /// The value of input `k` as the net was last settled; 0 before that.
    pub fn input(&self, k: u32) -> Bits
        requires { k < length self.now.net.inputs }
        ensures value { (p : Port) → slice_get self.now.net.inputs k ≡ Some p →
            result.raw ≡ value_of self.now.net self.now.values p.name }
        ensures width { (p : Port) → slice_get self.now.net.inputs k ≡ Some p → result.width ≡ p.width }
    {
        Bits {
            raw: self.values[k as usize],
            width: self.net.inputs.as_slice()[k as usize].width,
        }
    }

    /// The value of output `k` as it was last settled; 0 before that.
    pub fn output(&self, k: u32) -> Bits
        requires { k < length self.now.net.outputs }
        ensures value { (o : Port) → slice_get self.now.net.outputs k ≡ Some o →
            result.raw ≡ value_of self.now.net self.now.values o.name }
        ensures width { (o : Port) → slice_get self.now.net.outputs k ≡ Some o → result.width ≡ o.width }
    {
        Bits {
            raw: self.values[self.wiring.outputs[k as usize]],
            width: self.net.outputs.as_slice()[k as usize].width,
        }
    }

    /// The edge of the clock: each bank takes the value that its source had when the net was last settled where its
    /// enable was 1, and else keeps the one that it had then.
    pub fn clock(&mut self)
        ensures same_net { self.new.net ≡ self.old.net }
        ensures same_values { self.new.values ≡ self.old.values }
        ensures banks { self.new.banks ≡ next_banks self.old.net self.old.values }
    {
        let own = self.net.inputs.len() + self.net.cells.len();
        clock_banks(&self.wiring.latches, own, &self.values, &mut self.banks);
    }
}
