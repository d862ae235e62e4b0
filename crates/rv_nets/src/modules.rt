ghost use Rattle.std.specs.Prelude.{◌≡◌, ◌++◌, ◌<◌, ◌≤◌, Some, length, slice_get, IfOk, OnOk};
ghost use Rattle.ix_net.specs.declared.netlist.Port.{Port};
ghost use Rattle.rv_unit.specs.Numbering.{lasts_of};
ghost use Rattle.rv_nets.specs.Modules.{AllStep, drivers_of, all_ports, ports_shown, module_at};
ghost use Rattle.rv_nets.specs.Places.{places_from, places_of as specified_places_of};
ghost use Rattle.rv_nets.specs.Kept.{AreFitting};

use crate::driver::Driver;
use ix_bits::{Bits, Memory};
use ix_plan::{Design, Plan};
use rv_ports::{Module, Shown};
use rv_unit::unit_of;
use std::alloc::Global;
use std::marker::Model;

/// Where a port of a design stands: the number of its module, and its own among the ports of that.
#[derive(Clone, Copy, Debug, PartialEq, Eq)]
pub struct Place {
    pub driver: u32,
    pub port: u32,
}

/// The modules of a design beside a pipeline. All memory is taken when they are made.
#[derive(Drop)]
pub struct Modules<'a> {
    drivers: Vec<Driver<'a>>,
    // One for each port, by number.
    places: Vec<Place>,
}

impl<'a> Model for Modules<'a> {
    ghost use Rattle.std.specs.Prelude.{◌≡◌, List};
    ghost use Rattle.rv_nets.specs.Modules.{Driver as Driven};
    ghost use Rattle.rv_nets.specs.Places.{places_of};

    ghost Value = { List Driven };

    ghost view = { λ m. m.drivers.items };

    ghost invariant = { λ m. m.places.items ≡ places_of 0 m.drivers.items };
}

/// The module of the behaviour with this number and this plan.
fn module_of(design: &Design, number: usize, plan: &Plan) -> Module
    requires units { length (lasts_of design.now.plans) ≤ 72 }
    requires inside { number < 72 }
    ensures { result ≡ module_at design.now number plan.now }
{
    Module {
        shape: design.sheet.shape,
        mode: plan.mode,
        number: number as u8,
        unit: unit_of(design.plans.as_slice(), number),
    }
}

/// The modules of a design before the first row.
fn drivers_in<'a>(alloc: Global, design: &'a Design) -> Result<Vec<Driver<'a>>, Memory>
    requires few { length design.now.plans ≤ 72 }
    requires units { length (lasts_of design.now.plans) ≤ 72 }
    requires fitting { AreFitting design.now.sheet.shape design.now.plans design.now.nets }
    ensures { IfOk result (λ drivers. drivers.items ≡ drivers_of design.now) }
{
    let plans = design.plans.as_slice();
    let nets = design.nets.as_slice();
    let mut drivers = Vec::new(alloc);
    for number in 0..plans.len() {
        let driven = module_of(design, number, &plans[number]);
        let driver = Driver::new(alloc, driven, &plans[number], &nets[number])?;
        drivers.push(driver)?;
    }
    Ok(drivers)
}

/// Puts the places of the ports of a module behind those of the modules before it.
fn put_places(places: &mut Vec<Place>, driver: u32, count: u32) -> Result<(), Memory>
    ensures { OnOk result (places.new.items ≡ places.old.items ++ places_from driver 0 count) }
{
    for port in 0..count {
        places.push(Place { driver, port })?;
    }
    Ok(())
}

/// The places of the ports of at most 72 modules.
fn places_in(alloc: Global, drivers: &[Driver<'_>]) -> Result<Vec<Place>, Memory>
    requires { length drivers.now ≤ 72 }
    ensures { IfOk result (λ places. places.items ≡ specified_places_of 0 drivers.now) }
{
    let mut places = Vec::new(alloc);
    for number in 0..drivers.len() {
        put_places(&mut places, number as u32, drivers[number].count())?;
    }
    Ok(places)
}

/// Lets each module take its step in a row that shows this.
fn step_all(drivers: &mut [Driver<'_>], shown: &Shown)
    ensures { AllStep shown.now drivers.old drivers.new }
{
    for number in 0..drivers.len() {
        drivers[number].step(shown);
    }
}

impl<'a> Modules<'a> {
    /// The modules of a design before the first row: all is 0. A module with 2^32 ports or more is one for which there is no memory.
    pub fn new(alloc: Global, design: &'a Design) -> Result<Modules<'a>, Memory>
        requires few { length design.now.plans ≤ 72 }
        requires units { length (lasts_of design.now.plans) ≤ 72 }
        requires fitting { AreFitting design.now.sheet.shape design.now.plans design.now.nets }
        ensures { IfOk result (λ m. m ≡ drivers_of design.now) }
    {
        let drivers = drivers_in(alloc, design)?;
        let places = places_in(alloc, &drivers)?;
        Ok(Modules { drivers, places })
    }

    /// One row that shows this. Takes no memory.
    pub fn step(&mut self, shown: &Shown)
        ensures { AllStep shown.now self.old self.new }
    {
        step_all(&mut self.drivers, shown);
    }

    /// The value of a port in the last row, by its number in the order of the modules, the inputs of each before its outputs. Takes no
    /// memory.
    pub fn port(&self, k: u32) -> Bits
        requires { k < length (all_ports self.now) }
        ensures value { slice_get (ports_shown self.now) k ≡ Some result.raw }
        ensures width { (p : Port) → slice_get (all_ports self.now) k ≡ Some p → result.width ≡ p.width }
    {
        let place = self.places[k as usize];
        self.drivers[place.driver as usize].port(place.port)
    }
}
