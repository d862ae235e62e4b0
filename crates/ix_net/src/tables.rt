ghost use Rattle.std.specs.Prelude.{◌≡◌, ◌++◌, ◌↔◌, IsTrue, OnOk, IfOk, MatchOption, map, All};
ghost use Rattle.ix_net.specs.Signals.{cell_port, bank_port, signals};
ghost use Rattle.ix_net.specs.Tables.{port_of, IsGood, AreApart, Numbers};

use crate::keywords::is_name;
use crate::netlist::{Bank, Cell, Net, Port};
use ix_bits::{Memory, Name};
use std::alloc::Global;
use std::collections::BTreeMap;
use std::marker::Model;

/// The greatest width, in bits.
const WIDEST: u8 = 128;

/// A name that a net declares, with its width.
#[derive(Clone, Copy)]
pub(crate) struct Signal<'a> {
    pub name: &'a str,
    pub width: u8,
}

fn add_ports<'a>(signals: &mut Vec<Signal<'a>>, ports: &'a [Port]) -> Result<(), Memory>
    ensures { OnOk result (map port_of signals.new.items ≡ map port_of signals.old.items ++ ports.now) }
{
    for port in ports {
        signals.push(Signal {
            name: port.name.as_str(),
            width: port.width,
        })?;
    }
    Ok(())
}

fn add_cells<'a>(signals: &mut Vec<Signal<'a>>, cells: &'a [Cell]) -> Result<(), Memory>
    ensures { OnOk result (map port_of signals.new.items ≡ map port_of signals.old.items ++ map cell_port cells.now) }
{
    for cell in cells {
        signals.push(Signal {
            name: cell.target.as_str(),
            width: cell.width,
        })?;
    }
    Ok(())
}

fn add_banks<'a>(signals: &mut Vec<Signal<'a>>, banks: &'a [Bank]) -> Result<(), Memory>
    ensures { OnOk result (map port_of signals.new.items ≡ map port_of signals.old.items ++ map bank_port banks.now) }
{
    for bank in banks {
        signals.push(Signal {
            name: bank.target.as_str(),
            width: bank.width,
        })?;
    }
    Ok(())
}

/// What a net declares, in the order of the signals: inputs, cells, banks.
fn signals_of<'a>(alloc: Global, net: &'a Net) -> Result<Vec<Signal<'a>>, Memory>
    ensures { IfOk result (λ v. map port_of v.items ≡ signals net.now) }
{
    let mut signals = Vec::new(alloc);
    add_ports(&mut signals, net.inputs.as_slice())?;
    add_cells(&mut signals, net.cells.as_slice())?;
    add_banks(&mut signals, net.banks.as_slice())?;
    Ok(signals)
}

/// Whether each name follows the rule for names and each width is 1 to 128.
fn are_named(signals: &[Signal]) -> bool
    ensures { IsTrue result ↔ All IsGood signals.now }
{
    for signal in signals {
        if !is_name(signal.name) || signal.width < 1 || signal.width > WIDEST {
            return false;
        }
    }
    true
}

/// The number of each signal by its name; None where two signals have one name.
fn number<'a>(
    alloc: Global,
    signals: &[Signal<'a>],
) -> Result<Option<BTreeMap<&'a str, usize>>, Memory>
    ensures { IfOk result (λ o. MatchOption o (AreApart (map port_of signals.now) → ⊥) (Numbers (map port_of signals.now))) }
{
    let mut places = BTreeMap::new(alloc);
    for (place, signal) in signals.iter().enumerate() {
        if places.insert(signal.name, place)?.is_some() {
            return Ok(None);
        }
    }
    Ok(Some(places))
}

fn widths_of(alloc: Global, signals: &[Signal]) -> Result<Vec<u8>, Memory>
    ensures { IfOk result (λ v. v.items ≡ map (λ s. s.width) signals.now) }
{
    let mut widths = Vec::with_capacity(alloc, signals.len())?;
    for signal in signals {
        widths.push(signal.width)?;
    }
    Ok(widths)
}

/// Whether no two ports have one name.
pub(crate) fn are_distinct(alloc: Global, ports: &[Port]) -> Result<bool, Memory>
    ensures { IfOk result (λ r. IsTrue r ↔ AreApart ports.now) }
{
    let mut signals = Vec::new(alloc);
    add_ports(&mut signals, ports)?;
    match number(alloc, &signals)? {
        Some(_) => Ok(true),
        None => Ok(false),
    }
}

/// The signals of a net, by name and by number. Contracts see the list of what the net declares.
#[derive(Drop)]
pub(crate) struct Table<'a> {
    signals: Vec<Signal<'a>>,
    places: BTreeMap<&'a str, usize>,
}

impl<'a> Model for Table<'a> {
    ghost use Rattle.std.specs.Prelude.{List, map};
    ghost use Rattle.ix_net.specs.declared.netlist.Port.{Port};

    ghost Value = { List Port };

    ghost use Rattle.ix_net.specs.Tables.{port_of, Holds};

    ghost view = { λ t. map port_of t.signals.items };

    ghost invariant = { λ t. Holds (map port_of t.signals.items) t.places };
}

impl<'a> Table<'a> {
    ghost use Rattle.std.specs.Prelude.{◌≡◌, Some, None, MatchOption, IfOk, map, slice_get};
    ghost use Rattle.ix_net.specs.Signals.{signals, place_of, width_of};
    ghost use Rattle.ix_net.specs.Forms.{ShareWidth};
    ghost use Rattle.ix_net.specs.Tables.{IsDeclared, IsAt, HaveWidth, AreAt};

    /// The table of a net; None where the net breaks a rule on names or widths of what it declares.
    pub fn of_net(alloc: Global, net: &'a Net) -> Result<Option<Table<'a>>, Memory>
        ensures { IfOk result (λ o.
            MatchOption o (IsDeclared net.now → ⊥) (λ t. IsDeclared net.now × (t ≡ signals net.now))) }
    {
        let signals = signals_of(alloc, net)?;
        if !is_name(net.name.as_str()) {
            return Ok(None);
        }
        if !are_named(&signals) {
            return Ok(None);
        }
        let Some(places) = number(alloc, &signals)? else {
            return Ok(None);
        };
        if places.contains_key(net.name.as_str()) {
            return Ok(None);
        }
        Ok(Some(Table { signals, places }))
    }

    /// The number of a name.
    pub fn find(&self, name: &Name) -> Option<usize>
        ensures { result ≡ place_of self.now name.now }
    {
        self.places.get(name.as_str()).copied()
    }

    /// The number and the width of a name.
    pub fn declared(&self, name: &Name) -> Option<(usize, u8)>
        ensures { MatchOption result (width_of self.now name.now ≡ None) (λ r. IsAt self.now name.now r.0 r.1) }
    {
        let place = self.find(name)?;
        Some((place, self.signals[place].width))
    }

    /// The number of a name of this width.
    pub fn of_width(&self, name: &Name, width: u8) -> Option<usize>
        ensures { MatchOption result (width_of self.now name.now ≡ Some width → ⊥) (λ i. IsAt self.now name.now i width) }
    {
        let (place, found) = self.declared(name)?;
        if found == width { Some(place) } else { None }
    }

    /// The numbers of two names of this width.
    pub fn pair(&self, a: &Name, b: &Name, width: u8) -> Option<(usize, usize)>
        ensures { MatchOption result (HaveWidth self.now a.now b.now width → ⊥)
            (λ r. AreAt self.now a.now b.now r.0 r.1 width) }
    {
        let first = self.of_width(a, width)?;
        let second = self.of_width(b, width)?;
        Some((first, second))
    }

    /// The numbers of two names of one width, and that width.
    pub fn alike(&self, a: &Name, b: &Name) -> Option<(usize, usize, u8)>
        ensures { MatchOption result (ShareWidth (width_of self.now a.now) (width_of self.now b.now) → ⊥)
            (λ r. AreAt self.now a.now b.now r.0 r.1 r.2) }
    {
        let (first, width) = self.declared(a)?;
        let second = self.of_width(b, width)?;
        Some((first, second, width))
    }

    /// The width of each signal, in bits.
    pub fn widths(&self, alloc: Global) -> Result<Vec<u8>, Memory>
        ensures { IfOk result (λ v. v.items ≡ map (λ p. p.width) self.now) }
    {
        widths_of(alloc, &self.signals)
    }
}
