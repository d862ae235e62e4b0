ghost use Rattle.std.specs.Prelude.{◌≡◌, ◌↔◌, IsTrue, All, Contains, map};
ghost use Rattle.ix_verilog.specs.declared.source.Assign.{Assign as assign_type};
ghost use Rattle.ix_verilog.specs.declared.source.Update.{Update as update_type};
ghost use Rattle.ix_verilog.specs.Subset.{IsTarget, IsRegister, IsDriven, HasPorts};
ghost use Rattle.ix_vform.specs.Roles.{HasOne};
ghost use Rattle.ix_vline.specs.Slots.{HasNext, HasTarget, HasRegister, MayStartIn};

use crate::opened::Opened;
use crate::scope::{is_register, is_target};
use ix_net::Port;
use ix_verilog::{Source, Stage};
use ix_vline::Kind;

/// Whether a port is still to be declared.
fn has_next(source: &Source) -> bool
    ensures { IsTrue result ↔ HasNext source.now }
{
    let declared = source.inputs.as_slice().len() + source.outputs.as_slice().len();
    match source.ports.as_slice().get(declared) {
        Some(_) => true,
        None => false,
    }
}

/// Whether all ports are declared.
fn has_ports(source: &Source) -> bool
    ensures { IsTrue result ↔ HasPorts source.now }
{
    source.ports.as_slice().len()
        == source.inputs.as_slice().len() + source.outputs.as_slice().len()
}

/// Whether an `assign` may drive one of the ports.
fn has_target_in(opened: &Opened, ports: &[Port]) -> bool
    ensures { IsTrue result ↔ HasOne (IsTarget opened.now) ports.now }
{
    for port in ports {
        if is_target(opened, port.name.as_str().as_bytes()) {
            return true;
        }
    }
    false
}

/// Whether the last assignment drives what an `assign` may drive: so it is behind the first.
fn is_last_a_target(opened: &Opened) -> bool
    ensures { IsTrue result → HasTarget opened.now }
{
    match opened.source().assigns.as_slice().last() {
        Some(assign) => is_target(opened, assign.target.as_str().as_bytes()),
        None => false,
    }
}

fn has_target(opened: &Opened) -> bool
    ensures { IsTrue result ↔ HasTarget opened.now }
{
    if is_last_a_target(opened) {
        return true;
    }
    if has_target_in(opened, opened.source().outputs.as_slice()) {
        return true;
    }
    has_target_in(opened, opened.source().wires.as_slice())
}

/// Whether one of the ports is a register and nothing else.
fn has_register_in(opened: &Opened, ports: &[Port]) -> bool
    ensures { IsTrue result ↔ HasOne (IsRegister opened.now) ports.now }
{
    for port in ports {
        if is_register(opened, port.name.as_str().as_bytes()) {
            return true;
        }
    }
    false
}

/// Whether the last line of `always` changes a register: so it is behind the first.
fn is_last_a_register(opened: &Opened) -> bool
    ensures { IsTrue result → HasRegister opened.now }
{
    match opened.source().updates.as_slice().last() {
        Some(update) => is_register(opened, update.target.as_str().as_bytes()),
        None => false,
    }
}

fn has_register(opened: &Opened) -> bool
    ensures { IsTrue result ↔ HasRegister opened.now }
{
    if is_last_a_register(opened) {
        return true;
    }
    has_register_in(opened, opened.source().registers.as_slice())
}

fn are_assigned(opened: &Opened, ports: &[Port]) -> bool
    ensures { IsTrue result ↔ All (λ p. Contains (map (λ (a : assign_type). a.target) opened.now.assigns) p.name) ports.now }
{
    for port in ports {
        if !opened.is_assigned(port.name.as_str()) {
            return false;
        }
    }
    true
}

fn are_updated(opened: &Opened, ports: &[Port]) -> bool
    ensures { IsTrue result ↔ All (λ p. Contains (map (λ (u : update_type). u.target) opened.now.updates) p.name) ports.now }
{
    for port in ports {
        if !opened.is_updated(port.name.as_str()) {
            return false;
        }
    }
    true
}

/// Whether each output, wire and register is driven.
fn is_driven(opened: &Opened) -> bool
    ensures { IsTrue result ↔ IsDriven opened.now }
{
    if !are_assigned(opened, opened.source().outputs.as_slice()) {
        return false;
    }
    if !are_assigned(opened, opened.source().wires.as_slice()) {
        return false;
    }
    are_updated(opened, opened.source().registers.as_slice())
}

fn may_finish(opened: &Opened) -> bool
    ensures { IsTrue result ↔ MayStartIn opened.now Kind.Finish }
{
    let source = opened.source();
    match source.stage {
        Stage::Ports => false,
        Stage::Lines => has_ports(source) && is_driven(opened),
        Stage::Clocked => false,
        Stage::Ended => is_driven(opened),
    }
}

/// Whether a line of the kind may stand behind `input clk;` and before `always`.
fn may_declare(opened: &Opened, kind: Kind) -> bool
    requires { opened.now.stage ≡ Stage.Lines }
    ensures { IsTrue result ↔ MayStartIn opened.now kind }
{
    let source = opened.source();
    match kind {
        Kind::Head => false,
        Kind::Port => false,
        Kind::Heading => false,
        Kind::Input => has_next(source) && source.outputs.is_empty(),
        Kind::Output => has_next(source),
        Kind::Wire => has_ports(source) && source.registers.is_empty() && source.assigns.is_empty(),
        Kind::Register => has_ports(source) && source.assigns.is_empty(),
        Kind::Assign(_) => has_ports(source) && has_target(opened),
        Kind::Always => has_ports(source) && !source.registers.is_empty(),
        Kind::Update => false,
        Kind::Done => false,
        Kind::Finish => may_finish(opened),
    }
}

/// Whether some line of the kind may stand next in the module.
pub fn may_start(opened: &Opened, kind: Kind) -> bool
    ensures { IsTrue result ↔ MayStartIn opened.now kind }
{
    let source = opened.source();
    if matches!(source.stage, Stage::Lines) {
        return may_declare(opened, kind);
    }
    match kind {
        Kind::Head => false,
        Kind::Port => matches!(source.stage, Stage::Ports),
        Kind::Heading => matches!(source.stage, Stage::Ports),
        Kind::Input => false,
        Kind::Output => false,
        Kind::Wire => false,
        Kind::Register => false,
        Kind::Assign(_) => false,
        Kind::Always => false,
        Kind::Update => matches!(source.stage, Stage::Clocked) && has_register(opened),
        Kind::Done => matches!(source.stage, Stage::Clocked),
        Kind::Finish => may_finish(opened),
    }
}
