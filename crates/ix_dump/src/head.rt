ghost use Rattle.std.specs.Prelude.{◌≡◌, ◌+◌, ◌<◌, ◌≤◌, ◌^◌, ◌++◌, length, OnOk, OnErr, MatchOption, codes};
ghost use Rattle.ix_io.specs.Faults.{Rose};
ghost use Rattle.ix_io.specs.Sink.{AppendsFront};
ghost use Rattle.ix_dump.specs.Dump.{dump_ports, module_ports, port_line, port_lines, scope_line, module_text, modules_text, head_text};
ghost use Rattle.ix_dump.specs.Parts.{Passes};

use crate::lines::{put_port_line, put_scope_line};
use crate::parts::{make_room, write_text};
use ix_bits::Name;
use ix_io::{Out, Sink, WriteErr};
use ix_net::{Net, Port};

/// The sum of two counts, where 32 bits hold it.
fn add(count: u32, more: usize) -> Option<u32>
    ensures { MatchOption result (2 ^ 32 ≤ count + more) (λ n. n ≡ count + more) }
{
    if more > (u32::MAX - count) as usize {
        return None;
    }
    Some(count + more as u32)
}

/// The number behind those of a module's ports, the first of which has the number `first`.
fn number_behind(first: u32, net: &Net) -> u32
    requires { first + length (module_ports net.now) < 2 ^ 32 }
    ensures { result ≡ first + length (module_ports net.now) }
{
    first + net.inputs.len() as u32 + net.outputs.len() as u32
}

/// The count with the ports of a module, where 32 bits hold it.
fn add_ports(count: u32, net: &Net) -> Option<u32>
    ensures { MatchOption result (2 ^ 32 ≤ count + length (module_ports net.now)) (λ n. n ≡ count + length (module_ports net.now)) }
{
    add(add(count, net.inputs.len())?, net.outputs.len())
}

/// The count of the ports that a dump of these modules numbers; None where it is 2^32 or more.
pub fn count_ports(nets: &[Net]) -> Option<u32>
    ensures { MatchOption result (2 ^ 32 ≤ length (dump_ports nets.now)) (λ n. n ≡ length (dump_ports nets.now)) }
{
    let mut count = 0u32;
    for net in nets {
        match add_ports(count, net) {
            Some(more) => count = more,
            None => return None,
        }
    }
    Some(count)
}

fn write_scope<S: Sink>(name: &Name, out: &mut Out, sink: &mut S) -> Result<(), WriteErr>
    ensures whole { OnOk result (Passes (S.written sink.old) (S.written sink.new) out.old out.new (scope_line name.now)) }
    ensures front { OnErr result (AppendsFront (S.written sink.old) (S.written sink.new) (out.old ++ scope_line name.now)) }
    ensures fault { OnErr result (Rose (S.faults sink.old) (S.faults sink.new)) }
    ensures never_fell { S.faults sink.old ≤ S.faults sink.new }
{
    make_room(out, sink)?;
    put_scope_line(out, name.as_str());
    Ok(())
}

fn write_port<S: Sink>(k: u32, port: &Port, out: &mut Out, sink: &mut S) -> Result<(), WriteErr>
    ensures whole { OnOk result (Passes (S.written sink.old) (S.written sink.new) out.old out.new (port_line k port.now)) }
    ensures front { OnErr result (AppendsFront (S.written sink.old) (S.written sink.new) (out.old ++ port_line k port.now)) }
    ensures fault { OnErr result (Rose (S.faults sink.old) (S.faults sink.new)) }
    ensures never_fell { S.faults sink.old ≤ S.faults sink.new }
{
    make_room(out, sink)?;
    put_port_line(out, k, port);
    Ok(())
}

/// Writes the lines that declare ports, the first of which has this number.
fn write_ports<S: Sink>(
    first: u32,
    ports: &[Port],
    out: &mut Out,
    sink: &mut S,
) -> Result<(), WriteErr>
    requires { first + length ports.now < 2 ^ 32 }
    ensures whole { OnOk result (Passes (S.written sink.old) (S.written sink.new) out.old out.new (port_lines first ports.now)) }
    ensures front { OnErr result (AppendsFront (S.written sink.old) (S.written sink.new) (out.old ++ port_lines first ports.now)) }
    ensures fault { OnErr result (Rose (S.faults sink.old) (S.faults sink.new)) }
    ensures never_fell { S.faults sink.old ≤ S.faults sink.new }
{
    for i in 0..ports.len() {
        write_port(first + i as u32, &ports[i], out, sink)?;
    }
    Ok(())
}

/// Writes the head of a module, whose first port has this number.
fn write_module<S: Sink>(first: u32, net: &Net, out: &mut Out, sink: &mut S) -> Result<(), WriteErr>
    requires { first + length (module_ports net.now) < 2 ^ 32 }
    ensures whole { OnOk result (Passes (S.written sink.old) (S.written sink.new) out.old out.new (module_text first net.now)) }
    ensures front { OnErr result (AppendsFront (S.written sink.old) (S.written sink.new) (out.old ++ module_text first net.now)) }
    ensures fault { OnErr result (Rose (S.faults sink.old) (S.faults sink.new)) }
    ensures never_fell { S.faults sink.old ≤ S.faults sink.new }
{
    let second = first + net.inputs.len() as u32;
    write_scope(&net.name, out, sink)?;
    write_ports(first, net.inputs.as_slice(), out, sink)?;
    write_ports(second, net.outputs.as_slice(), out, sink)?;
    write_text("$upscope $end\n", out, sink)
}

/// Writes the heads of modules, the first port of all having the number 0.
fn write_modules<S: Sink>(nets: &[Net], out: &mut Out, sink: &mut S) -> Result<(), WriteErr>
    requires { length (dump_ports nets.now) < 2 ^ 32 }
    ensures whole { OnOk result (Passes (S.written sink.old) (S.written sink.new) out.old out.new (modules_text 0 nets.now)) }
    ensures front { OnErr result (AppendsFront (S.written sink.old) (S.written sink.new) (out.old ++ modules_text 0 nets.now)) }
    ensures fault { OnErr result (Rose (S.faults sink.old) (S.faults sink.new)) }
    ensures never_fell { S.faults sink.old ≤ S.faults sink.new }
{
    let mut first = 0u32;
    for net in nets {
        write_module(first, net, out, sink)?;
        first = number_behind(first, net);
    }
    Ok(())
}

/// Writes the head of a dump (IEEE 1364-2005, section 18.2.3) of the ports of these modules, but
/// for what stays in the buffer. The ports are fewer than 2^32, as `count_ports` tells. It takes no
/// memory. After an `Err` a front of what waited and of the head was sent.
pub fn write_head<S: Sink>(nets: &[Net], out: &mut Out, sink: &mut S) -> Result<(), WriteErr>
    requires { length (dump_ports nets.now) < 2 ^ 32 }
    ensures whole { OnOk result (Passes (S.written sink.old) (S.written sink.new) out.old out.new (head_text nets.now)) }
    ensures front { OnErr result (AppendsFront (S.written sink.old) (S.written sink.new) (out.old ++ head_text nets.now)) }
    ensures fault { OnErr result (Rose (S.faults sink.old) (S.faults sink.new)) }
    ensures never_fell { S.faults sink.old ≤ S.faults sink.new }
{
    write_text("$timescale 1ns $end\n", out, sink)?;
    write_modules(nets, out, sink)?;
    write_text("$enddefinitions $end\n", out, sink)
}
