ghost use Rattle.std.specs.Prelude.{◌≡◌, ◌≤◌, ◌++◌, codes, All, IfOk, OnOk};
ghost use Rattle.std.specs.List.{flat_map};
ghost use Rattle.ix_net.specs.declared.netlist.Port.{Port as port_type};
ghost use Rattle.ix_net.specs.Valid.{IsValid, IsWidth};
ghost use Rattle.ix_net.specs.Signals.{bank_port, cell_port};
ghost use Rattle.ix_verilog.specs.Subset.{Denotes, AreNamedApart};
ghost use Rattle.ix_vprint.specs.Short.{IsShort, AreShort, HasShortNames};
ghost use Rattle.ix_vprint.specs.Printed.{port_name, ports_text, wires_text, registers_text, cell_text, bank_text, always_text, head_text, lines_text, module_text, is_output as specified_is_output};

use crate::put::{put, put_bank, put_cell, put_name, put_port};
use ix_bits::{List, Memory, Name};
use ix_net::{Bank, Cell, Net, Port};
use std::alloc::Global;

fn put_names(out: &mut Vec<u8>, ports: &[Port]) -> Result<(), Memory>
    ensures text { OnOk result (out.new.items ≡ out.old.items ++ flat_map port_name ports.now) }
    ensures short { OnOk result (AreShort ports.now) }
{
    for port in ports {
        put_name(out, port)?;
    }
    Ok(())
}

/// Appends the lines that declare ports.
fn put_ports(out: &mut Vec<u8>, front: &str, ports: &[Port]) -> Result<(), Memory>
    requires { All (λ p. IsWidth p.width) ports.now }
    ensures { OnOk result (out.new.items ≡ out.old.items ++ ports_text front.now ports.now) }
{
    for port in ports {
        put_port(out, front, port.name.as_str(), port.width)?;
    }
    Ok(())
}

fn is_output(outputs: &[Port], name: &str) -> bool
    ensures { result ≡ specified_is_output outputs.now name.now }
{
    outputs.iter().any(|port| port.name.as_str() == name)
}

/// Appends a line for each cell that is no output.
fn put_wires(out: &mut Vec<u8>, outputs: &[Port], cells: &[Cell]) -> Result<(), Memory>
    requires { All (λ c. IsWidth c.width) cells.now }
    ensures { OnOk result (out.new.items ≡ out.old.items ++ wires_text outputs.now cells.now) }
{
    for cell in cells {
        if !is_output(outputs, cell.target.as_str()) {
            put_port(out, "  wire [", cell.target.as_str(), cell.width)?;
        }
    }
    Ok(())
}

fn put_registers(out: &mut Vec<u8>, banks: &[Bank]) -> Result<(), Memory>
    requires { All (λ b. IsWidth b.width) banks.now }
    ensures { OnOk result (out.new.items ≡ out.old.items ++ registers_text banks.now) }
{
    for bank in banks {
        put_port(out, "  reg [", bank.target.as_str(), bank.width)?;
    }
    Ok(())
}

fn put_cells(out: &mut Vec<u8>, cells: &[Cell]) -> Result<(), Memory>
    ensures text { OnOk result (out.new.items ≡ out.old.items ++ flat_map cell_text cells.now) }
    ensures short { OnOk result (All (λ c. IsShort c.target) cells.now) }
{
    for cell in cells {
        put_cell(out, cell)?;
    }
    Ok(())
}

fn put_banks(out: &mut Vec<u8>, banks: &[Bank]) -> Result<(), Memory>
    ensures text { OnOk result (out.new.items ≡ out.old.items ++ flat_map bank_text banks.now) }
    ensures short { OnOk result (All (λ b. IsShort b.target) banks.now) }
{
    for bank in banks {
        put_bank(out, bank)?;
    }
    Ok(())
}

/// Appends what the registers do, if there are any.
fn put_always(out: &mut Vec<u8>, banks: &[Bank]) -> Result<(), Memory>
    ensures text { OnOk result (out.new.items ≡ out.old.items ++ always_text banks.now) }
    ensures short { OnOk result (All (λ b. IsShort b.target) banks.now) }
{
    match banks {
        [] => Ok(()),
        [_, ..] => {
            put(out, "  always @(posedge clk) begin\n")?;
            put_banks(out, banks)?;
            put(out, "  end\n")
        }
    }
}

fn put_head(out: &mut Vec<u8>, net: &Net) -> Result<(), Memory>
    ensures text { OnOk result (out.new.items ≡ out.old.items ++ head_text net.now.name (net.now.inputs ++ net.now.outputs)) }
    ensures name { OnOk result (IsShort net.now.name) }
    ensures ports { OnOk result (AreShort net.now.inputs × AreShort net.now.outputs) }
{
    put(out, "module ")?;
    put(out, net.name.as_str())?;
    put(out, "(clk")?;
    put_names(out, net.inputs.as_slice())?;
    put_names(out, net.outputs.as_slice())?;
    put(out, ");\n  input clk;\n")
}

fn put_lines(out: &mut Vec<u8>, net: &Net) -> Result<(), Memory>
    requires { IsValid net.now }
    ensures text { OnOk result (out.new.items ≡ out.old.items ++ lines_text net.now) }
    ensures cells { OnOk result (All (λ c. IsShort c.target) net.now.cells) }
    ensures banks { OnOk result (All (λ b. IsShort b.target) net.now.banks) }
{
    put_ports(out, "  input [", net.inputs.as_slice())?;
    put_ports(out, "  output [", net.outputs.as_slice())?;
    put_wires(out, net.outputs.as_slice(), net.cells.as_slice())?;
    put_registers(out, net.banks.as_slice())?;
    put_cells(out, net.cells.as_slice())?;
    put_always(out, net.banks.as_slice())?;
    put(out, "endmodule\n")
}

fn put_module(out: &mut Vec<u8>, net: &Net) -> Result<(), Memory>
    requires { IsValid net.now }
    ensures text { OnOk result (out.new.items ≡ out.old.items ++ module_text net.now) }
    ensures short { OnOk result (HasShortNames net.now) }
{
    put_head(out, net)?;
    put_lines(out, net)
}

/// The Verilog text of valid nets whose names differ from each other: a module for each, in order.
pub fn print(alloc: Global, nets: &[Net]) -> Result<List<u8>, Memory>
    requires valid { All IsValid nets.now }
    requires apart { AreNamedApart nets.now }
    ensures text { IfOk result (λ text. text ≡ flat_map module_text nets.now) }
    ensures denotes { IfOk result (λ text. Denotes text nets.now) }
{
    let mut out = Vec::new(alloc);
    for net in nets {
        put_module(&mut out, net)?;
    }
    Ok(List::from_vec(out))
}
