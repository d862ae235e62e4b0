ghost use Rattle.std.specs.Prelude.{◌≡◌, ◌++◌, [], ◌∷◌, map, length, codes, decimal, IfOk, OnOk, Some, None};
ghost use Rattle.std.specs.List.{flat_map};
ghost use Rattle.ix_cert.specs.Layout.{mode_text, field, width_text, bound_text, op_line, edge_line, flow_line, cycle_line, block_lines, report_lines, op_lines, certificate_lines, IsInForm, IsBlockInForm, IsReportText};
ghost use Rattle.ix_cert.specs.Printing.{time_field, time_at as specified_time_at, IsWithin, IsPrintable, ArePrintable};
ghost use Rattle.ix_lines.specs.Lines.{text_of};

use crate::report::{Report, ReportBlock};
use crate::state::is_weighted;
use itoa::Buffer;
use ix_bits::{List, Memory};
use ix_graph::Mode;
use ix_sheet::{Bound, Node};
use std::alloc::Global;

fn put(out: &mut Vec<u8>, text: &str) -> Result<(), Memory>
    ensures { OnOk result (out.new.items ≡ out.old.items ++ text.now) }
{
    match out.extend_from_slice(text.as_bytes()) {
        Ok(()) => Ok(()),
        Err(_) => Err(Memory),
    }
}

fn mode_word(mode: Option<Mode>) -> &'static str
    ensures { result.now ≡ mode_text mode }
{
    match mode {
        None => "none",
        Some(Mode::InPipeline) => "InPipeline",
        Some(Mode::Tight) => "Tight",
        Some(Mode::Decoupled) => "Decoupled",
        Some(Mode::Always) => "Always",
    }
}

/// Appends a space and a number.
fn put_field(out: &mut Vec<u8>, number: u64) -> Result<(), Memory>
    ensures { OnOk result (out.new.items ≡ out.old.items ++ field number) }
{
    put(out, " ")?;
    put(out, Buffer::new().format(number))
}

/// Appends a label with a number behind it.
fn put_labelled(out: &mut Vec<u8>, label: &str, number: u64) -> Result<(), Memory>
    ensures { OnOk result (out.new.items ≡ out.old.items ++ (label.now ++ field number)) }
{
    put(out, label)?;
    put_field(out, number)
}

fn put_path(out: &mut Vec<u8>, path: &[u32]) -> Result<(), Memory>
    ensures { OnOk result (out.new.items ≡ out.old.items ++ flat_map field path.now) }
{
    for op in path {
        put_field(out, u64::from(*op))?;
    }
    Ok(())
}

fn put_bound(out: &mut Vec<u8>, bound: &Bound) -> Result<(), Memory>
    ensures { OnOk result (out.new.items ≡ out.old.items ++ bound_text bound.now) }
{
    match bound {
        Bound::Early(op) => put_labelled(out, "early", u64::from(*op)),
        Bound::Late(op) => put_labelled(out, "late", u64::from(*op)),
        Bound::Dep(from, to) => {
            put_labelled(out, "dep", u64::from(*from))?;
            put_field(out, u64::from(*to))
        }
        Bound::Chain(path) => {
            put(out, "chain")?;
            put_path(out, path.as_slice())
        }
    }
}

/// Appends a weight, where weights are told.
fn put_width(out: &mut Vec<u8>, weighted: bool, weight: u8) -> Result<(), Memory>
    ensures { OnOk result (out.new.items ≡ out.old.items ++ width_text weighted weight) }
{
    if weighted {
        put_labelled(out, " width", u64::from(weight))
    } else {
        Ok(())
    }
}

/// Appends the numbers of an operation.
fn put_node(out: &mut Vec<u8>, weighted: bool, node: &Node) -> Result<(), Memory>
    ensures { OnOk result (out.new.items ≡ out.old.items ++ (codes " delay" ++ field node.now.delay ++ codes " latency" ++ field node.now.latency ++ width_text weighted node.now.weight ++ codes " early" ++ field node.now.early ++ codes " late" ++ field node.now.late)) }
{
    put_labelled(out, " delay", u64::from(node.delay))?;
    put_labelled(out, " latency", u64::from(node.latency))?;
    put_width(out, weighted, node.weight)?;
    put_labelled(out, " early", u64::from(node.early))?;
    put_labelled(out, " late", u64::from(node.late))
}

fn put_time(out: &mut Vec<u8>, time: Option<u8>) -> Result<(), Memory>
    ensures { OnOk result (out.new.items ≡ out.old.items ++ time_field time) }
{
    match time {
        Some(time) => put_labelled(out, " time", u64::from(time)),
        None => Ok(()),
    }
}

fn put_op(
    out: &mut Vec<u8>,
    weighted: bool,
    place: u64,
    kind: &str,
    node: &Node,
    time: Option<u8>,
) -> Result<(), Memory>
    ensures { OnOk result (out.new.items ≡ out.old.items ++ (op_line weighted place kind.now node.now (time_field time) ++ 10 ∷ [])) }
{
    put_labelled(out, "op", place)?;
    put(out, " ")?;
    put(out, kind)?;
    put_node(out, weighted, node)?;
    put_time(out, time)?;
    put(out, "\n")
}

fn time_at(mode: Option<Mode>, times: &[u8], place: usize) -> Option<u8>
    requires { IsWithin mode place (length times.now) }
    ensures { result ≡ specified_time_at mode times.now place }
{
    match mode {
        Some(_) => Some(times[place]),
        None => None,
    }
}

fn put_ops(out: &mut Vec<u8>, weighted: bool, block: &ReportBlock) -> Result<(), Memory>
    requires { IsPrintable block.now }
    ensures { OnOk result (out.new.items ≡ out.old.items ++ text_of (op_lines weighted block.now block.now.mode)) }
{
    let kinds = block.kinds.as_slice();
    let times = block.times.as_slice();
    for (place, node) in block.problem.ops.as_slice().iter().enumerate() {
        let time = time_at(block.mode, times, place);
        put_op(
            out,
            weighted,
            place as u64,
            kinds[place].as_str(),
            node,
            time,
        )?;
    }
    Ok(())
}

fn put_edges(out: &mut Vec<u8>, edges: &[(u32, u32)]) -> Result<(), Memory>
    ensures { OnOk result (out.new.items ≡ out.old.items ++ text_of (map edge_line edges.now)) }
{
    for (from, to) in edges {
        put_labelled(out, "edge", u64::from(*from))?;
        put_field(out, u64::from(*to))?;
        put(out, "\n")?;
    }
    Ok(())
}

fn put_flow(out: &mut Vec<u8>, flow: &[(Bound, u64)]) -> Result<(), Memory>
    ensures { OnOk result (out.new.items ≡ out.old.items ++ text_of (map flow_line flow.now)) }
{
    for (bound, amount) in flow {
        put_labelled(out, "flow", *amount)?;
        put(out, " ")?;
        put_bound(out, bound)?;
        put(out, "\n")?;
    }
    Ok(())
}

fn put_cycle(out: &mut Vec<u8>, cycle: &[Bound]) -> Result<(), Memory>
    ensures { OnOk result (out.new.items ≡ out.old.items ++ text_of (map cycle_line cycle.now)) }
{
    for bound in cycle {
        put(out, "cycle ")?;
        put_bound(out, bound)?;
        put(out, "\n")?;
    }
    Ok(())
}

fn put_certificate(out: &mut Vec<u8>, block: &ReportBlock) -> Result<(), Memory>
    ensures { OnOk result (out.new.items ≡ out.old.items ++ text_of (certificate_lines block.now block.now.mode)) }
{
    match block.mode {
        Some(_) => {
            put_labelled(out, "cost", block.cost)?;
            put(out, "\n")?;
            put_flow(out, block.flow.as_slice())
        }
        None => put_cycle(out, block.cycle.as_slice()),
    }
}

fn put_head(out: &mut Vec<u8>, name: &str, mode: Option<Mode>) -> Result<(), Memory>
    ensures { OnOk result (out.new.items ≡ out.old.items ++ ((codes "behaviour " ++ name.now ++ codes " " ++ mode_text mode) ++ 10 ∷ [])) }
{
    put(out, "behaviour ")?;
    put(out, name)?;
    put(out, " ")?;
    put(out, mode_word(mode))?;
    put(out, "\n")
}

fn put_block(out: &mut Vec<u8>, weighted: bool, block: &ReportBlock) -> Result<(), Memory>
    requires { IsPrintable block.now }
    ensures { OnOk result (out.new.items ≡ out.old.items ++ text_of (block_lines weighted block.now)) }
{
    put_head(out, block.name.as_str(), block.mode)?;
    put_ops(out, weighted, block)?;
    put_edges(out, block.problem.edges.as_slice())?;
    put_certificate(out, block)?;
    put(out, "end\n")
}

fn put_blocks(out: &mut Vec<u8>, weighted: bool, blocks: &[ReportBlock]) -> Result<(), Memory>
    requires { ArePrintable blocks.now }
    ensures { OnOk result (out.new.items ≡ out.old.items ++ text_of (flat_map (block_lines weighted) blocks.now)) }
{
    for block in blocks {
        put_block(out, weighted, block)?;
    }
    Ok(())
}

fn put_report(out: &mut Vec<u8>, report: &Report) -> Result<(), Memory>
    requires { ArePrintable report.now.blocks }
    ensures { OnOk result (out.new.items ≡ out.old.items ++ text_of (report_lines report.now)) }
{
    put_labelled(out, "longnail report", u64::from(report.version))?;
    put(out, "\n")?;
    put_labelled(out, "period", u64::from(report.period))?;
    put(out, "\n")?;
    put_blocks(out, is_weighted(report.version), report.blocks.as_slice())
}

/// The text of a report in the range of its form: each line with a line feed behind it.
pub fn print_report(alloc: Global, report: &Report) -> Result<List<u8>, Memory>
    requires { IsInForm report.now }
    ensures lines { IfOk result (λ text. text ≡ flat_map (λ line. line ++ 10 ∷ []) (report_lines report.now)) }
    ensures text { IfOk result (λ text. IsReportText text report.now) }
{
    let mut out = Vec::new(alloc);
    put_report(&mut out, report)?;
    Ok(List::from_vec(out))
}
