ghost use Rattle.std.specs.Prelude.{◌≡◌, ◌≤◌, ◌||◌, length, All, IfOk, IsTrue, true};
ghost use Rattle.ix_extension.specs.Extensions.{view_extension};
ghost use Rattle.ix_extension.specs.WellFormed.{IsWellFormed};
ghost use Rattle.ix_behaviour.specs.Behaviours.{HasBehaviour};
ghost use Rattle.ix_graph.specs.Graphs.{IsValidGraph};
ghost use Rattle.ix_sheet.specs.Sheets.{IsValidSheet};
ghost use Rattle.ix_net.specs.Name.{is_letter as letter_test, is_mark as mark_test};
ghost use Rattle.ix_net.specs.Valid.{IsValid};

use ix_behaviour::Which;
use ix_bits::{List, Memory, Name};
use ix_flow::FlowErr;
use ix_graph::Graph;
use ix_graphs::graph_of;
use ix_modes::{ModeErr, schedule_of};
use ix_net::Net;
use ix_netgen::generate;
use ix_sheet::Sheet;
use ix_tree::Extension;
use netgen_laws::times_fit;
use std::alloc::{AllocError, Global};

/// Why a case has no answer.
#[derive(Debug, Drop)]
pub enum Why {
    NoCase,
    NoExtension,
    NoSheet,
    NoName,
    NoSchedule,
    TooManyOps,
    /// The inputs or outputs are others than those of the behaviour.
    OtherPorts,
    /// An output is another than due.
    OtherValue,
    /// The tokens do not come through.
    Stuck,
    Memory,
}

impl From<Memory> for Why {
    fn from(_memory: Memory) -> Why {
        Why::Memory
    }
}

impl From<AllocError> for Why {
    fn from(_error: AllocError) -> Why {
        Why::Memory
    }
}

/// A behaviour's graph, times and module.
#[derive(Drop)]
pub struct Module {
    pub graph: Graph,
    pub times: List<u8>,
    pub net: Net,
}

fn is_letter(byte: u8) -> bool
    ensures { result ≡ letter_test byte }
{
    byte.is_ascii_alphabetic() || byte == b'_'
}

fn is_mark(byte: u8) -> bool
    ensures { result ≡ mark_test byte }
{
    byte.is_ascii_digit() || byte == b'_'
}

/// Whether a module may have this name behind its first letters.
fn is_plain(text: &[u8]) -> bool
    ensures { result ≡ true → All (λ b. IsTrue (letter_test b || mark_test b)) text.now }
{
    text.iter().all(|byte| is_letter(*byte) || is_mark(*byte))
}

fn name_of(ext: &Extension, which: Which) -> &str
    requires { HasBehaviour (view_extension ext.now) which }
{
    match which {
        Which::Instruction(number) => ext.instructions.as_slice()[usize::from(number)]
            .behaviour
            .name
            .as_str(),
        Which::Block(number) => ext.blocks.as_slice()[usize::from(number)].name.as_str(),
    }
}

fn graph_at(alloc: Global, ext: &Extension, which: Which) -> Result<Graph, Why>
    requires well_formed { IsWellFormed ext.now }
    requires in_range { HasBehaviour (view_extension ext.now) which }
    ensures { IfOk result (λ g. IsValidGraph g) }
{
    match graph_of(alloc, ext, which) {
        Ok(graph) => Ok(graph),
        Err(FlowErr::TooManyOps) => Err(Why::TooManyOps),
        Err(FlowErr::Memory) => Err(Why::Memory),
    }
}

fn made(alloc: Global, name: &str, graph: Graph, sheet: &Sheet, block: bool) -> Result<Module, Why>
    requires graph { IsValidGraph graph }
    requires sheet { IsValidSheet sheet.now }
    ensures { IfOk result (λ m. IsValid m.net) }
{
    if 64 < name.len() || !is_plain(name.as_bytes()) {
        return Err(Why::NoName);
    }
    let name = Name::from_text(alloc, name)?;
    times_fit();
    match schedule_of(alloc, &graph, sheet, block) {
        Ok(scheduled) => {
            let times = scheduled.times;
            let net = generate(alloc, &name, &graph, times.as_slice(), sheet.shape)?;
            Ok(Module { graph, times, net })
        }
        Err(ModeErr::NoSchedule(_, _)) => Err(Why::NoSchedule),
        Err(ModeErr::Memory) => Err(Why::Memory),
    }
}

/// The module of a behaviour, at the times of its chosen schedule.
pub fn module_of(alloc: Global, ext: &Extension, sheet: &Sheet, which: Which) -> Result<Module, Why>
    requires well_formed { IsWellFormed ext.now }
    requires in_range { HasBehaviour (view_extension ext.now) which }
    requires sheet { IsValidSheet sheet.now }
    ensures { IfOk result (λ m. IsValid m.net) }
{
    let graph = graph_at(alloc, ext, which)?;
    made(
        alloc,
        name_of(ext, which),
        graph,
        sheet,
        matches!(which, Which::Block(_)),
    )
}
