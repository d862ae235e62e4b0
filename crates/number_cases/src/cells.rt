ghost use Rattle.std.specs.Prelude.{◌≡◌, ◌≤◌, ◌^◌, length, All, IfOk, false};

use crate::given::{Given, next_given, next_number, next_type, operator_of, put_number};
use crate::operations::{kind_of, of_one, of_three, of_two, unary_kind};
use ix_bits::{BinOp, Bits, List, Memory, Ty, UnOp, range};
use ix_graph::{Graph, Kind};
use ix_types::{TypeErr, common, type_of_binary, type_of_unary};
use std::alloc::{AllocError, Global};
use std::str::SplitWhitespace;

/// The greatest count of entries.
const MOST_ENTRIES: usize = 4096;

/// Why a case has no answer.
#[derive(Debug, Drop)]
pub enum Why {
    NoCase,
    /// The module of the cells is not valid.
    NoModule,
    TooWide,
    Mixed,
    Memory,
}

impl From<Memory> for Why {
    fn from(_memory: Memory) -> Why {
        Why::Memory
    }
}

impl From<TypeErr> for Why {
    fn from(error: TypeErr) -> Why {
        match error {
            TypeErr::TooWide => Why::TooWide,
            TypeErr::Mixed => Why::Mixed,
        }
    }
}

/// A graph without operations, with these tables.
fn graph_with(alloc: Global, tables: List<List<Bits>>) -> Graph
    ensures { result.tables ≡ tables }
{
    Graph {
        ops: List::new(alloc),
        spawned: List::new(alloc),
        tables,
    }
}

fn given(words: &mut SplitWhitespace<'_>) -> Result<Given, Why> {
    match next_given(words) {
        Some(given) => Ok(given),
        None => Err(Why::NoCase),
    }
}

fn bit(words: &mut SplitWhitespace<'_>) -> Result<u8, Why>
    ensures { IfOk result (λ bit. bit ≤ 127) }
{
    match next_number(words) {
        Some(number) if number < 128 => Ok(number as u8),
        _ => Err(Why::NoCase),
    }
}

/// The type and the pattern of a result.
fn shown_as(ty: Ty, bits: Option<Bits>) -> Result<(Ty, Bits), Why> {
    match bits {
        Some(bits) => Ok((ty, bits)),
        None => Err(Why::NoModule),
    }
}

fn of_operator(
    alloc: Global,
    op: BinOp,
    words: &mut SplitWhitespace<'_>,
) -> Result<(Ty, Bits), Why> {
    let a = given(words)?;
    let b = given(words)?;
    let ty = type_of_binary(op, a.ty, b.ty)?;
    let graph = graph_with(alloc, List::new(alloc));
    shown_as(ty, of_two(alloc, &graph, kind_of(op), a, b, ty)?)
}

fn of_unary(alloc: Global, op: UnOp, words: &mut SplitWhitespace<'_>) -> Result<(Ty, Bits), Why> {
    let a = given(words)?;
    let ty = type_of_unary(op, a.ty)?;
    let graph = graph_with(alloc, List::new(alloc));
    shown_as(ty, of_one(alloc, &graph, unary_kind(op), a, ty)?)
}

fn of_cast(alloc: Global, words: &mut SplitWhitespace<'_>) -> Result<(Ty, Bits), Why> {
    let a = given(words)?;
    let Some(ty) = next_type(words) else {
        return Err(Why::NoCase);
    };
    let graph = graph_with(alloc, List::new(alloc));
    shown_as(ty, of_one(alloc, &graph, Kind::Cast, a, ty)?)
}

fn of_range(alloc: Global, words: &mut SplitWhitespace<'_>) -> Result<(Ty, Bits), Why> {
    let a = given(words)?;
    let hi = bit(words)?;
    let lo = bit(words)?;
    if hi < lo || a.ty.width <= hi {
        return Err(Why::NoCase);
    }
    let ty = Ty {
        signed: false,
        width: hi - lo + 1,
    };
    let graph = graph_with(alloc, List::new(alloc));
    shown_as(ty, of_one(alloc, &graph, Kind::Range { hi, lo }, a, ty)?)
}

/// The lowest bit of a pattern.
fn lowest(given: Given) -> Given
    ensures unsigned { result.ty.signed ≡ false }
    ensures wide { result.ty.width ≡ 1 }
{
    Given {
        ty: Ty {
            signed: false,
            width: 1,
        },
        bits: range(given.bits, 0, 0),
    }
}

fn of_choice(alloc: Global, words: &mut SplitWhitespace<'_>) -> Result<(Ty, Bits), Why> {
    let condition = lowest(given(words)?);
    let a = given(words)?;
    let b = given(words)?;
    let ty = common(a.ty, b.ty)?;
    let graph = graph_with(alloc, List::new(alloc));
    shown_as(ty, of_three(alloc, &graph, Kind::Mux, condition, a, b, ty)?)
}

/// The entries that the words behind have, of a width.
fn entries(alloc: Global, width: u8, words: &mut SplitWhitespace<'_>) -> Result<Vec<Bits>, Why>
    requires some { 1 ≤ width }
    requires most { width ≤ 128 }
    ensures { IfOk result (λ entries. All (λ e. e.width ≡ width) entries.items) }
{
    let mut entries = Vec::new(alloc);
    for _ in 0..MOST_ENTRIES {
        let Some(raw) = next_number(words) else {
            return Ok(entries);
        };
        let entry = range(Bits { raw, width: 128 }, width - 1, 0);
        if entries.push(entry).is_err() {
            return Err(Why::Memory);
        }
    }
    Ok(entries)
}

/// How many patterns a width has.
fn patterns_of(width: u8) -> usize
    requires { width ≤ 12 }
    ensures { result ≡ 2 ^ width }
{
    2usize.pow(u32::from(width))
}

fn of_table(alloc: Global, words: &mut SplitWhitespace<'_>) -> Result<(Ty, Bits), Why> {
    let index = given(words)?;
    let Some(ty) = next_type(words) else {
        return Err(Why::NoCase);
    };
    let entries = entries(alloc, ty.width, words)?;
    if index.ty.signed || 12 < index.ty.width {
        return Err(Why::NoCase);
    }
    if entries.len() < patterns_of(index.ty.width) {
        return Err(Why::NoCase);
    }
    let mut tables = List::new(alloc);
    tables.push(List::from_vec(entries))?;
    let graph = graph_with(alloc, tables);
    shown_as(ty, of_one(alloc, &graph, Kind::Rom(0), index, ty)?)
}

fn result_of(alloc: Global, text: &str) -> Result<(Ty, Bits), Why> {
    let mut words = text.split_whitespace();
    let Some(name) = words.next() else {
        return Err(Why::NoCase);
    };
    match name {
        "Neg" => of_unary(alloc, UnOp::Neg, &mut words),
        "Not" => of_unary(alloc, UnOp::Not, &mut words),
        "Lnot" => of_unary(alloc, UnOp::Lnot, &mut words),
        "Cast" => of_cast(alloc, &mut words),
        "Range" => of_range(alloc, &mut words),
        "Mux" => of_choice(alloc, &mut words),
        "Rom" => of_table(alloc, &mut words),
        _ => match operator_of(name) {
            Some(op) => of_operator(alloc, op, &mut words),
            None => Err(Why::NoCase),
        },
    }
}

/// Puts the line of a case, and the type and the pattern that its cells show.
fn put_line(out: &mut String, alloc: Global, text: &str) -> Result<(), AllocError> {
    out.push_str(text)?;
    match result_of(alloc, text) {
        Ok((ty, bits)) => {
            out.push_str(" = ")?;
            put_number(out, ty.signed, bits)?;
            out.push_str("\n")
        }
        Err(why) => write!(out, ": {why:?}\n"),
    }
}

/// Puts the lines of a table, each with what its cells show.
pub fn put_cells(out: &mut String, alloc: Global, table: &str) -> Result<(), AllocError> {
    for line in table.lines() {
        put_line(out, alloc, line)?;
    }
    Ok(())
}
