ghost use Rattle.std.specs.Prelude.{◌≡◌, ℕ, ◌≤◌, List, length, IfOk, OnOk};
ghost use Rattle.std.specs.BTreeMap.{get_by_text};
ghost use Rattle.std.specs.Map.{update};
ghost use Rattle.std.specs.Str.{bytes_eq};
ghost use Rattle.ix_slots.specs.Found.{names_of, custom_at, table_at, AreCustoms, AreTables};

use ix_bits::{Memory, Ty};
use ix_tree::{Piece, Register, Table};
use std::alloc::Global;
use std::collections::BTreeMap;
use std::marker::Model;

/// A custom register by its number, with its type.
#[derive(Clone, Copy, Debug, PartialEq, Eq)]
pub(crate) struct Custom {
    pub number: u8,
    pub ty: Ty,
}

/// What the names of a behaviour stand for besides its locals. Contracts see the pieces of its instruction's fields, the custom
/// registers and the tables.
#[derive(Drop)]
pub struct Names<'a> {
    pieces: &'a [Piece],
    registers: &'a [Register],
    tables: &'a [Table],
    // The custom register of each name.
    customs: BTreeMap<String, Custom>,
    // The number of the table of each name.
    numbers: BTreeMap<String, usize>,
}

impl<'a> Model for Names<'a> {
    ghost use Rattle.ix_mean.specs.ByName as N;
    ghost use Rattle.ix_slots.specs.Found.{AreCustoms, AreTables};

    ghost Value = { N.Names };

    ghost view = { λ names. record { pieces = names.pieces.now; registers = names.registers.now; tables = names.tables.now } };

    ghost invariant = { λ names. AreCustoms names.registers.now names.customs × AreTables names.tables.now names.numbers };
}

impl<'a> Names<'a> {
    /// The names of an extension's registers and tables, and of these fields.
    pub fn new(
        alloc: Global,
        pieces: &'a [Piece],
        registers: &'a [Register],
        tables: &'a [Table],
    ) -> Result<Names<'a>, Memory>
        requires { length registers.now ≤ 16 }
        ensures { IfOk result (λ names. names ≡ names_of pieces.now registers.now tables.now) }
    {
        let customs = customs_of(alloc, registers)?;
        let numbers = numbers_of(alloc, tables)?;
        Ok(Names {
            pieces,
            registers,
            tables,
            customs,
            numbers,
        })
    }

    /// The pieces of the fields.
    pub(crate) fn pieces(&self) -> &[Piece]
        ensures { result.now ≡ self.now.pieces }
    {
        self.pieces
    }

    /// The custom register with a name: the first of it.
    pub(crate) fn custom(&self, name: &str) -> Option<Custom>
        ensures { result ≡ custom_at self.now.registers name.now }
    {
        self.customs.get(name).copied()
    }

    /// The number of the table with a name: that of the first of it.
    pub(crate) fn table(&self, name: &str) -> Option<usize>
        ensures { result ≡ table_at self.now.tables name.now }
    {
        self.numbers.get(name).copied()
    }
}

// The custom register of each name.
fn customs_of(alloc: Global, registers: &[Register]) -> Result<BTreeMap<String, Custom>, Memory>
    requires { length registers.now ≤ 16 }
    ensures { IfOk result (λ customs. AreCustoms registers.now customs) }
{
    let mut customs = BTreeMap::new(alloc);
    let mut at = registers.len();
    while at > 0 {
        at -= 1;
        let register = &registers[at];
        let custom = Custom {
            number: at as u8,
            ty: register.ty,
        };
        put_custom(alloc, &mut customs, register.name.as_str(), custom)?;
    }
    Ok(customs)
}

// The number of the table of each name.
fn numbers_of(alloc: Global, tables: &[Table]) -> Result<BTreeMap<String, usize>, Memory>
    ensures { IfOk result (λ numbers. AreTables tables.now numbers) }
{
    let mut numbers = BTreeMap::new(alloc);
    let mut at = tables.len();
    while at > 0 {
        at -= 1;
        let table = &tables[at];
        put_number(alloc, &mut numbers, table.name.as_str(), at)?;
    }
    Ok(numbers)
}

// What a name stands for from now on.
fn put_custom(
    alloc: Global,
    customs: &mut BTreeMap<String, Custom>,
    name: &str,
    custom: Custom,
) -> Result<(), Memory>
    ensures { OnOk result ((n : List ℕ) → get_by_text customs.new n ≡ update bytes_eq (get_by_text customs.old) name.now (Some custom) n) }
{
    match String::from_str(alloc, name) {
        Err(_) => Err(Memory),
        Ok(key) => match customs.insert(key, custom) {
            Err(_) => Err(Memory),
            Ok(_) => Ok(()),
        },
    }
}

// The number of the table that a name stands for from now on.
fn put_number(
    alloc: Global,
    numbers: &mut BTreeMap<String, usize>,
    name: &str,
    number: usize,
) -> Result<(), Memory>
    ensures { OnOk result ((n : List ℕ) → get_by_text numbers.new n ≡ update bytes_eq (get_by_text numbers.old) name.now (Some number) n) }
{
    match String::from_str(alloc, name) {
        Err(_) => Err(Memory),
        Ok(key) => match numbers.insert(key, number) {
            Err(_) => Err(Memory),
            Ok(_) => Ok(()),
        },
    }
}
