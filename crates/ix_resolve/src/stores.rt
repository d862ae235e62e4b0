ghost use Rattle.std.specs.Prelude.{◌≡◌, ◌∷◌, List, map, IfOk};
ghost use Rattle.ix_bits.specs.declared.number.Ty.{Ty};
ghost use Rattle.ix_bits.specs.declared.number.Bits.{Bits};
ghost use Rattle.ix_mean.specs.Core.{u32 as word_type};
ghost use Rattle.ix_mean.specs.View.{view_statement, view_statements};
ghost use Rattle.ix_behaviour.specs.Behaviours.{stored_in, or_byte, type_of_register};

use ix_bits::{List, Memory, Ty};
use ix_mean::ResolvedStmt;
use ix_slots::type_near;
use ix_tree::Register;
use std::alloc::Global;

// The type of what the first store writes, if there is one.
#[cycle(stores)]
fn stored(x: &ResolvedStmt) -> Option<Ty>
    ensures { (tables : List (List Bits)) → result ≡ stored_in (view_statement tables x.now) }
{
    match x {
        ResolvedStmt::Block(all) => stored_first(all.as_slice()),
        ResolvedStmt::Set(_, _, _) => None,
        ResolvedStmt::Write(w) => { if w.target == 0 { Some(w.ty) } else { None } }
        ResolvedStmt::If(_, x, y) => match stored(x) {
            Some(ty) => Some(ty),
            None => stored(y),
        },
        ResolvedStmt::Spawn(x) => stored(x),
    }
}

/// The type of what the first store of the statements writes, if there is one.
#[cycle(stores)]
pub(crate) fn stored_first(all: &[ResolvedStmt]) -> Option<Ty>
    ensures { (tables : List (List Bits)) → result ≡ stored_in (view_statements tables all.now) }
{
    for x in all {
        match stored(x) {
            Some(ty) => return Some(ty),
            None => {}
        }
    }
    None
}

/// The types of the targets: memory, rd, the program counter, the custom registers.
pub(crate) fn target_types(
    alloc: Global,
    registers: &[Register],
    stored: Option<Ty>,
) -> Result<List<Ty>, Memory>
    ensures { IfOk result (λ ts. ts ≡ or_byte stored ∷ word_type ∷ word_type ∷ map type_of_register registers.now) }
{
    let memory = match stored {
        None => type_near(false, 8),
        Some(ty) => ty,
    };
    let word = type_near(false, 32);
    let mut targets = List::from_slice(alloc, &[memory, word, word])?;
    for register in registers {
        targets.push(register.ty)?;
    }
    Ok(targets)
}
