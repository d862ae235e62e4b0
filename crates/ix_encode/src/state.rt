ghost use Rattle.std.specs.Prelude.{◌≡◌, ◌++◌, [], ◌∷◌, map, IfOk, OnOk};
ghost use Rattle.ix_tree.specs.TypedView.{typed_state};
ghost use Rattle.ix_bits.specs.NearTypes.{type_near};
ghost use Rattle.ix_typing.specs.Texts.{nearest};
ghost use Rattle.ix_extension.specs.Extensions.{registers_of, tables_of};

use crate::constant::{entries, initial};
use ix_bits::{List, Memory, Ty};
use ix_tree::{Register, Table, TypeKind, TypedState, TypedStateKind};
use std::alloc::Global;

/// Registers and tables with their values.
#[derive(Drop)]
pub struct States {
    pub registers: List<Register>,
    pub tables: List<Table>,
}

/// The registers and the tables, each in the order of the source.
pub fn meant(alloc: Global, all: Vec<TypedState>) -> Result<States, Memory>
    ensures registers { IfOk result (λ s. s.registers ≡ registers_of (map typed_state all.items)) }
    ensures tables { IfOk result (λ s. s.tables ≡ tables_of (map typed_state all.items)) }
{
    let mut states = States {
        registers: List::new(alloc),
        tables: List::new(alloc),
    };
    for state in all {
        match put(alloc, &mut states, state) {
            Err(_) => return Err(Memory),
            Ok(()) => {}
        }
    }
    Ok(states)
}

fn put(alloc: Global, states: &mut States, state: TypedState) -> Result<(), Memory>
    ensures registers { OnOk result (states.new.registers ≡ states.old.registers ++ registers_of (typed_state state ∷ [])) }
    ensures tables { OnOk result (states.new.tables ≡ states.old.tables ++ tables_of (typed_state state ∷ [])) }
{
    let TypedState {
        span: _,
        name,
        ty,
        kind,
    } = state;
    let ty = nearest(ty.kind);
    match kind {
        TypedStateKind::Register(value) => {
            let initial = initial(ty, &value);
            states.registers.push(Register { name, ty, initial })
        }
        TypedStateKind::Table {
            length: _,
            entries: all,
        } => match entries(alloc, ty, all.as_slice()) {
            Err(_) => Err(Memory),
            Ok(entries) => states.tables.push(Table { name, ty, entries }),
        },
    }
}

// The written type, or that which is next to it where its width is 0 or over 128.
fn nearest(kind: TypeKind) -> Ty
    ensures { result ≡ nearest kind }
{
    match kind {
        TypeKind::Signed(width) => near(true, width),
        TypeKind::Unsigned(width) => near(false, width),
        TypeKind::Int => Ty {
            signed: true,
            width: 32,
        },
        TypeKind::Bool => near(false, 1),
    }
}

fn near(signed: bool, width: u128) -> Ty
    ensures { result ≡ type_near signed width }
{
    Ty {
        signed,
        width: width.min(128).max(1) as u8,
    }
}
