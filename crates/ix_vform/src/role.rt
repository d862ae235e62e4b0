ghost use Rattle.std.specs.Prelude.{◌≡◌, ◌||◌, ℕ, List, Some, IfOk, OnOk};
ghost use Rattle.std.specs.BTreeMap.{get_by_text};
ghost use Rattle.std.specs.BTreeSet.{contains_text};
ghost use Rattle.std.specs.Map.{update};
ghost use Rattle.std.specs.Str.{bytes_eq};
ghost use Rattle.ix_vform.specs.Kept.{first_of as specified_first_of};

use ix_bits::Memory;
use std::alloc::Global;
use std::collections::{BTreeMap, BTreeSet};

/// What a name is in a module. A name that is declared more than once is an input if it is declared
/// as one, else what an `assign` drives, else a register, in whatever order its declarations stand.
#[derive(Clone, Copy)]
pub enum Role {
    Input,
    /// An output or a wire that is no input.
    Assigned,
    /// A register that is nothing else.
    Register,
}

/// What a name is by two declarations: the role that comes first in the order of `Role`.
fn first_of(old: Option<Role>, new: Role) -> Role
    ensures { result ≡ specified_first_of old new }
{
    match old {
        None => new,
        Some(old) => match old {
            Role::Input => Role::Input,
            Role::Assigned => match new {
                Role::Input => Role::Input,
                Role::Assigned => Role::Assigned,
                Role::Register => Role::Assigned,
            },
            Role::Register => new,
        },
    }
}

/// Declares a name once more: its role becomes what it is by both declarations.
pub fn declare(
    alloc: Global,
    roles: &mut BTreeMap<String, Role>,
    name: &str,
    role: Role,
) -> Result<(), Memory>
    ensures { OnOk result ((n : List ℕ) →
        get_by_text roles.new n ≡ update bytes_eq (get_by_text roles.old) name.now (Some (specified_first_of (get_by_text roles.old name.now) role)) n) }
{
    let old = roles.get(name).copied();
    let Ok(key) = String::from_str(alloc, name) else {
        return Err(Memory);
    };
    match roles.insert(key, first_of(old, role)) {
        Ok(_) => Ok(()),
        Err(failed) => {
            drop(failed);
            Err(Memory)
        }
    }
}

/// Puts a name into a set.
pub fn mark(alloc: Global, names: &mut BTreeSet<String>, name: &str) -> Result<(), Memory>
    ensures { OnOk result ((n : List ℕ) → contains_text names.new n ≡ (bytes_eq name.now n || contains_text names.old n)) }
{
    let Ok(key) = String::from_str(alloc, name) else {
        return Err(Memory);
    };
    match names.insert(key) {
        Ok(_) => Ok(()),
        Err(failed) => {
            drop(failed);
            Err(Memory)
        }
    }
}
