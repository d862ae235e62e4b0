ghost use Rattle.std.specs.Prelude.{◌≡◌, ℕ, ◌-◌, List, [], ◌∷◌, ◌++◌, length, take, IsSome, OnOk, OnErr};
ghost use Rattle.std.specs.BTreeMap.{get_by_text};
ghost use Rattle.std.specs.Map.{update};
ghost use Rattle.std.specs.Str.{bytes_eq};
ghost use Rattle.ix_typing.specs.Kept.{IsKept};
ghost use Rattle.ix_typing.specs.Names.{role_of};

use crate::{Named, Role};
use ix_bits::{Memory, Name};
use std::alloc::Global;
use std::collections::BTreeMap;
use std::marker::Model;

/// The visible names with their roles, in the order of their declarations. Contracts see the list of them.
#[derive(Drop)]
pub struct Names {
    alloc: Global,
    items: Vec<Named>,
    // What each name stood for before its declaration.
    before: Vec<Option<Role>>,
    // What each visible name stands for.
    roles: BTreeMap<String, Role>,
}

impl Model for Names {
    ghost use Rattle.std.specs.Prelude.{List};
    ghost use Rattle.ix_typing.specs.declared.role.Named.{Named};
    ghost use Rattle.ix_typing.specs.Kept.{IsKept};

    ghost Value = { List Named };

    ghost view = { λ names. names.items.items };

    ghost invariant = { λ names. IsKept names.items.items names.before.items names.roles };
}

impl Names {
    /// No name.
    pub fn new(alloc: Global) -> Names
        ensures { result ≡ [] }
    {
        Names {
            alloc,
            items: Vec::new(alloc),
            before: Vec::new(alloc),
            roles: BTreeMap::new(alloc),
        }
    }

    /// How many declarations there are.
    pub fn len(&self) -> usize
        ensures { result ≡ length self.now }
    {
        self.items.len()
    }

    /// The role of a name, if it is visible: that of its last declaration.
    pub fn find(&self, name: &str) -> Option<Role>
        ensures { result ≡ role_of self.now name.now }
    {
        self.roles.get(name).copied()
    }

    /// Declares a name. Without memory no name is visible behind it.
    pub fn declare(&mut self, name: Name, role: Role) -> Result<(), Memory>
        ensures ok { OnOk result (self.new ≡ self.old ++ record { name = name; role = role } ∷ []) }
        ensures err { OnErr result (self.new ≡ []) }
    {
        let alloc = self.alloc;
        match put(
            alloc,
            &mut self.items,
            &mut self.before,
            &mut self.roles,
            name,
            role,
        ) {
            Ok(()) => Ok(()),
            Err(_) => {
                *self = Names::new(alloc);
                Err(Memory)
            }
        }
    }

    /// Takes away the declarations behind the first `count`.
    pub fn keep(&mut self, count: usize)
        ensures { self.new ≡ take count self.old }
    {
        while self.items.len() > count {
            self.take_last();
        }
    }

    // Takes away the last declaration.
    fn take_last(&mut self)
        ensures { self.new ≡ take (length self.old - 1) self.old }
    {
        let last = self.items.pop();
        let before = self.before.pop();
        match (last, before) {
            (Some(named), Some(before)) => set(&mut self.roles, named.name.as_str(), before),
            _ => {}
        }
    }
}

// Puts a declaration behind the others.
fn put(
    alloc: Global,
    items: &mut Vec<Named>,
    before: &mut Vec<Option<Role>>,
    roles: &mut BTreeMap<String, Role>,
    name: Name,
    role: Role,
) -> Result<(), Memory>
    ensures items { OnOk result (items.new.items ≡ items.old.items ++ record { name = name; role = role } ∷ []) }
    ensures kept { OnOk result (IsKept items.old.items before.old.items roles.old → IsKept items.new.items before.new.items roles.new) }
{
    match String::from_str(alloc, name.as_str()) {
        Err(_) => Err(Memory),
        Ok(key) => match roles.insert(key, role) {
            Err(_) => Err(Memory),
            Ok(old) => match before.push(old) {
                Err(_) => Err(Memory),
                Ok(()) => match items.push(Named { name, role }) {
                    Err(_) => Err(Memory),
                    Ok(()) => Ok(()),
                },
            },
        },
    }
}

// What a name that stands for something is to stand for now; `None` takes it away.
fn set(roles: &mut BTreeMap<String, Role>, name: &str, role: Option<Role>)
    ensures { IsSome (get_by_text roles.old name.now) → (n : List ℕ) → get_by_text roles.new n ≡ update bytes_eq (get_by_text roles.old) name.now role n }
{
    match role {
        None => {
            roles.remove(name);
        }
        Some(role) => {
            if let Some(now) = roles.get_mut(name) {
                *now = role;
            }
        }
    }
}
