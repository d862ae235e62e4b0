ghost use Rattle.std.specs.Prelude.{◌≡◌, ℕ, List, [], ◌∷◌, ◌++◌, OnOk, OnErr};
ghost use Rattle.std.specs.BTreeSet.{contains_text};
ghost use Rattle.ix_typing.specs.Names.{is_listed};

use ix_bits::{Memory, Name};
use std::alloc::Global;
use std::collections::BTreeSet;
use std::marker::Model;

/// Names in the order in which they were put there. Contracts see the list of them.
#[derive(Drop)]
pub struct TakenNames {
    alloc: Global,
    items: Vec<Name>,
    texts: BTreeSet<String>,
}

impl Model for TakenNames {
    ghost use Rattle.std.specs.Prelude.{◌≡◌, List, ℕ};
    ghost use Rattle.std.specs.BTreeSet.{contains_text};
    ghost use Rattle.ix_typing.specs.Names.{is_listed};

    ghost Value = { List (List ℕ) };

    ghost view = { λ taken. taken.items.items };

    ghost invariant = { λ taken. (n : List ℕ) → contains_text taken.texts n ≡ is_listed taken.items.items n };
}

impl TakenNames {
    /// No name.
    pub fn new(alloc: Global) -> TakenNames
        ensures { result ≡ [] }
    {
        TakenNames {
            alloc,
            items: Vec::new(alloc),
            texts: BTreeSet::new(alloc),
        }
    }

    /// Whether a name is among these.
    pub fn contains(&self, name: &str) -> bool
        ensures { result ≡ is_listed self.now name.now }
    {
        self.texts.contains(name)
    }

    /// Puts a name behind the others. Without memory there is no name behind it.
    pub fn push(&mut self, name: Name) -> Result<(), Memory>
        ensures ok { OnOk result (self.new ≡ self.old ++ name ∷ []) }
        ensures err { OnErr result (self.new ≡ []) }
    {
        let alloc = self.alloc;
        match put(alloc, &mut self.items, &mut self.texts, name) {
            Ok(()) => Ok(()),
            Err(_) => {
                *self = TakenNames::new(alloc);
                Err(Memory)
            }
        }
    }
}

// Puts a name behind the others.
fn put(
    alloc: Global,
    items: &mut Vec<Name>,
    texts: &mut BTreeSet<String>,
    name: Name,
) -> Result<(), Memory>
    ensures items { OnOk result (items.new.items ≡ items.old.items ++ name ∷ []) }
    ensures kept { OnOk result (((n : List ℕ) → contains_text texts.old n ≡ is_listed items.old.items n) → (n : List ℕ) → contains_text texts.new n ≡ is_listed items.new.items n) }
{
    match String::from_str(alloc, name.as_str()) {
        Err(_) => Err(Memory),
        Ok(text) => match texts.insert(text) {
            Err(_) => Err(Memory),
            Ok(_) => match items.push(name) {
                Err(_) => Err(Memory),
                Ok(()) => Ok(()),
            },
        },
    }
}
