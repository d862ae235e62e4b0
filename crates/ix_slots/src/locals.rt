ghost use Rattle.std.specs.Prelude.{◌≡◌, ℕ, ◌-◌, ◌+◌, List, [], ◌∷◌, ◌++◌, length, drop, IsSome, IfOk, OnOk, option_map};
ghost use Rattle.std.specs.BTreeMap.{get_by_text};
ghost use Rattle.std.specs.Map.{update};
ghost use Rattle.std.specs.Str.{bytes_eq};
ghost use Rattle.ix_mean.specs.Core.{u32 as word_type};
ghost use Rattle.ix_mean.specs.ResolvingStatements.{outside};
ghost use Rattle.ix_slots.specs.Kept.{place_at, with_local, IsKept};

use ix_bits::{Memory, Name, Ty};
use std::alloc::Global;
use std::collections::BTreeMap;
use std::marker::Model;

/// The type and the slot of a local.
#[derive(Clone, Copy, Debug, PartialEq, Eq)]
pub(crate) struct Place {
    pub ty: Ty,
    pub slot: usize,
}

/// A visible local.
#[derive(Drop)]
pub(crate) struct Local {
    pub name: Name,
    pub place: Place,
}

/// The visible locals, the newest first, and the types of all slots so far. Contracts see both.
#[derive(Drop)]
pub struct Locals {
    alloc: Global,
    items: Vec<Local>,
    // What each name stood for before its declaration.
    before: Vec<Option<Place>>,
    // What each visible name stands for.
    places: BTreeMap<String, Place>,
    slots: Vec<Ty>,
}

impl Model for Locals {
    ghost use Rattle.ix_mean.specs.ResolvingStatements.{Scope};
    ghost use Rattle.ix_slots.specs.Kept.{scope_of, IsKept};

    ghost Value = { Scope };

    ghost view = { λ locals. scope_of locals.items.items locals.slots.items };

    ghost invariant = { λ locals. IsKept locals.items.items locals.before.items locals.places };
}

impl Locals {
    /// No local, and no slot.
    pub fn new(alloc: Global) -> Locals
        ensures { result ≡ outside }
    {
        Locals {
            alloc,
            items: Vec::new(alloc),
            before: Vec::new(alloc),
            places: BTreeMap::new(alloc),
            slots: Vec::new(alloc),
        }
    }

    /// How many locals are visible.
    pub(crate) fn len(&self) -> usize
        ensures { result ≡ length self.now.locals }
    {
        self.items.len()
    }

    /// The type and the slot of a name, if a local with it is visible: those of its last declaration.
    pub(crate) fn find(&self, name: &str) -> Option<Place>
        ensures { result ≡ place_at self.now.locals name.now }
    {
        self.places.get(name).copied()
    }

    /// Declares a local, and gives it the next slot.
    pub(crate) fn declare(&mut self, name: &Name, ty: Ty) -> Result<usize, Memory>
        ensures slot { IfOk result (λ k. k ≡ length self.old.slots) }
        ensures scope { OnOk result (self.new ≡ with_local self.old name.now ty) }
    {
        match Name::from_text(self.alloc, name.as_str()) {
            Err(_) => Err(Memory),
            Ok(name) => self.add(name, ty),
        }
    }

    // Declares a local with the next slot.
    fn add(&mut self, name: Name, ty: Ty) -> Result<usize, Memory>
        ensures slot { IfOk result (λ k. k ≡ length self.old.slots) }
        ensures scope { OnOk result (self.new ≡ with_local self.old name ty) }
    {
        let alloc = self.alloc;
        let slot = self.slots.len();
        match put(
            alloc,
            &mut self.items,
            &mut self.before,
            &mut self.places,
            name,
            Place { ty, slot },
        ) {
            Ok(()) => match self.slots.push(ty) {
                Ok(()) => Ok(slot),
                Err(_) => Err(Memory),
            },
            Err(_) => {
                *self = Locals::new(alloc);
                Err(Memory)
            }
        }
    }

    /// Takes away the newest locals, so that `count` are left. Their slots stay taken.
    pub(crate) fn keep(&mut self, count: usize)
        ensures locals { self.new.locals ≡ drop (length self.old.locals - count) self.old.locals }
        ensures slots { self.new.slots ≡ self.old.slots }
    {
        while self.len() > count {
            self.take_last();
        }
    }

    // Takes away the newest local.
    fn take_last(&mut self)
        ensures locals { self.new.locals ≡ drop 1 self.old.locals }
        ensures slots { self.new.slots ≡ self.old.slots }
    {
        let last = self.items.pop();
        let before = self.before.pop();
        match (last, before) {
            (Some(local), Some(before)) => set(&mut self.places, local.name.as_str(), before),
            _ => {}
        }
    }

    /// The types of the slots.
    pub fn into_slots(self) -> Vec<Ty>
        ensures { result.items ≡ self.slots }
    {
        let Locals {
            alloc: _,
            items: _,
            before: _,
            places: _,
            slots,
        } = self;
        slots
    }
}

// Puts a local behind the others.
fn put(
    alloc: Global,
    items: &mut Vec<Local>,
    before: &mut Vec<Option<Place>>,
    places: &mut BTreeMap<String, Place>,
    name: Name,
    place: Place,
) -> Result<(), Memory>
    ensures items { OnOk result (items.new.items ≡ items.old.items ++ record { name = name; place = place } ∷ []) }
    ensures kept { OnOk result (IsKept items.old.items before.old.items places.old → IsKept items.new.items before.new.items places.new) }
{
    match String::from_str(alloc, name.as_str()) {
        Err(_) => Err(Memory),
        Ok(key) => match places.insert(key, place) {
            Err(_) => Err(Memory),
            Ok(old) => match before.push(old) {
                Err(_) => Err(Memory),
                Ok(()) => match items.push(Local { name, place }) {
                    Err(_) => Err(Memory),
                    Ok(()) => Ok(()),
                },
            },
        },
    }
}

// What a name that stands for something is to stand for now; `None` takes it away.
fn set(places: &mut BTreeMap<String, Place>, name: &str, place: Option<Place>)
    ensures { IsSome (get_by_text places.old name.now) → (n : List ℕ) → get_by_text places.new n ≡ update bytes_eq (get_by_text places.old) name.now place n }
{
    match place {
        None => {
            places.remove(name);
        }
        Some(place) => {
            if let Some(now) = places.get_mut(name) {
                *now = place;
            }
        }
    }
}
