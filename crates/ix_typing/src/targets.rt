ghost use Rattle.std.specs.Prelude.{◌≡◌, ℕ, ◌-◌, ◌&&◌, cond, false, List, [], ◌∷◌, ◌++◌, length, take, drop, OnOk, OnErr, IfOk};
ghost use Rattle.std.specs.Ordering.{nat_cmp};
ghost use Rattle.std.specs.BTreeMap.{is_at};
ghost use Rattle.std.specs.BTreeSet.{contains};
ghost use Rattle.ix_typing.specs.Names.{is_among, number_of};
ghost use Rattle.ix_typing.specs.Kept.{IsMarked};

use ix_bits::Memory;
use std::alloc::Global;
use std::collections::BTreeSet;
use std::marker::Model;

/// What a behaviour writes: memory, an x register, the program counter, or the custom register of a number.
#[derive(Clone, Copy, Debug, PartialEq, Eq)]
pub enum Target {
    Memory,
    Rd,
    Pc,
    Register(usize),
}

/// Targets that were written, in order. Contracts see the list of them.
#[derive(Drop)]
pub struct Targets {
    alloc: Global,
    items: Vec<Target>,
    // Whether each is the first write of its target.
    first: Vec<bool>,
    // The numbers of the targets that were written.
    numbers: BTreeSet<u128>,
}

impl Model for Targets {
    ghost use Rattle.std.specs.Prelude.{List};
    ghost use Rattle.ix_typing.specs.declared.targets.Target.{Target};
    ghost use Rattle.ix_typing.specs.Kept.{IsMarked};

    ghost Value = { List Target };

    ghost view = { λ targets. targets.items.items };

    ghost invariant = { λ targets. IsMarked targets.items.items targets.first.items targets.numbers };
}

impl Targets {
    /// No target.
    pub fn new(alloc: Global) -> Targets
        ensures { result ≡ [] }
    {
        Targets {
            alloc,
            items: Vec::new(alloc),
            first: Vec::new(alloc),
            numbers: BTreeSet::new(alloc),
        }
    }

    /// How many writes there are.
    pub fn len(&self) -> usize
        ensures { result ≡ length self.now }
    {
        self.items.len()
    }

    /// Whether a target is written.
    pub fn contains(&self, target: Target) -> bool
        ensures { result ≡ is_among self.now target }
    {
        self.numbers.contains(&number(target))
    }

    /// Writes a target. Without memory nothing is written behind it.
    pub fn push(&mut self, target: Target) -> Result<(), Memory>
        ensures ok { OnOk result (self.new ≡ self.old ++ target ∷ []) }
        ensures err { OnErr result (self.new ≡ []) }
    {
        let alloc = self.alloc;
        match put(&mut self.items, &mut self.first, &mut self.numbers, target) {
            Ok(()) => Ok(()),
            Err(_) => {
                *self = Targets::new(alloc);
                Err(Memory)
            }
        }
    }

    /// Takes off the targets behind the first `count`, and tells them.
    pub fn split(&mut self, alloc: Global, count: usize) -> Result<Vec<Target>, Memory>
        ensures kept { OnOk result (self.new ≡ take count self.old) }
        ensures taken { IfOk result (λ t. t.items ≡ drop count self.old) }
    {
        let taken = rest(alloc, self.items.as_slice(), count)?;
        while self.items.len() > count {
            self.take_last();
        }
        Ok(taken)
    }

    // Takes off the last target.
    fn take_last(&mut self)
        ensures { self.new ≡ take (length self.old - 1) self.old }
    {
        let last = self.items.pop();
        let first = self.first.pop();
        match (last, first) {
            (Some(target), Some(first)) => take_back(&mut self.numbers, target, first),
            _ => {}
        }
    }

    /// Puts targets behind these.
    pub fn append(&mut self, more: &[Target]) -> Result<(), Memory>
        ensures { OnOk result (self.new ≡ self.old ++ more.now) }
    {
        for target in more {
            match self.push(*target) {
                Err(error) => return Err(error),
                Ok(()) => {}
            }
        }
        Ok(())
    }
}

// Puts a target behind the others.
fn put(
    items: &mut Vec<Target>,
    first: &mut Vec<bool>,
    numbers: &mut BTreeSet<u128>,
    target: Target,
) -> Result<(), Memory>
    ensures items { OnOk result (items.new.items ≡ items.old.items ++ target ∷ []) }
    ensures kept { OnOk result (IsMarked items.old.items first.old.items numbers.old → IsMarked items.new.items first.new.items numbers.new) }
{
    match numbers.insert(number(target)) {
        Err(_) => Err(Memory),
        Ok(added) => match first.push(added) {
            Err(_) => Err(Memory),
            Ok(()) => match items.push(target) {
                Err(_) => Err(Memory),
                Ok(()) => Ok(()),
            },
        },
    }
}

// Takes away the number of a target, where its first write is taken back.
fn take_back(numbers: &mut BTreeSet<u128>, target: Target, first: bool)
    ensures { (q : ℕ) → contains nat_cmp numbers.new q ≡ cond (first && is_at (nat_cmp (number_of target)) q) false (contains nat_cmp numbers.old q) }
{
    if first {
        numbers.remove(&number(target));
    }
}

// Copies of the targets behind the first `count`.
fn rest(alloc: Global, all: &[Target], count: usize) -> Result<Vec<Target>, Memory>
    ensures { IfOk result (λ v. v.items ≡ drop count all.now) }
{
    match Vec::from_slice(alloc, &all[count.min(all.len())..]) {
        Ok(items) => Ok(items),
        Err(_) => Err(Memory),
    }
}

// The number of a target, which no other has.
fn number(target: Target) -> u128
    ensures { result ≡ number_of target }
{
    match target {
        Target::Memory => 0,
        Target::Rd => 1,
        Target::Pc => 2,
        Target::Register(k) => k as u128 + 3,
    }
}
