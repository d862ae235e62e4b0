ghost use Rattle.std.specs.Option.{option_copied};
ghost use Rattle.std.specs.Prelude.{◌≡◌, ◌<◌, ◌≤◌, [], ◌++◌, Some, length, ◌==◌, IfOk, IfSome, vec_capacity};
ghost use Rattle.rv_unit.specs.Numbering.{lasts_of, is_decoupled as specified_is_decoupled};
ghost use Rattle.rv_unit.specs.Entries.{is_frozen as specified_is_frozen};
ghost use Rattle.rv_unit.specs.Timed.{AreUnits, CanEnter, room};
ghost use Rattle.rv_engine.specs.Owing.{outstanding_of, paying, unpaid, oldest_serial, unit_hold as specified_unit_hold, unit_entered, owed_by_entering, outstanding_after};
ghost use Rattle.rv_engine.specs.Rows.{going, entering_of};
ghost use Rattle.rv_engine.specs.Places.{oldest_place, IsPayingPlace, without_place};

use ix_bits::Memory;
use ix_plan::{Design, Mode, Plan};
use rv_asks::Asks;
use rv_holds::Token;
use rv_seq::StepAnswer;
use rv_trace::Hold;
use rv_tried::{Spawned, spawn_writes};
use rv_unit::{Entry, Units, unit_laws};
use std::alloc::Global;
use std::marker::Model;

/// What a retired instruction with a unit still writes.
#[derive(Clone, Copy, Debug, PartialEq, Eq)]
pub struct Owed {
    /// The count of fetches before its own.
    pub serial: u32,
    /// What is asked of the instruction; the targets of its `spawn` body are among that.
    pub asks: Asks,
    pub writes: Spawned,
}

/// What is outstanding beside the stages. All memory is taken when it is made.
#[derive(Drop)]
pub struct Owing {
    units: Units,
    // One for each entry of the units, the newest first.
    owed: Vec<Owed>,
}

impl Model for Owing {
    ghost use Rattle.std.specs.Prelude.{vec_capacity};
    ghost use Rattle.rv_engine.specs.Owing.{Outstanding};
    ghost use Rattle.rv_engine.specs.Rows.{going, entering_of};
    ghost use Rattle.rv_engine.specs.Places.{AreKept};

    ghost Value = { Outstanding };

    ghost view = { λ o. record { stages = o.units.stages; lasts = o.units.lasts; entries = o.units.entries; owed = o.owed.items } };

    ghost invariant = { λ o. AreKept (record { stages = o.units.stages; lasts = o.units.lasts; entries = o.units.entries; owed = o.owed.items }) (vec_capacity o.owed) };
}

/// Whether a behaviour has a unit.
fn is_decoupled(plan: &Plan) -> bool
    ensures { result ≡ specified_is_decoupled plan.now.mode }
{
    matches!(plan.mode, Mode::Decoupled)
}

/// How many times the units of these behaviours have.
fn places_of(stages: u8, plans: &[Plan]) -> usize
    requires { AreUnits stages (lasts_of plans.now) }
    ensures { result ≡ room stages (lasts_of plans.now) }
{
    let mut places = 0;
    for plan in plans {
        if is_decoupled(plan) {
            places += (usize::from(plan.last) + 1).saturating_sub(usize::from(stages));
        }
    }
    places
}

/// Where the oldest entry of a unit stands.
fn oldest_in(entries: &[Entry], unit: u8) -> Option<usize>
    ensures place { result ≡ oldest_place unit entries.now }
    ensures inside { IfSome result (λ at. at < length entries.now) }
{
    match entries {
        [] => None,
        [entry, older @ ..] => match oldest_in(older, unit) {
            Some(at) => Some(at + 1),
            None => { if entry.unit == unit { Some(0) } else { None } }
        },
    }
}

/// The oldest serial of these: the last one.
fn last_serial(owed: &[Owed]) -> Option<u32>
    ensures { result ≡ oldest_serial owed.now }
{
    if owed.is_empty() {
        None
    } else {
        Some(owed[owed.len() - 1].serial)
    }
}

/// The oldest serial of these but for the one at this place.
fn oldest_but(owed: &[Owed], place: Option<usize>) -> Option<u32>
    requires { IfSome place (λ at. at < length owed.now) }
    ensures { result ≡ oldest_serial (without_place place owed.now) }
{
    match place {
        None => last_serial(owed),
        Some(at) => {
            if at + 1 == owed.len() {
                last_serial(&owed[..at])
            } else {
                last_serial(owed)
            }
        }
    }
}

/// Takes the one at this place away.
fn take_at(owed: &mut Vec<Owed>, place: Option<usize>)
    requires { IfSome place (λ at. at < length owed.old.items) }
    ensures items { owed.new.items ≡ without_place place owed.old.items }
    ensures capacity { vec_capacity owed.new ≡ vec_capacity owed.old }
{
    if let Some(at) = place {
        owed.remove(at);
    }
}

/// Puts what a token owes, if it has a unit and was tried, before all others, into reserved room.
fn put_owed(owed: &mut Vec<Owed>, token: &Token)
    requires { length (owed_by_entering (entering_of (Some token.now)) ++ owed.old.items) ≤ vec_capacity owed.old }
    ensures items { owed.new.items ≡ owed_by_entering (entering_of (Some token.now)) ++ owed.old.items }
    ensures capacity { vec_capacity owed.new ≡ vec_capacity owed.old }
{
    if token.asks.unit.is_some() {
        if let Some(trial) = &token.trial {
            if let StepAnswer::Done(commit) = &trial.answer {
                let one = Owed {
                    serial: token.cell.serial,
                    asks: token.asks,
                    writes: spawn_writes(&token.asks, &trial.own, commit),
                };
                owed.insert(0, one).unwrap();
            }
        }
    }
}

/// The same of the token of the last stage, of which this is the slot, where it goes out.
fn put_first(owed: &mut Vec<Owed>, slot: &Option<Token>)
    requires { length (owed_by_entering (entering_of (going slot.now)) ++ owed.old.items) ≤ vec_capacity owed.old }
    ensures items { owed.new.items ≡ owed_by_entering (entering_of (going slot.now)) ++ owed.old.items }
    ensures capacity { vec_capacity owed.new ≡ vec_capacity owed.old }
{
    if let Some(token) = slot {
        if token.cell.hold.is_none() {
            put_owed(owed, token);
        }
    }
}

/// The unit that a token enters, with its serial, where it has one and was tried.
fn entered_by(token: &Token) -> Option<(u8, u32)>
    ensures { result ≡ unit_entered (entering_of (Some token.now)) }
{
    let unit = token.asks.unit?;
    let trial = token.trial.as_ref()?;
    match &trial.answer {
        StepAnswer::Stopped(_) => None,
        StepAnswer::Done(_) => Some((unit, token.cell.serial)),
    }
}

/// The same of the token of the last stage, of which this is the slot, where it goes out.
fn entered(slot: &Option<Token>) -> Option<(u8, u32)>
    ensures { result ≡ unit_entered (entering_of (going slot.now)) }
{
    match slot {
        Some(token) if token.cell.hold.is_none() => entered_by(token),
        _ => None,
    }
}

impl Owing {
    /// The units of a design, in which nothing stands.
    pub fn new(alloc: Global, design: &Design) -> Result<Owing, Memory>
        requires { AreUnits design.now.sheet.shape.stages (lasts_of design.now.plans) }
        ensures { IfOk result (λ o. o ≡ outstanding_of design.now [] []) }
    {
        let places = places_of(design.sheet.shape.stages, design.plans.as_slice());
        let units = Units::new(alloc, design)?;
        match Vec::with_capacity(alloc, places) {
            Err(_) => Err(Memory),
            Ok(owed) => Ok(Owing { units, owed }),
        }
    }

    /// Where the entry stands that writes in this row: within a unit the oldest is the first at its last time.
    fn place(&self) -> Option<usize>
        ensures { IsPayingPlace self.now.lasts self.now.entries result }
    {
        match self.units.granted() {
            None => None,
            Some(unit) => oldest_in(self.units.entries(), unit),
        }
    }

    /// What is written in this row: all targets of one `spawn` body together.
    pub fn paying(&self) -> Option<&Owed>
        ensures { option_copied result ≡ paying self.now }
    {
        match self.place() {
            None => None,
            Some(at) => Some(&self.owed[at]),
        }
    }

    /// The oldest serial that is outstanding and not written in this row.
    pub fn left(&self) -> Option<u32>
        ensures { result ≡ oldest_serial (unpaid self.now) }
    {
        oldest_but(self.owed.as_slice(), self.place())
    }

    /// The hold of an instruction that enters this unit, if any: it is frozen.
    pub fn unit_hold(&self, unit: Option<u8>) -> Option<Hold>
        requires { IfSome unit (λ unit. unit < length self.now.lasts) }
        ensures { result ≡ specified_unit_hold self.now unit }
    {
        match unit {
            Some(unit) if self.units.frozen(unit) => Some(Hold::UnitFull(unit)),
            _ => None,
        }
    }

    /// Whether the unit with this number, if there is one, is frozen.
    pub fn is_frozen(&self, unit: u8) -> bool
        ensures { result ≡ specified_is_frozen self.now.lasts self.now.entries unit }
    {
        usize::from(unit) < self.units.count() && self.units.frozen(unit)
    }

    /// What is owed, the newest first.
    pub fn owed(&self) -> &[Owed]
        ensures { result.now ≡ self.now.owed }
    {
        self.owed.as_slice()
    }

    /// Whether nothing stands in units.
    pub fn is_idle(&self) -> bool
        ensures { result ≡ (length self.now.entries == 0) }
    {
        self.units.entries().is_empty()
    }

    /// One row: what is written leaves, and all others go on, with what the token of the last stage, of which this is the slot, enters a unit with. Takes no memory.
    pub fn cycle(&mut self, slot: &Option<Token>)
        requires { CanEnter self.old.lasts self.old.entries (unit_entered (entering_of (going slot.now))) }
        ensures { self.new ≡ outstanding_after self.old (entering_of (going slot.now)) }
    {
        unit_laws();
        let place = self.place();
        self.units.cycle(entered(slot));
        take_at(&mut self.owed, place);
        put_first(&mut self.owed, slot);
    }
}
