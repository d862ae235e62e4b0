ghost use Rattle.std.specs.Prelude.{◌≡◌, ◌+◌, ◌≤◌, ◌<◌, ◌==◌, None, if◌then◌else◌, ℕ, List, length, option_map};
ghost use Rattle.rv_harts.specs.Harts.{Fetched};
ghost use Rattle.rv_harts.specs.Events.{settles as specified_settles, successor as specified_successor, event_of as specified_event_of, event_from as specified_event_from, event_here};
ghost use Rattle.rv_harts.specs.Turns.{stop_due as specified_stop_due};
ghost use Rattle.rv_lawful.specs.Settings.{Setting};
ghost use Rattle.rv_barrel.specs.Cells.{fetched_of, AreAsked, AreOwed};
ghost use Rattle.rv_barrel.specs.Older.{kept_of};
ghost use Rattle.rv_barrel.specs.Turning.{IsCore, IsTriedAt, AreTried, next_in, led_from, led_in, stopped_so};

use crate::cell::{InFlight, Owed};
use crate::turning::{stop_due, turn_of};
use rv_asks::Asks;
use rv_core::Shape;
use rv_harts::{Event, EventAt};
use rv_past::Step;
use rv_seq::StepAnswer;

// Does an instruction settle its successor in this stage?
fn settles(shape: Shape, stage: u8, asks: &Asks) -> bool
    requires { stage < 255 }
    ensures { (k : Setting) (c : Fetched) → IsCore k shape → asks.now ≡ k.asks c.word → result ≡ specified_settles k stage c }
{
    if asks.late {
        stage + 1 == shape.stages
    } else {
        stage == shape.ex
    }
}

// The address behind a step.
fn next_of(step: &Step) -> u32
    ensures { result ≡ next_in step.now.pc step.now.answer }
{
    match &step.answer {
        StepAnswer::Done(commit) => commit.next,
        StepAnswer::Stopped(_) => step.pc,
    }
}

// Where an instruction leads that was tried, unless that is this address.
fn leads(one: &InFlight, near: u32) -> Option<Event>
    ensures { (k : Setting) (c : Fetched) → IsTriedAt k c.place one.now → result ≡ led_from (specified_successor k c) near }
{
    match &one.step {
        None => None,
        Some(step) => {
            let next = next_of(step);
            if next == near {
                None
            } else {
                Some(Event::Led(next))
            }
        }
    }
}

// Where an instruction in this stage leads, where it settles its successor there and that is not this address.
fn leads_in(shape: Shape, near: u32, stage: u8, one: &InFlight) -> Option<Event>
    requires { stage < 255 }
    ensures { (k : Setting) (c : Fetched) → IsCore k shape → one.now.asks ≡ k.asks c.word → (k.shape.ex ≤ stage → IsTriedAt k c.place one.now) → result ≡ led_in k near stage c }
{
    if settles(shape, stage, &one.asks) {
        leads(one, near)
    } else {
        None
    }
}

// The stop that an instruction in this stage makes, where this stage is EX.
fn stops_in(shape: Shape, stage: u8, one: &InFlight) -> Option<Event>
    ensures { (k : Setting) (c : Fetched) → IsCore k shape → (k.shape.ex ≤ stage → IsTriedAt k c.place one.now) → result ≡ (if stage == k.shape.ex then option_map stopped_so (specified_stop_due k c) else None) }
{
    if stage == shape.ex {
        stop_due(one).map(|stop| Event::Stopped(stop))
    } else {
        None
    }
}

// What an instruction does in this stage by which the younger ones are flushed, where the next younger one, or else the next fetch, has this address.
fn event_of(
    shape: Shape,
    near: u32,
    stage: u8,
    one: &InFlight,
    owed: &[Owed],
    out: Option<u32>,
    older: &[Option<InFlight>],
) -> Option<Event>
    requires { stage + 1 + length older.now < 255 }
    ensures { (k : Setting) (q : ℕ) (all : List Fetched) (c : Fetched) → IsCore k shape → c.at ≡ one.now.at → one.now.asks ≡ k.asks c.word → (k.shape.ex ≤ stage → IsTriedAt k c.place one.now) → AreAsked k older.now → AreOwed k owed.now all → result ≡ specified_event_of k all (kept_of out all) near stage c (fetched_of q older.now) }
{
    match turn_of(shape, stage, one, owed, out, older) {
        Some(turn) => Some(Event::Turned(turn, one.at)),
        None => match stops_in(shape, stage, one) {
            None => leads_in(shape, near, stage, one),
            event => event,
        },
    }
}

// The same with the stage.
fn event_at(
    shape: Shape,
    near: u32,
    stage: u8,
    one: &InFlight,
    owed: &[Owed],
    out: Option<u32>,
    older: &[Option<InFlight>],
) -> Option<EventAt>
    requires { stage + 1 + length older.now < 255 }
    ensures { (k : Setting) (q : ℕ) (all : List Fetched) (c : Fetched) → IsCore k shape → c.at ≡ one.now.at → one.now.asks ≡ k.asks c.word → (k.shape.ex ≤ stage → IsTriedAt k c.place one.now) → AreAsked k older.now → AreOwed k owed.now all → result ≡ option_map (event_here stage) (specified_event_of k all (kept_of out all) near stage c (fetched_of q older.now)) }
{
    match event_of(shape, near, stage, one, owed, out, older) {
        None => None,
        Some(event) => Some(EventAt { stage, event }),
    }
}

/// Of what stands in these stages, of which the first is this one, the event of the oldest that has one. The fetch address is given.
pub fn event_from(
    shape: Shape,
    near: u32,
    stage: u8,
    slots: &[Option<InFlight>],
    owed: &[Owed],
    out: Option<u32>,
) -> Option<EventAt>
    requires { stage + length slots.now < 250 }
    ensures { (k : Setting) (q : ℕ) (all : List Fetched) → IsCore k shape → AreAsked k slots.now → AreTried k k.shape.ex q stage slots.now → AreOwed k owed.now all → result ≡ specified_event_from k all (kept_of out all) near stage (fetched_of q slots.now) }
{
    match slots {
        [] => None,
        [slot, older @ ..] => match slot {
            None => event_from(shape, near, stage + 1, older, owed, out),
            Some(one) => match event_from(shape, one.at, stage + 1, older, owed, out) {
                None => event_at(shape, near, stage, one, owed, out, older),
                found => found,
            },
        },
    }
}
