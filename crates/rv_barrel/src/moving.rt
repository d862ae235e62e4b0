ghost use Rattle.std.specs.Prelude.{◌≡◌, ◌+◌, ◌-◌, ◌<◌, ◌^◌, ◌||◌, suc, Option, Some, None, is_some, length, get_or, slice_set, IfSome, if◌then◌else◌};
ghost use Rattle.ix_extension.specs.Extensions.{view_extension};
ghost use Rattle.ix_extension.specs.WellFormed.{IsWellFormed};
ghost use Rattle.ix_eval.specs.Scratches.{IsScratchOf};
ghost use Rattle.rv_asks.specs.Asks.{IsAskingOf};
ghost use Rattle.rv_seq.specs.WordEffects.{AreWide};
ghost use Rattle.rv_harts.specs.Harts.{Fetched};
ghost use Rattle.rv_harts.specs.HartRows.{address_after as specified_address_after, lost as specified_lost, event_at};
ghost use Rattle.rv_seq.specs.Steps.{word_at as specified_word_at};
ghost use Rattle.rv_barrel.specs.Moving.{new_one, new_in, put_first, with_step, tried_at, going, advanced, all_free, ahead_of, IsSoundSlot};

use crate::cell::{Front, InFlight};
use ix_eval::Scratch;
use ix_plan::Design;
use rv_asks::{Asking, asks_of};
use rv_harts::{Event, EventAt};
use rv_past::step_of;
use rv_seq::{Arch, StepAnswer, apply, decode_in, word_at};

// What is fetched with this word.
fn fetched(design: &Design, asking: &Asking, serial: u32, at: u32, word: u32) -> InFlight
    requires well_formed { IsWellFormed design.now.extension }
    requires asking { IsAskingOf design.now asking.now }
    ensures { result ≡ new_one design.now serial at word }
{
    let decoded = decode_in(&design.extension, word);
    let asks = asks_of(asking, word, decoded);
    InFlight {
        serial,
        at,
        word,
        asks,
        step: None,
    }
}

// Puts what is fetched into stage 0, which is free, where a hart may fetch and the image has a word at the fetch address. Tells whether there is one.
fn enter(
    design: &Design,
    asking: &Asking,
    image: &[u32],
    may_fetch: bool,
    front: Front,
    slot: &mut Option<InFlight>,
) -> bool
    requires well_formed { IsWellFormed design.now.extension }
    requires asking { IsAskingOf design.now asking.now }
    requires free { slot.old ≡ None }
    ensures new { result ≡ is_some (if may_fetch then new_in design.now front.next front.fetch (specified_word_at image.now front.fetch) else None) }
    ensures slot { slot.new ≡ (if may_fetch then new_in design.now front.next front.fetch (specified_word_at image.now front.fetch) else None) }
{
    if !may_fetch {
        return false;
    }
    match word_at(image, front.fetch) {
        None => false,
        Some(word) => {
            *slot = Some(fetched(design, asking, front.next, front.fetch, word));
            true
        }
    }
}

// Tries an instruction on this state. It stands apart, since its caller would set room for a step to zero in each row.
#[inline(never)]
fn try_one(design: &Design, image: &[u32], ahead: &Arch, one: &mut InFlight, scratch: &mut Scratch)
    requires well_formed { IsWellFormed design.now.extension }
    requires wide { AreWide (view_extension design.now.extension) ahead.now.custom }
    requires scratch { IsScratchOf (view_extension design.now.extension) scratch.old }
    ensures scratch { IsScratchOf (view_extension design.now.extension) scratch.new }
    ensures sound { IsSoundSlot (view_extension design.now.extension) (Some one.new) }
    ensures one { Some one.new ≡ with_step (view_extension design.now.extension) image.now ahead.now (Some one.old) }
{
    // The count of accesses before it is asked by no rule here.
    one.step = Some(step_of(&design.extension, image, ahead, 0, scratch));
}

// Tries what stands in a slot on this state, where something does.
fn try_slot(
    design: &Design,
    image: &[u32],
    ahead: &Arch,
    slot: &mut Option<InFlight>,
    scratch: &mut Scratch,
)
    requires well_formed { IsWellFormed design.now.extension }
    requires wide { AreWide (view_extension design.now.extension) ahead.now.custom }
    requires scratch { IsScratchOf (view_extension design.now.extension) scratch.old }
    ensures scratch { IsScratchOf (view_extension design.now.extension) scratch.new }
    ensures sound { IsSoundSlot (view_extension design.now.extension) slot.new }
    ensures slot { slot.new ≡ with_step (view_extension design.now.extension) image.now ahead.now slot.old }
{
    if let Some(one) = slot {
        try_one(design, image, ahead, one, scratch);
    }
}

/// The stages as a row begins, the first of them free: what is fetched comes in, and what stands in EX is tried on the state behind all that has left EX. Tells whether something is
/// fetched.
pub fn prepare(
    design: &Design,
    asking: &Asking,
    image: &[u32],
    may_fetch: bool,
    front: Front,
    ahead: &Arch,
    slots: &mut [Option<InFlight>],
    scratch: &mut Scratch,
) -> bool
    requires well_formed { IsWellFormed design.now.extension }
    requires asking { IsAskingOf design.now asking.now }
    requires wide { AreWide (view_extension design.now.extension) ahead.now.custom }
    requires scratch { IsScratchOf (view_extension design.now.extension) scratch.old }
    requires inside { design.now.sheet.shape.ex < length slots.old }
    requires free { get_or slots.old 0 None ≡ None }
    ensures scratch { IsScratchOf (view_extension design.now.extension) scratch.new }
    ensures new { result ≡ is_some (if may_fetch then new_in design.now front.next front.fetch (specified_word_at image.now front.fetch) else None) }
    ensures sound { IsSoundSlot (view_extension design.now.extension) (get_or slots.new design.now.sheet.shape.ex None) }
    ensures slots { slots.new ≡ tried_at (view_extension design.now.extension) image.now ahead.now design.now.sheet.shape.ex (put_first (if may_fetch then new_in design.now front.next front.fetch (specified_word_at image.now front.fetch) else None) slots.old) }
{
    let new = enter(design, asking, image, may_fetch, front, &mut slots[0]);
    let execute = usize::from(design.sheet.shape.ex);
    try_slot(design, image, ahead, &mut slots[execute], scratch);
    new
}

// The next fetch address, where something comes into stage 0 or nothing does, and this is the event of the row.
fn address_after(fetch: u32, is_new: bool, event: &Option<EventAt>) -> u32
    ensures { (new : Option Fetched) → is_new ≡ is_some new → IfSome new (λ c. c.at ≡ fetch) → result ≡ specified_address_after fetch new (event_at event.now) }
{
    match event {
        None => { if is_new { fetch.wrapping_add(4) } else { fetch } }
        Some(found) => match found.event {
            Event::Turned(_, at) => at,
            Event::Led(at) => at,
            Event::Stopped(_) => fetch,
        },
    }
}

/// How many stages, from stage 0 on, have nothing that goes on.
pub fn lost(event: &Option<EventAt>) -> u8
    requires { IfSome event.now (λ e. e.stage < 255) }
    ensures { result ≡ specified_lost event.now }
{
    match event {
        None => 0,
        Some(found) => match found.event {
            Event::Led(_) => found.stage,
            Event::Turned(_, _) => found.stage + 1,
            Event::Stopped(_) => found.stage + 1,
        },
    }
}

// Frees a stage. A slot is large, and one that is free is left as it is.
fn free_slot(slot: &mut Option<InFlight>)
    ensures { slot.new ≡ None }
{
    if slot.is_some() {
        *slot = None;
    }
}

// Puts what goes on from the stage before into a stage; so many of the first stages have nothing that does.
fn come_at(slots: &mut [Option<InFlight>], gone: usize, stage: usize)
    requires before { 0 < stage }
    requires inside { stage < length slots.old }
    ensures { slots.new ≡ slice_set slots.old stage (going gone (stage - 1) (get_or slots.old (stage - 1) None)) }
{
    let before = stage - 1;
    if before < gone || slots[before].is_none() {
        free_slot(&mut slots[stage]);
    } else {
        slots[stage] = slots[before];
    }
}

/// Each stage one on, where so many of the first have nothing that goes on; what stood in the last one has gone out.
pub fn advance(slots: &mut [Option<InFlight>], gone: usize)
    requires { 0 < length slots.old }
    ensures { slots.new ≡ advanced gone 0 None slots.old }
{
    for stage in (1..slots.len()).rev() {
        come_at(slots, gone, stage);
    }
    free_slot(&mut slots[0]);
}

/// Frees all stages.
pub fn free(slots: &mut [Option<InFlight>])
    ensures { slots.new ≡ all_free slots.old }
{
    for stage in 0..slots.len() {
        slots[stage] = None;
    }
}

/// The state behind what goes on from EX, of which this is the slot.
pub fn go_on(design: &Design, slot: &Option<InFlight>, ahead: &mut Arch)
    requires wide { AreWide (view_extension design.now.extension) ahead.old.custom }
    requires sound { IsSoundSlot (view_extension design.now.extension) slot.now }
    ensures state { ahead.new ≡ ahead_of slot.now ahead.old }
    ensures wide { AreWide (view_extension design.now.extension) ahead.new.custom }
{
    if let Some(one) = slot {
        if let Some(step) = &one.step {
            if let StepAnswer::Done(commit) = &step.answer {
                apply(ahead, commit);
            }
        }
    }
}

/// What is fetched next, behind a row into which something comes or nothing does, with this event and a stop or none.
pub fn front_after(front: Front, is_new: bool, event: &Option<EventAt>, stops: bool) -> Front
    requires { front.next + 1 < 2 ^ 32 }
    ensures fetch { (new : Option Fetched) → is_new ≡ is_some new → IfSome new (λ c. c.at ≡ front.fetch) → result.fetch ≡ specified_address_after front.fetch new (event_at event.now) }
    ensures next { result.next ≡ (if is_new then suc front.next else front.next) }
    ensures stopped { result.stopped ≡ (front.stopped || stops) }
{
    let fetch = address_after(front.fetch, is_new, event);
    let next = if is_new { front.next + 1 } else { front.next };
    Front {
        fetch,
        next,
        stopped: front.stopped || stops,
    }
}
