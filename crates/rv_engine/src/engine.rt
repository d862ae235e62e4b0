ghost use Rattle.std.specs.Prelude.{ℕ, List, Option, ◌≡◌, ◌+◌, ◌<◌, ◌^◌, ◌||◌, length, take, drop, is_some, Some, None, false, true, if◌then◌else◌};
ghost use Rattle.std.specs.Option.{option_copied};
ghost use Rattle.ix_extension.specs.Extensions.{view_extension};
ghost use Rattle.ix_extension.specs.WellFormed.{IsWellFormed};
ghost use Rattle.ix_eval.specs.Scratches.{IsScratchOf};
ghost use Rattle.rv_seq.specs.WordEffects.{AreWide};
ghost use Rattle.rv_asks.specs.Asks.{IsAskingOf};
ghost use Rattle.rv_seq.specs.declared.commit.Stop.TheVariants.{Fetch};
ghost use Rattle.rv_seq.specs.Steps.{word_at as specified_word_at};
ghost use Rattle.rv_holds.specs.Tokens.{or_else};
ghost use Rattle.rv_holds.specs.Flushing.{remains as specified_remains, fetch_after};
ghost use Rattle.rv_engine.specs.Settings.{setting, interrupted_by};
ghost use Rattle.rv_engine.specs.Rows.{unless, next_after, new_by, loaded_by, going, leaving, first_slot, native_of, file_early, file_late, file_paid, is_owing, arch_retired, arch_paid, IsRowOf, machine_after};
ghost use Rattle.rv_engine.specs.Showing.{shown_of};
ghost use Rattle.rv_engine.specs.Kept.{machine_with, machine_of, AreFitting, AreWideOwed, IsLastOpen, IsFit, AreStoredInside};
ghost use Rattle.rv_engine.specs.Owing.{IsOwingOf};

use crate::entering::{is_interrupted, is_pending, is_waiting, take_interrupt};
use crate::filling::{fetch, guess};
use crate::front::{Front, Kept};
use crate::moving::{accesses_then, advance, last, put_early, put_late, show_retired, stood_then};
use crate::owing::{Owed, Owing};
use crate::paying::{pay_all, retire, show_written};
use crate::reading::{owed_in, read};
use crate::showing::show;
use crate::trying::{load, try_executing};
use ix_bits::Bits;
use ix_eval::Scratch;
use ix_plan::Design;
use rv_asks::Asking;
use rv_core::Shape;
use rv_holds::{Token, decide, enters, fetch_following, flush, remains, stop_in, turn_in};
use rv_ports::Shown;
use rv_seq::{Arch, Stop, word_at};
use rv_trace::Row;
use rv_waits::{Lines, Waits};

/// The next fetch address: the one that is named, or the plain one.
fn next_fetch(redirect: Option<u32>, fetch: u32, slots: &[Option<Token>]) -> u32
    ensures { result ≡ unless redirect (fetch_after fetch slots.now) }
{
    match redirect {
        None => fetch_following(fetch, slots),
        Some(address) => address,
    }
}

/// The stop of a row, of which a token makes this one; what is left and what is outstanding after the row go on.
fn stop_of_row(
    image: &[u32],
    stopped: Option<Stop>,
    slots: &[Option<Token>],
    owing: &Owing,
    fetch: u32,
) -> Option<Stop>
    ensures { result ≡ or_else stopped (if specified_remains slots.now || (is_owing owing.now.owed || is_some (specified_word_at image.now fetch)) then None else Some Fetch) }
{
    match stopped {
        None => {
            if remains(slots) || owes(owing) || word_at(image, fetch).is_some() {
                None
            } else {
                Some(Stop::Fetch)
            }
        }
        stop => stop,
    }
}

/// Whether something is outstanding.
fn owes(owing: &Owing) -> bool
    ensures { result ≡ is_owing owing.now.owed }
{
    !owing.owed().is_empty()
}

/// Makes the writes of a row: of the token that goes out of the last stage, of what a unit writes, if one does, and, in the future
/// file, of the token that leaves EX.
fn write(
    design: &Design,
    paying: Option<&Owed>,
    slots: &[Option<Token>],
    future: &mut [Bits; 16],
    arch: &mut Arch,
)
    requires well_formed { IsWellFormed design.now.extension }
    requires inside { design.now.sheet.shape.ex < length slots.now }
    requires stored { AreStoredInside (native_of (leaving None slots.now)) }
    ensures future { future.new ≡ file_early (going (first_slot (drop design.now.sheet.shape.ex slots.now))) (file_late (leaving None slots.now) (file_paid (option_copied paying.entry) future.old)) }
    ensures arch { arch.new ≡ arch_paid (option_copied paying.entry) (arch_retired (view_extension design.now.extension) (native_of (leaving None slots.now)) arch.old) }
{
    retire(&design.extension, last(slots), arch);
    pay_all(paying, future, arch);
    put_late(last(slots), future);
    put_early(&slots[usize::from(design.sheet.shape.ex)], future);
}

/// The slots up to their loads, where an interrupt is to be taken or not: what is fetched comes in, the address behind it is guessed, operands are read, the token of EX is tried, holds are decided, and the load
/// of MEM reads. Gives the serial of the next fetch.
fn prepare(
    design: &Design,
    asking: &Asking,
    image: &[u32],
    waits: &Waits,
    front: Front,
    future: &[Bits; 16],
    arch: &Arch,
    interrupted: bool,
    owing: &Owing,
    slots: &mut [Option<Token>],
    scratch: &mut Scratch,
) -> u32
    requires well_formed { IsWellFormed design.now.extension }
    requires asking { IsAskingOf design.now asking.now }
    requires scratch { IsScratchOf (view_extension design.now.extension) scratch.old }
    requires stages { length slots.old ≡ design.now.sheet.shape.stages }
    requires future { AreWide (view_extension design.now.extension) future.now }
    requires fitting { AreFitting design.now slots.old }
    requires owing { IsOwingOf design.now owing.now }
    requires serial { front.next + 1 < 2 ^ 32 }
    ensures scratch { IsScratchOf (view_extension design.now.extension) scratch.new }
    ensures next { (lines : Option (List ℕ)) → result ≡ next_after front.next slots.old (new_by (setting design.now image.now waits.now lines) (machine_with front future.now arch.now owing.now slots.old)) }
    ensures slots { (lines : Option (List ℕ)) → interrupted ≡ interrupted_by (setting design.now image.now waits.now lines) (machine_with front future.now arch.now owing.now slots.old) → slots.new ≡ loaded_by (setting design.now image.now waits.now lines) (machine_with front future.now arch.now owing.now slots.old) }
    ensures open { IsLastOpen owing.now slots.new }
    ensures stages { length slots.new ≡ design.now.sheet.shape.stages }
    ensures fitting { AreFitting design.now slots.new }
{
    let shape = design.sheet.shape;
    let word = word_at(image, front.fetch);
    let next = fetch(design, asking, front, future, arch.trap, word, slots);
    guess(design, future, &arch.mem, slots, scratch);
    read(
        design,
        &arch.x,
        owed_in(waits, front),
        interrupted,
        owing,
        slots,
    );
    try_executing(design, future, &arch.mem, slots, scratch);
    decide(shape, slots);
    load(design, &arch.mem, slots, scratch);
    next
}

/// One row of the slots of the stages, put where nothing is retired or written yet, what it shows the modules, where they are there to see it, and what is kept after it. The parts of
/// a row are large, and those that it has not are not written.
fn row_of(
    design: &Design,
    asking: &Asking,
    image: &[u32],
    waits: &Waits,
    lines: Option<&Lines>,
    front: &mut Front,
    future: &mut [Bits; 16],
    arch: &mut Arch,
    owing: &mut Owing,
    slots: &mut [Option<Token>],
    scratch: &mut Scratch,
    row: &mut Row,
    shows: bool,
    shown: &mut Shown,
)
    requires well_formed { IsWellFormed design.now.extension }
    requires asking { IsAskingOf design.now asking.now }
    requires scratch { IsScratchOf (view_extension design.now.extension) scratch.old }
    requires stages { length slots.old ≡ design.now.sheet.shape.stages }
    requires future { AreWide (view_extension design.now.extension) future.old }
    requires fitting { AreFitting design.now slots.old }
    requires owing { IsOwingOf design.now owing.old }
    requires owed { AreWideOwed (view_extension design.now.extension) owing.old.owed }
    requires serial { front.old.next + 1 < 2 ^ 32 }
    requires accesses { front.old.accesses + 1 < 2 ^ 32 }
    requires stood { front.old.stood + 1 < 2 ^ 32 }
    requires rows { front.old.rows + 1 < 2 ^ 32 }
    requires retires { row.old.retired ≡ None }
    requires writes { row.old.written ≡ None }
    ensures scratch { IsScratchOf (view_extension design.now.extension) scratch.new }
    ensures row { IsRowOf (setting design.now image.now waits.now (option_copied lines.entry)) (machine_with front.old future.old arch.old owing.old slots.old) row.new }
    ensures shown { shows ≡ true → shown.new ≡ shown_of (setting design.now image.now waits.now (option_copied lines.entry)) (machine_with front.old future.old arch.old owing.old slots.old) }
    ensures after { machine_with front.new future.new arch.new owing.new slots.new ≡ machine_after (setting design.now image.now waits.now (option_copied lines.entry)) (machine_with front.old future.old arch.old owing.old slots.old) }
    ensures future { AreWide (view_extension design.now.extension) future.new }
    ensures fitting { AreFitting design.now slots.new }
    ensures owing { IsOwingOf design.now owing.new }
    ensures owed { AreWideOwed (view_extension design.now.extension) owing.new.owed }
{
    let shape = design.sheet.shape;
    let pending = is_pending(lines, *front);
    let interrupted = is_interrupted(pending, arch.trap);
    let next = prepare(
        design,
        asking,
        image,
        waits,
        *front,
        future,
        arch,
        interrupted,
        owing,
        slots,
        scratch,
    );
    let entered = enters(shape, interrupted, slots);
    let turn = turn_in(shape, entered, front.fetch, slots);
    show(shape, arch, future, owing, turn, slots, shows, shown);
    let left = flush(turn, slots);
    let cells = left.cells;
    let flushed = left.flushed;
    let stopped = stop_in(shape, slots);
    let fetch = next_fetch(left.redirect, front.fetch, slots);
    let memory = usize::from(shape.mem);
    let accesses = accesses_then(front.accesses, &slots[memory]);
    let stood = stood_then(front.stood, &slots[memory]);
    show_retired(last(slots), &mut row.retired);
    let paying = owing.paying();
    write(design, paying, slots, future, arch);
    show_written(paying, &mut row.written);
    let taken = take_interrupt(shape, entered, arch);
    owing.cycle(last(slots));
    let stop = stop_of_row(image, stopped, slots, owing, fetch);
    advance(slots);
    let waiting = is_waiting(pending, entered);
    *front = Front {
        fetch,
        next,
        accesses,
        stood,
        rows: front.rows + 1,
        waiting,
    };
    row.cells = cells;
    row.flushed = flushed;
    row.redirect = left.redirect;
    row.taken = taken;
    row.stop = stop;
}

/// The same of the slots that are kept, of which the core has the first ones as stages.
fn row_in(
    design: &Design,
    asking: &Asking,
    image: &[u32],
    waits: &Waits,
    lines: Option<&Lines>,
    front: &mut Front,
    future: &mut [Bits; 16],
    arch: &mut Arch,
    owing: &mut Owing,
    slots: &mut [Option<Token>; 5],
    scratch: &mut Scratch,
    row: &mut Row,
    shows: bool,
    shown: &mut Shown,
)
    requires well_formed { IsWellFormed design.now.extension }
    requires asking { IsAskingOf design.now asking.now }
    requires scratch { IsScratchOf (view_extension design.now.extension) scratch.old }
    requires future { AreWide (view_extension design.now.extension) future.old }
    requires fitting { AreFitting design.now (take design.now.sheet.shape.stages slots.old) }
    requires owing { IsOwingOf design.now owing.old }
    requires owed { AreWideOwed (view_extension design.now.extension) owing.old.owed }
    requires serial { front.old.next + 1 < 2 ^ 32 }
    requires accesses { front.old.accesses + 1 < 2 ^ 32 }
    requires stood { front.old.stood + 1 < 2 ^ 32 }
    requires rows { front.old.rows + 1 < 2 ^ 32 }
    requires retires { row.old.retired ≡ None }
    requires writes { row.old.written ≡ None }
    ensures scratch { IsScratchOf (view_extension design.now.extension) scratch.new }
    ensures row { IsRowOf (setting design.now image.now waits.now (option_copied lines.entry)) (machine_with front.old future.old arch.old owing.old (take design.now.sheet.shape.stages slots.old)) row.new }
    ensures shown { shows ≡ true → shown.new ≡ shown_of (setting design.now image.now waits.now (option_copied lines.entry)) (machine_with front.old future.old arch.old owing.old (take design.now.sheet.shape.stages slots.old)) }
    ensures after { machine_with front.new future.new arch.new owing.new (take design.now.sheet.shape.stages slots.new) ≡ machine_after (setting design.now image.now waits.now (option_copied lines.entry)) (machine_with front.old future.old arch.old owing.old (take design.now.sheet.shape.stages slots.old)) }
    ensures future { AreWide (view_extension design.now.extension) future.new }
    ensures fitting { AreFitting design.now (take design.now.sheet.shape.stages slots.new) }
    ensures owing { IsOwingOf design.now owing.new }
    ensures owed { AreWideOwed (view_extension design.now.extension) owing.new.owed }
{
    let stages = usize::from(design.sheet.shape.stages);
    row_of(
        design,
        asking,
        image,
        waits,
        lines,
        front,
        future,
        arch,
        owing,
        &mut slots[..stages],
        scratch,
        row,
        shows,
        shown,
    );
}

/// One row of a pipeline of a design, put where nothing is retired or written yet, over an image and a memory with these waits, with this interrupt line, if there is one, with
/// what it shows the modules, where they are there to see it, and what it keeps after the row. The asking and the scratch are of this design. It takes no memory.
pub fn make_row(
    design: &Design,
    asking: &Asking,
    image: &[u32],
    waits: &Waits,
    lines: Option<&Lines>,
    kept: &mut Kept,
    scratch: &mut Scratch,
    row: &mut Row,
    shows: bool,
    shown: &mut Shown,
)
    requires well_formed { IsWellFormed design.now.extension }
    requires asking { IsAskingOf design.now asking.now }
    requires scratch { IsScratchOf (view_extension design.now.extension) scratch.old }
    requires fit { IsFit (setting design.now image.now waits.now (option_copied lines)) (machine_of design.now.sheet.shape kept.old) }
    requires owing { IsOwingOf design.now kept.old.owing }
    requires serial { kept.old.front.next + 1 < 2 ^ 32 }
    requires accesses { kept.old.front.accesses + 1 < 2 ^ 32 }
    requires stood { kept.old.front.stood + 1 < 2 ^ 32 }
    requires rows { kept.old.front.rows + 1 < 2 ^ 32 }
    requires retires { row.old.retired ≡ None }
    requires writes { row.old.written ≡ None }
    ensures row { IsRowOf (setting design.now image.now waits.now (option_copied lines.entry)) (machine_of design.now.sheet.shape kept.old) row.new }
    ensures shown { shows ≡ true → shown.new ≡ shown_of (setting design.now image.now waits.now (option_copied lines.entry)) (machine_of design.now.sheet.shape kept.old) }
    ensures after { machine_of design.now.sheet.shape kept.new ≡ machine_after (setting design.now image.now waits.now (option_copied lines.entry)) (machine_of design.now.sheet.shape kept.old) }
    ensures fit { IsFit (setting design.now image.now waits.now (option_copied lines.entry)) (machine_of design.now.sheet.shape kept.new) }
    ensures owing { IsOwingOf design.now kept.new.owing }
    ensures scratch { IsScratchOf (view_extension design.now.extension) scratch.new }
{
    row_in(
        design,
        asking,
        image,
        waits,
        lines,
        &mut kept.front,
        &mut kept.future,
        &mut kept.arch,
        &mut kept.owing,
        &mut kept.slots,
        scratch,
        row,
        shows,
        shown,
    );
}
