ghost use Rattle.std.specs.Prelude.{◌≡◌, true, ◌||◌, ◌&&◌, not, Some, None, if◌then◌else◌};
ghost use Rattle.std.specs.Option.{option_copied};
ghost use Rattle.rv_seq.specs.Interrupts.{is_enabled};
ghost use Rattle.rv_lawful.specs.Outstanding.{after_entry};
ghost use Rattle.rv_engine.specs.Settings.{raised_in};

use crate::front::Front;
use rv_core::Shape;
use rv_seq::{Arch, TrapState, divert};
use rv_waits::Lines;

/// Whether the interrupt line is pending in the row that comes; without a line nothing is.
pub fn is_pending(lines: Option<&Lines>, front: Front) -> bool
    ensures { result ≡ (raised_in (option_copied lines.entry) front.rows || front.waiting) }
{
    match lines {
        Some(lines) => lines.is_raised(front.rows) || front.waiting,
        None => front.waiting,
    }
}

/// Whether an interrupt is to be taken: the line is pending, and interrupts are taken in this state.
pub fn is_interrupted(pending: bool, trap: Option<TrapState>) -> bool
    ensures { result ≡ (pending && is_enabled trap) }
{
    match trap {
        Some(state) => pending && state.enabled,
        None => false,
    }
}

/// Whether the line is still to be taken after the row.
pub fn is_waiting(pending: bool, entered: bool) -> bool
    ensures { result ≡ (pending && not entered) }
{
    pending && !entered
}

/// Enters the handler, where that is done, and gives the address at which the run goes there.
pub fn take_interrupt(shape: Shape, entered: bool, arch: &mut Arch) -> Option<u32>
    requires enabled { entered ≡ true → is_enabled arch.old.trap ≡ true }
    ensures taken { result ≡ (if entered then Some arch.old.pc else None) }
    ensures arch { arch.new ≡ after_entry shape.trap result arch.old }
{
    if !entered {
        return None;
    }
    let at = arch.pc;
    divert(arch, shape.trap);
    Some(at)
}
