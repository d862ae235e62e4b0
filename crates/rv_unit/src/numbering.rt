ghost use Rattle.std.specs.Prelude.{◌≡◌, ◌≤◌, length, IfOk};
ghost use Rattle.rv_unit.specs.Numbering.{is_decoupled as specified_is_decoupled, lasts_of as specified_lasts_of, unit_of as specified_unit_of};

use ix_bits::Memory;
use ix_plan::{Mode, Plan};
use std::alloc::Global;

/// The unit of a behaviour by its number among the plans: the count of decoupled ones before it; none where it has no unit.
pub fn unit_of(plans: &[Plan], number: usize) -> Option<u8>
    requires { length (specified_lasts_of plans.now) ≤ 72 }
    ensures { result ≡ specified_unit_of plans.now number }
{
    if number >= plans.len() {
        return None;
    }
    if !is_decoupled(plans[number].mode) {
        return None;
    }
    Some(count_units(&plans[..number]))
}

/// Whether a behaviour of this mode has a unit.
fn is_decoupled(mode: Mode) -> bool
    ensures { result ≡ specified_is_decoupled mode }
{
    match mode {
        Mode::Decoupled => true,
        _ => false,
    }
}

/// The count of decoupled behaviours.
fn count_units(plans: &[Plan]) -> u8
    requires { length (specified_lasts_of plans.now) ≤ 72 }
    ensures { result ≡ length (specified_lasts_of plans.now) }
{
    let mut count = 0;
    for plan in plans {
        if is_decoupled(plan.mode) {
            count += 1;
        }
    }
    count
}

/// The last times of the decoupled behaviours, in order.
pub fn lasts_of(alloc: Global, plans: &[Plan]) -> Result<Vec<u8>, Memory>
    ensures { IfOk result (λ lasts. lasts.items ≡ specified_lasts_of plans.now) }
{
    let mut lasts = Vec::new(alloc);
    for plan in plans {
        if is_decoupled(plan.mode) {
            match lasts.push(plan.last) {
                Ok(()) => {}
                Err(_) => return Err(Memory),
            }
        }
    }
    Ok(lasts)
}
