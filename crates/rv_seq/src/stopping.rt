ghost use Rattle.std.specs.Prelude.{◌≡◌};
ghost use Rattle.rv_seq.specs.Stops.{access_stop as specified_access_stop, load_stop as specified_load_stop, store_stop as specified_store_stop, call_stop as specified_call_stop, target_stop as specified_target_stop, stop_of as specified_stop_of};

use crate::commit::Stop;
use crate::decoded::Decoded;
use ix_eval::{Access, Effect};
use rv_base::{Operation, operation_of};
use rv_memory::is_inside;

/// Why an access of the memory stops the run.
pub fn access_stop(access: Access) -> Option<Stop>
    ensures { result ≡ specified_access_stop access }
{
    if access.at % u32::from(access.bytes) != 0 {
        Some(Stop::Misaligned)
    } else if is_inside(access.at, access.bytes) {
        None
    } else {
        Some(Stop::DataRange)
    }
}

// Why a load stops the run.
fn load_stop(load: Option<Access>) -> Option<Stop>
    ensures { result ≡ specified_load_stop load }
{
    match load {
        Some(access) => access_stop(access),
        None => None,
    }
}

// Why a store stops the run.
fn store_stop(store: Option<(Access, u32)>) -> Option<Stop>
    ensures { result ≡ specified_store_stop store }
{
    match store {
        Some((access, _)) => access_stop(access),
        None => None,
    }
}

// The stop of ECALL and EBREAK.
fn call_stop(decoded: Decoded) -> Option<Stop>
    ensures { result ≡ specified_call_stop decoded }
{
    match decoded {
        Decoded::Base(base) => match operation_of(base.row) {
            Operation::Call => Some(Stop::Ecall),
            Operation::Break => Some(Stop::Ebreak),
            _ => None,
        },
        Decoded::Own(_) => None,
    }
}

// The stop of a base jump to an address that is not divisible by 4.
fn target_stop(decoded: Decoded, target: Option<u32>) -> Option<Stop>
    ensures { result ≡ specified_target_stop decoded target }
{
    match (decoded, target) {
        (Decoded::Base(_), Some(target)) if target % 4 != 0 => Some(Stop::Target),
        _ => None,
    }
}

/// Why an instruction with this effect stops the run, if it does.
pub fn stop_of(decoded: Decoded, effect: &Effect) -> Option<Stop>
    ensures { result ≡ specified_stop_of decoded effect.now }
{
    call_stop(decoded)
        .or(load_stop(effect.load))
        .or(store_stop(effect.store))
        .or(target_stop(decoded, effect.pc))
}
