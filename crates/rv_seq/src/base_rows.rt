ghost use Rattle.std.specs.Prelude.{◌≡◌, ◌<◌, option_map};
ghost use Rattle.ix_mean.specs.Given.{inputs_of};
ghost use Rattle.rv_base.specs.Effects.{load_at, store_at};
ghost use Rattle.rv_seq.specs.Memory.{peeked};
ghost use Rattle.rv_seq.specs.BaseEffects.{base_access, base_store as specified_base_store, base_rd as specified_base_rd, base_effect as specified_base_effect};

use ix_eval::{Access, Effect, Inputs, sized_access};
use rv_base::{Size, address_of, bytes_of, load_of, loaded_word, result_of, store_of, target_of};
use rv_isa::Base;
use rv_memory::{RandomAccess, is_inside};

/// The number of so many bytes from the address on, the lowest first; 0 where they do not lie in the memory.
pub fn peek(memory: &RandomAccess, at: u32, count: u8) -> u32
    ensures { result ≡ peeked memory.now at count }
{
    if count <= 4 && is_inside(at, count) {
        memory.read(at, count)
    } else {
        0
    }
}

// The bytes that a load or a store moves.
fn access_of(b: Base, x: u32, size: Size) -> Access
    ensures { result ≡ base_access b x size }
{
    sized_access(bytes_of(size), address_of(b, x))
}

// What is loaded.
fn base_load(b: Base, x: u32) -> Option<Access>
    requires { b.row < 40 }
    ensures { result ≡ option_map (base_access b x) (load_at b) }
{
    match load_of(b) {
        Some(size) => Some(access_of(b, x, size)),
        None => None,
    }
}

// What is stored, and where.
fn base_store(b: Base, x: u32, y: u32) -> Option<(Access, u32)>
    requires { b.row < 40 }
    ensures { result ≡ option_map (specified_base_store b x y) (store_at b) }
{
    match store_of(b) {
        Some(size) => Some((access_of(b, x, size), y)),
        None => None,
    }
}

// What is written to rd.
fn base_rd(b: Base, inputs: &Inputs, memory: &RandomAccess) -> Option<u32>
    requires { b.row < 40 }
    ensures { result ≡ specified_base_rd b (inputs_of inputs.now (peeked memory.now)) (load_at b) }
{
    match load_of(b) {
        Some(size) => {
            let raw = peek(memory, address_of(b, inputs.rs1), bytes_of(size));
            Some(loaded_word(b, raw))
        }
        None => result_of(b, inputs.pc, inputs.rs1, inputs.rs2),
    }
}

/// What an instruction of the base set does.
pub fn base_effect(b: Base, inputs: &Inputs, memory: &RandomAccess) -> Effect
    requires { b.row < 40 }
    ensures { result ≡ specified_base_effect b (inputs_of inputs.now (peeked memory.now)) }
{
    Effect {
        rd: base_rd(b, inputs, memory),
        pc: target_of(b, inputs.pc, inputs.rs1, inputs.rs2),
        custom: [None; 16],
        load: base_load(b, inputs.rs1),
        store: base_store(b, inputs.rs1, inputs.rs2),
    }
}
