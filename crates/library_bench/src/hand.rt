ghost use Rattle.std.specs.Prelude.{◌≤◌};

use ix_eval::{Effect, Inputs};

/// The pattern that is left of a number in so many bits, 1 to 128.
fn low(number: u128, width: u32) -> u128
    requires least { 1 ≤ width }
    requires most { width ≤ 128 }
{
    number & (u128::MAX >> (128 - width))
}

/// The number of a pattern of so many bits with a sign, as 128 bits.
fn signed(pattern: u128, width: u32) -> u128
    requires least { 1 ≤ width }
    requires most { width ≤ 128 }
{
    let sign = 1u128 << (width - 1);
    (pattern ^ sign).wrapping_sub(sign)
}

/// The effect that writes a word to rd, and nothing else.
fn written(word: u32) -> Effect {
    Effect {
        rd: Some(word),
        pc: None,
        custom: [None; 16],
        load: None,
        store: None,
    }
}

/// The effect of a square root of a whole number, bit by bit.
#[inline(never)]
pub(crate) fn square_root(inputs: &Inputs) -> Effect {
    let mut n = u128::from(inputs.rs1);
    let mut r = 0u128;
    for turn in 0..16u32 {
        let bit = 1u128 << (30 - 2 * turn);
        let t = r.wrapping_add(bit);
        if n >= t {
            n = low(n.wrapping_sub(t), 32);
            r = low((r >> 1).wrapping_add(bit), 32);
        } else {
            r = r >> 1;
        }
    }
    written(u32::try_from(r).unwrap_or(0))
}

/// The effect of a sum of the products of four signed bytes.
#[inline(never)]
pub(crate) fn dot_product(inputs: &Inputs) -> Effect {
    let a = u128::from(inputs.rs1);
    let b = u128::from(inputs.rs2);
    let mut sum = 0u128;
    for turn in 0..4u32 {
        let left = signed(low(a >> (8 * turn), 8), 8);
        let right = signed(low(b >> (8 * turn), 8), 8);
        let product = left.wrapping_mul(right);
        sum = signed(low(sum.wrapping_add(product), 32), 32);
    }
    written(u32::try_from(low(sum, 32)).unwrap_or(0))
}
