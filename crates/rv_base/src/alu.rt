ghost use Rattle.std.specs.Prelude.{◌≡◌};
ghost use Rattle.rv_base.specs.Computing.{computed, is_taken};

use crate::operation::{Alu, Test};

/// An operation on two words.
pub fn compute(op: Alu, a: u32, b: u32) -> u32
    ensures { result ≡ computed op a b }
{
    match op {
        Alu::Add => a.wrapping_add(b),
        Alu::Sub => a.wrapping_sub(b),
        Alu::ShiftLeft => a << (b % 32),
        Alu::LessSigned => u32::from(a.cast_signed() < b.cast_signed()),
        Alu::Less => u32::from(a < b),
        Alu::Xor => a ^ b,
        Alu::ShiftRight => a >> (b % 32),
        Alu::ShiftRightSigned => (a.cast_signed() >> (b % 32)).cast_unsigned(),
        Alu::Or => a | b,
        Alu::And => a & b,
    }
}

/// Whether a branch is taken.
pub fn holds(test: Test, a: u32, b: u32) -> bool
    ensures { result ≡ is_taken test a b }
{
    match test {
        Test::Equal => a == b,
        Test::NotEqual => a != b,
        Test::LessSigned => a.cast_signed() < b.cast_signed(),
        Test::AtLeastSigned => a.cast_signed() >= b.cast_signed(),
        Test::Less => a < b,
        Test::AtLeast => a >= b,
    }
}
