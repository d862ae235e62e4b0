use ix_bits::{Bits, Ty};
use ix_graph::Kind;

/// A number of a type, by its pattern.
#[derive(Clone, Copy)]
pub struct Number {
    pub ty: Ty,
    pub raw: u128,
}

/// The low bits of a pattern, as many as a type has.
pub fn cut(raw: u128, ty: Ty) -> u128 {
    raw & (u128::MAX >> (128 - ty.width))
}

fn is_negative(a: Number) -> bool {
    a.ty.signed && (a.raw >> (a.ty.width - 1)) & 1 == 1
}

/// The number's pattern in 128 bits.
fn extended(a: Number) -> u128 {
    if is_negative(a) {
        a.raw | !(u128::MAX >> (128 - a.ty.width))
    } else {
        a.raw
    }
}

fn is_less(a: Number, b: Number) -> bool {
    if is_negative(a) == is_negative(b) {
        extended(a) < extended(b)
    } else {
        is_negative(a)
    }
}

fn is_same(a: Number, b: Number) -> bool {
    is_negative(a) == is_negative(b) && extended(a) == extended(b)
}

fn moved_up(raw: u128, by: u128) -> u128 {
    match u32::try_from(by) {
        Ok(by) => raw.checked_shl(by).unwrap_or(0),
        Err(_) => 0,
    }
}

fn moved_down(raw: u128, by: u128) -> u128 {
    match u32::try_from(by) {
        Ok(by) => raw.checked_shr(by).unwrap_or(0),
        Err(_) => 0,
    }
}

/// The number divided by a power of two, rounded down.
fn shifted(a: Number, by: u128) -> u128 {
    if is_negative(a) {
        !moved_down(!extended(a), by)
    } else {
        moved_down(a.raw, by)
    }
}

fn truth(holds: bool) -> u128 {
    u128::from(holds)
}

/// What an operator on two numbers gives, before it is cut to its type.
fn of_two(kind: &Kind, a: Number, b: Number) -> u128 {
    match kind {
        Kind::Add => extended(a).wrapping_add(extended(b)),
        Kind::Sub => extended(a).wrapping_sub(extended(b)),
        Kind::Mul => extended(a).wrapping_mul(extended(b)),
        Kind::And => extended(a) & extended(b),
        Kind::Or => extended(a) | extended(b),
        Kind::Xor => extended(a) ^ extended(b),
        Kind::Shl => moved_up(a.raw, b.raw),
        Kind::Shr => shifted(a, b.raw),
        Kind::Eq => truth(is_same(a, b)),
        Kind::Ne => truth(!is_same(a, b)),
        Kind::Lt => truth(is_less(a, b)),
        Kind::Le => truth(!is_less(b, a)),
        Kind::Gt => truth(is_less(b, a)),
        Kind::Ge => truth(!is_less(a, b)),
        Kind::Land => truth(a.raw != 0 && b.raw != 0),
        Kind::Lor => truth(a.raw != 0 || b.raw != 0),
        Kind::Concat => moved_up(a.raw, u128::from(b.ty.width)) | b.raw,
        _ => 0,
    }
}

/// The entry of a table.
fn entry(table: &[Bits], index: u128) -> u128 {
    match usize::try_from(index) {
        Ok(index) if index < table.len() => table[index].raw,
        _ => 0,
    }
}

/// What an operation of a type makes of its arguments; `table` is that of a `rom`.
pub fn computed(kind: &Kind, args: [Number; 3], table: &[Bits], ty: Ty) -> u128 {
    let [a, b, c] = args;
    let raw = match kind {
        Kind::Not => !extended(a),
        Kind::Neg => extended(a).wrapping_neg(),
        Kind::Lnot => truth(a.raw == 0),
        Kind::Range { hi: _, lo } => moved_down(a.raw, u128::from(*lo)),
        Kind::Cast => extended(a),
        Kind::Mux => { if a.raw != 0 { extended(b) } else { extended(c) } }
        Kind::Rom(_) => entry(table, a.raw),
        _ => of_two(kind, a, b),
    };
    cut(raw, ty)
}
