ghost use Rattle.std.specs.Prelude.{◌≡◌, ◌++◌, ◌∷◌, [], IfOk, OnOk};

use crate::Memory;
use std::alloc::Global;

/// A value in a box of its own.
pub fn boxed<T: Drop>(alloc: Global, x: T) -> Result<Box<T>, Memory>
    ensures { IfOk result (λ r. r.value ≡ x) }
{
    Ok(Box::new(alloc, x)?)
}

/// Two values, each in a box of its own.
pub fn boxed_pair<T: Drop>(alloc: Global, x: T, y: T) -> Result<(Box<T>, Box<T>), Memory>
    ensures first { IfOk result (λ r. r.0.value ≡ x) }
    ensures second { IfOk result (λ r. r.1.value ≡ y) }
{
    let Ok(x) = boxed(alloc, x) else {
        drop(y);
        return Err(Memory);
    };
    let y = boxed(alloc, y)?;
    Ok((x, y))
}

/// Three values, each in a box of its own.
pub fn boxed_triple<T: Drop>(
    alloc: Global,
    x: T,
    y: T,
    z: T,
) -> Result<(Box<T>, Box<T>, Box<T>), Memory>
    ensures first { IfOk result (λ r. r.0.value ≡ x) }
    ensures second { IfOk result (λ r. r.1.value ≡ y) }
    ensures third { IfOk result (λ r. r.2.value ≡ z) }
{
    let Ok((x, y)) = boxed_pair(alloc, x, y) else {
        drop(z);
        return Err(Memory);
    };
    let z = boxed(alloc, z)?;
    Ok((x, y, z))
}

/// Puts an item behind others.
pub fn put<T: Drop>(out: &mut Vec<T>, item: T) -> Result<(), Memory>
    ensures { OnOk result (out.new.items ≡ out.old.items ++ item ∷ []) }
{
    Ok(out.push(item)?)
}
