//! Where an amount may still go from and to.

ghost use Rattle.std.specs.Prelude.{◌≡◌, ◌⊎◌, ◌<◌, ◌≤◌, ◌^◌, pos, length, IfSome, IsNone, IsTrue, All, slice_index_or};
ghost use Rattle.ix_residual.specs.Residuals.{need_of, spare_of};

fn first_needing(left: &[i64]) -> Option<usize>
    ensures some { IfSome result (λ v. (v < length left.now) × (0 < need_of (slice_index_or left.now v (pos 0)))) }
    ensures none { IsNone result → All (λ x. need_of x ≡ 0) left.now }
{
    'nodes: for (node, balance) in left.iter().enumerate() {
        if *balance > 0 {
            return Some(node);
        }
    }
    None
}

fn first_sparing(left: &[i64]) -> Option<usize>
    ensures some { IfSome result (λ v. (v < length left.now) × (0 < spare_of (slice_index_or left.now v (pos 0)))) }
    ensures none { IsNone result → All (λ x. spare_of x ≡ 0) left.now }
{
    'nodes: for (node, balance) in left.iter().enumerate() {
        if *balance < 0 {
            return Some(node);
        }
    }
    None
}

/// A node that has to spare and one that needs, or None where there is none of one of these.
pub fn ends_left(left: &[i64]) -> Option<(u32, u32)>
    requires { length left.now < 2 ^ 32 }
    ensures source { IfSome result (λ ends. (ends.0 < length left.now) × (0 < spare_of (slice_index_or left.now ends.0 (pos 0)))) }
    ensures target { IfSome result (λ ends. (ends.1 < length left.now) × (0 < need_of (slice_index_or left.now ends.1 (pos 0)))) }
    ensures none { IsNone result → All (λ x. need_of x ≡ 0) left.now ⊎ All (λ x. spare_of x ≡ 0) left.now }
{
    let Some(target) = first_needing(left) else {
        return None;
    };
    let Some(source) = first_sparing(left) else {
        return None;
    };
    Some((source as u32, target as u32))
}

/// Whether a node needs.
pub fn needs(left: &[i64], node: usize) -> bool
    requires { node < length left.now }
    ensures { IsTrue result → 0 < need_of (slice_index_or left.now node (pos 0)) }
{
    left[node] > 0
}

/// Whether a node has to spare.
pub fn spares(left: &[i64], node: usize) -> bool
    requires { node < length left.now }
    ensures { IsTrue result → 0 < spare_of (slice_index_or left.now node (pos 0)) }
{
    left[node] < 0
}
