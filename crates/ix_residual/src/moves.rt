//! What moves along a path.

ghost use Rattle.std.specs.Prelude.{◌≡◌, ℕ, ◌+◌, ◌<◌, ◌≤◌, ◌^◌, true, false, length, slice_index, All};
ghost use Rattle.ix_residual.specs.Residuals.{IsOnce, moved, place_at, room};

use ix_bits::List;

/// The greatest amount, up to `most`, that the falling amounts of a path have.
pub fn room(steps: &[(u32, bool)], amounts: &[u64], most: u64) -> u64
    requires { All (λ s. s.0 < length amounts.now) steps.now }
    ensures { result ≡ room amounts.now most steps.now }
{
    let mut least = most;
    'steps: for (place, along) in steps {
        if !*along {
            least = least.min(amounts[*place as usize]);
        }
    }
    least
}

/// Raises the amounts that a path goes along, and lowers those that it goes against.
pub fn move_along(amounts: &mut List<u64>, steps: &[(u32, bool)], amount: u64)
    requires within { All (λ s. s.0 < length amounts.old) steps.now }
    requires once { IsOnce steps.now }
    requires fits { All (λ s. s.1 ≡ true → slice_index amounts.old s.0 + amount < 2 ^ 64) steps.now }
    requires carried { All (λ s. s.1 ≡ false → amount ≤ slice_index amounts.old s.0) steps.now }
    ensures { amounts.new ≡ moved amounts.old amount steps.now }
{
    'steps: for (place, along) in steps {
        let place = *place as usize;
        let held = amounts.as_slice()[place];
        let moved = if *along { held + amount } else { held - amount };
        amounts.set(place, moved);
    }
}
