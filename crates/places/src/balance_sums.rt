// Balances added up, exact whatever they are. They stand at n places from a place `from` on.
ghost use Rattle.std.specs.Prelude.{ℕ, ◌+◌, ◌*◌, ◌<◌, ◌≤◌, length, get_or};
ghost use Rattle.places.specs.ExactSums.{Added};
ghost use Rattle.places.specs.OverPlaces.{sum_at};

use crate::exact_sums::{Halved, Wide};

// The balances added.
// Kept: a start and a count, and no slice: zeros_at, sum_at and funds_at, which refusals 3 and 25 cite, are of places in a state's words.
pub fn add_balances(balances: &[u64], from: usize, n: usize, start: Wide) -> Wide
    requires { (from + n ≤ length balances.now) × (start.high + 2 * n < 65535) }
    ensures { Added start (sum_at (λ (i : ℕ). get_or balances.now i 0) from n) (2 * n) result }
{
    let mut sum = Halved::default();
    for b in &balances[from..from + n] {
        sum = sum.add(*b);
    }
    start.add_halves(sum.high, sum.low)
}
