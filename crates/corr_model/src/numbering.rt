//! The baselines of an array, each pair of antennas once, and their numbers.

ghost use Rattle.std.specs.Prelude.{◌≡◌, ◌+◌, ◌*◌, ◌/◌, ◌<◌, ◌≤◌, ℕ};
ghost use Rattle.corr_model.specs.Baselines.{baseline_number};

/// The number of the baseline of antennas `i` and `j`.
pub fn baseline(i: u32, j: u32) -> u32
    requires order { i ≤ j }
    requires in_range { j < 64 }
    ensures { result ≡ baseline_number i j }
{
    j * (j + 1) / 2 + i
}

/// The antennas of a baseline, the lesser first.
pub fn pair(b: u32) -> (u32, u32)
    requires { b < 2080 }
    ensures order { result.0 ≤ result.1 }
    ensures in_range { result.1 < 64 }
    ensures number { baseline_number result.0 result.1 ≡ b }
    ensures only { (i j : ℕ) → i ≤ j → baseline_number i j ≡ b → (result.0 ≡ i) × (result.1 ≡ j) }
{
    let mut start = 0;
    for j in 0..64 {
        if b <= start + j {
            return (b - start, j);
        }
        start += j + 1;
    }
    unreachable!()
}
