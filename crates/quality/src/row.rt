// The row of a distance, and how many rows are tried to find it.
ghost use Rattle.std.specs.Prelude.{◌≡◌, ◌≤◌, pos};
ghost use Rattle.rules.specs.Table.{last_row};
ghost use Rattle.rules.specs.Percent.{admits, nearest};
ghost use Rattle.rules.specs.Halving.{handheld};
ghost use Rattle.laws.specs.Bounds.{SpreadInBounds, DistanceInBounds};

use readings::magnitude;

// 1600·(n−1)·D² ≥ (2k−1)²·n·V, for a row k from 1 on.
fn admits(n: u64, v: u64, d: i64, k: u64) -> bool
    requires { SpreadInBounds n v × DistanceInBounds d × (1 ≤ k) × (k ≤ last_row) }
    ensures { result ≡ admits n (pos v) d k }
{
    let distance = magnitude(d);
    (2 * k - 1) * (2 * k - 1) * n * v <= 1600 * (n - 1) * (distance * distance)
}

// What a lookup finds, a row or the percentage that stands there, and how many rows were tried for it.
#[derive(Clone, Copy)]
pub struct Lookup<T> {
    pub found: T,
    pub tried: u32,
}

// The row: the largest that is admitted. Whatever is below an admitted row is admitted too, so the range is halved, as the handheld halves it.
// Inner: a side keeps the bounds.
pub fn row(n: u64, v: u64, d: i64) -> Lookup<u64>
    requires { SpreadInBounds n v × DistanceInBounds d }
    ensures { (result.found ≡ nearest n (pos v) d) × (result.found ≤ last_row) × (result.tried ≡ (handheld n (pos v) d).tried) }
{
    let mut low = 0;
    let mut high = 53;
    let mut tried = 0;
    while low < high {
        let middle = (low + high + 1) / 2;
        tried += 1;
        if admits(n, v, d, middle) {
            low = middle;
        } else {
            high = middle - 1;
        }
    }
    Lookup { found: low, tried }
}
