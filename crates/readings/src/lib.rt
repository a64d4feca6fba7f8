// Mean and deviation of a lent list of readings, in thousandths, and the totals that they and the lookups are worked out from.
#![tactic(auto)]

ghost use Rattle.std.specs.Prelude.{◌≡◌, ◌*◌, ◌≤◌, pos, nat_abs, ◌+ℤ◌, ◌-ℤ◌, ◌*ℤ◌, length};
ghost use Rattle.std.specs.Int.{w64};
ghost use Rattle.std.proofs.Common.{SFits};
ghost use Rattle.rules.specs.Lot.{most};
ghost use Rattle.rules.specs.Percent.{spread};
ghost use Rattle.rules.specs.Deviation.{before_midpoint_above, deviation};
ghost use Rattle.rules.specs.Entries.{mean_says, deviation_says};
ghost use Rattle.laws.specs.Totalled.{pass_says, walk_says, totals_says};
ghost use Rattle.laws.specs.Bounds.{Bounded, SpreadInBounds};

use refusals::{allowed, in_range_32};
use rules::{Mean, Refusal, Thousandths, Totals};

// The magnitude of a number.
pub fn magnitude(z: i64) -> u64
    ensures { result ≡ nat_abs z }
{
    z.unsigned_abs()
}

// T and Z with one reading more; n is the count of all the readings and stays.
fn step(a: Totals, x: i64) -> Totals
    requires { (nat_abs x ≤ 500000) × (nat_abs a.t ≤ most * 500000) × (nat_abs a.z ≤ most * 250000000000) }
    ensures { (result.n ≡ a.n) × (result.t ≡ x +ℤ a.t) × (result.z ≡ x *ℤ x +ℤ a.z) }
{
    Totals {
        n: a.n,
        t: x + a.t,
        z: x * x + a.z,
    }
}

// One reading more, or 5 where it is out of range. Inner: a walk passes sums of no more readings than a lot can hold.
#[tactic(auto, unfolding(laws::specs::Totalled::pass_says))]
pub fn pass(a: Totals, x: i32) -> Result<Totals, Refusal>
    requires { (nat_abs a.t ≤ most * 500000) × (nat_abs a.z ≤ most * 250000000000) }
    ensures { result ≡ pass_says a x }
{
    if in_range_32(x) {
        Ok(step(a, i64::from(x)))
    } else {
        Err(Refusal::Range)
    }
}

// n, T and Z in one pass, which stops at a reading out of range: 5. Inner: who asks passes no more readings than a lot can hold.
pub fn walk(readings: &[i32]) -> Result<Totals, Refusal>
    requires { length readings.now ≤ most }
    ensures { result ≡ walk_says readings.now }
{
    let mut a = Totals {
        n: readings.len() as u32,
        t: 0,
        z: 0,
    };
    for &x in readings {
        a = pass(a, x)?;
    }
    Ok(a)
}

// n, T and Z of readings, or the refusal that they meet: 4 or 5.
#[tactic(auto, unfolding(rules::specs::Said::ruled, rules::specs::Meets::readings_meet, laws::specs::Totalled::walk_says, laws::specs::Totalled::totals_says))]
pub fn totals(readings: &[i32]) -> Result<Totals, Refusal>
    ensures { result ≡ totals_says readings.now }
{
    if allowed(readings.len()) {
        walk(readings)
    } else {
        Err(Refusal::Count)
    }
}

fn difference(n: i64, t: i64, z: i64) -> i64
    requires { SFits w64 (n *ℤ z) × SFits w64 (t *ℤ t) × SFits w64 (n *ℤ z -ℤ t *ℤ t) }
    ensures { result ≡ n *ℤ z -ℤ t *ℤ t }
{
    n * z - t * t
}

// V, which is never negative. Inner: the entries pass totals of readings that are not refused.
pub fn spread(a: Totals) -> u64
    requires { Bounded a }
    ensures { pos result ≡ spread a }
{
    magnitude(difference(i64::from(a.n), a.t, a.z))
}

// 4V < (2s+1)²·n·(n−1)
fn before_midpoint_above(n: u64, v: u64, s: u64) -> bool
    requires { SpreadInBounds n v × (s ≤ 10000000) }
    ensures { result ≡ before_midpoint_above n (pos v) s }
{
    4 * v < (2 * s + 1) * (2 * s + 1) * n * (n - 1)
}

// s, by a search from zero. Inner: the entries pass n and V of readings that are not refused.
pub fn rounded(n: u64, v: u64) -> u64
    requires { SpreadInBounds n v }
    ensures { (result ≡ deviation n (pos v)) × (result ≤ 10000000) }
{
    let mut s = 0;
    while !before_midpoint_above(n, v, s) {
        s += 1;
    }
    s
}

// The mean, unrounded.
pub fn mean(readings: &[i32]) -> Result<Mean, Refusal>
    ensures { result ≡ mean_says readings.now }
{
    let a = totals(readings)?;
    Ok(Mean {
        total: Thousandths(a.t as i32),
        count: a.n,
    })
}

// The deviation, rounded to the nearest thousandth. It is shown to people; no lookup uses it.
pub fn deviation(readings: &[i32]) -> Result<Thousandths, Refusal>
    ensures { result ≡ deviation_says readings.now }
{
    let a = totals(readings)?;
    Ok(Thousandths(rounded(a.n as u64, spread(a)) as i32))
}
