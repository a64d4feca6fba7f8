// The percentage of a side, and how many rows are tried for it.
ghost use Rattle.std.specs.Prelude.{◌≡◌, false, ◌*◌, ◌≤◌, pos, nat_abs, ◌-ℤ◌, ◌*ℤ◌};
ghost use Rattle.rules.specs.Units.{hundred_percent};
ghost use Rattle.rules.specs.Lot.{most};
ghost use Rattle.rules.specs.Table.{column_in};
ghost use Rattle.rules.specs.Percent.{spread, nearest, side, upper_side, lower_side};
ghost use Rattle.rules.specs.Halving.{rows_tried, upper_tried, lower_tried};
ghost use Rattle.rules.specs.Refusals.{out_of_range};
ghost use Rattle.laws.specs.Bounds.{Bounded, DistanceInBounds};
ghost use Rattle.laws.specs.ColumnIn.{ColumnIn};
ghost use Rattle.laws.specs.InPercent.{InPercent};
ghost use Rattle.laws.specs.Reached.{reached};

use crate::row::{Lookup, row};
use rules::{HUNDRED_PERCENT, Hundredths, Limit, Thousandths, Totals};

// All readings are within, and no row is tried.
const FULL: Lookup<Hundredths> = Lookup {
    found: Hundredths(HUNDRED_PERCENT),
    tried: 0,
};

// The rest to 100 percent.
fn rest(part: Hundredths) -> Hundredths
    requires { InPercent part.0 }
    ensures { (result.0 ≡ hundred_percent -ℤ part.0) × InPercent result.0 }
{
    Hundredths(HUNDRED_PERCENT - part.0)
}

fn difference(x: i64, y: i64) -> i64
    requires { (nat_abs x ≤ most * 500000) × (nat_abs y ≤ most * 500000) }
    ensures { (result ≡ x -ℤ y) × DistanceInBounds result }
{
    x - y
}

fn times(n: u32, z: Thousandths) -> i64
    requires { (n ≤ most) × (nat_abs z.0 ≤ 500000) }
    ensures { (result ≡ pos n *ℤ z.0) × (nat_abs result ≤ most * 500000) }
{
    n as i64 * z.0 as i64
}

// What the sides of a lot are looked up by: the column for its count, and its totals with V, which is worked out once for both.
#[derive(Clone, Copy)]
pub struct Sides<'a> {
    pub column: &'a [u8],
    pub totals: Totals,
    pub v: u64,
    ghost shape: { ColumnIn column.now },
    ghost bounded: { Bounded totals },
    ghost spread_is: { pos v ≡ spread totals },
}

impl<'a> Sides<'a> {
    // The entry at the row; 10,000 where all readings are equal, and no row is tried.
    fn reached(&self, d: i64) -> Lookup<Hundredths>
        requires { DistanceInBounds d }
        ensures { (result.found.0 ≡ pos (reached nearest (column_in self.now.column.now) self.now.totals.n (pos self.now.v) d)) × InPercent result.found.0 × (result.tried ≡ rows_tried self.now.totals.n (pos self.now.v) d) }
    {
        if self.v == 0 {
            return FULL;
        }
        let row = row(self.totals.n as u64, self.v, d);
        Lookup {
            found: table::entry(self.column, row.found as usize),
            tried: row.tried,
        }
    }

    // The percentage of a side at a distance D, and the rows tried for it.
    fn side(&self, d: i64) -> Lookup<Hundredths>
        requires { DistanceInBounds d }
        ensures { (result.found.0 ≡ side nearest (column_in self.now.column.now) self.now.totals.n (pos self.now.v) d) × InPercent result.found.0 × (result.tried ≡ rows_tried self.now.totals.n (pos self.now.v) d) }
    {
        let reached = self.reached(d);
        if 0 <= d {
            return reached;
        }
        Lookup {
            found: rest(reached.found),
            tried: reached.tried,
        }
    }

    // The side of an upper limit: 10,000 where it is absent, and no row is tried.
    pub fn upper(&self, limit: Limit) -> Lookup<Hundredths>
        requires { out_of_range limit ≡ false }
        ensures { (result.found.0 ≡ upper_side nearest (column_in self.now.column.now) self.now.totals limit) × InPercent result.found.0 × (result.tried ≡ upper_tried self.now.totals limit) }
    {
        match limit {
            None => FULL,
            Some(u) => self.side(difference(times(self.totals.n, u), self.totals.t)),
        }
    }

    // The side of a lower limit: 10,000 where it is absent, and no row is tried.
    pub fn lower(&self, limit: Limit) -> Lookup<Hundredths>
        requires { out_of_range limit ≡ false }
        ensures { (result.found.0 ≡ lower_side nearest (column_in self.now.column.now) self.now.totals limit) × InPercent result.found.0 × (result.tried ≡ lower_tried self.now.totals limit) }
    {
        match limit {
            None => FULL,
            Some(l) => self.side(difference(self.totals.t, times(self.totals.n, l))),
        }
    }
}
