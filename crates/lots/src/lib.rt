// A lot: what it meets and, where it is not refused, its totals, by one walk over its readings.
#![tactic(auto)]

ghost use Rattle.std.specs.Prelude.{◌≡◌};
ghost use Rattle.rules.specs.Lot.{lot_of, plain, lot_in};
ghost use Rattle.rules.specs.Meets.{counted_meets};
ghost use Rattle.laws.specs.Totalled.{with_limits_say, totalled};

use readings::walk;
use refusals::{allowed, limits_out};
use rules::{HeldLot, LotLimits, MOST, Refusal, Thousandths, Totals};

// The numbers at the places of a lot in memory.
pub fn numbers(readings: [Thousandths; MOST]) -> [i32; MOST]
    ensures { result ≡ plain readings }
{
    let mut numbers = [0; MOST];
    for (i, reading) in readings.iter().enumerate() {
        numbers[i] = reading.0;
    }
    numbers
}

// What a lot can meet after its count, 5 to 7, by what a walk over its readings says and by its limits; else what the walk gave.
#[tactic(auto, unfolding(rules::specs::Said::ruled, laws::specs::Totalled::with_limits_say))]
pub fn met<T: Copy>(walked: Result<T, Refusal>, limits: LotLimits) -> Result<T, Refusal>
    ensures { result ≡ with_limits_say limits.upper limits.lower walked }
{
    if limits_out(limits) {
        return Err(Refusal::Range);
    }
    let given = walked?;
    refusals::limits(limits)?;
    Ok(given)
}

// The totals of a lent list of readings with two limits, or the refusal that the lot meets: 4 to 7.
pub fn lent(readings: &[i32], limits: LotLimits) -> Result<Totals, Refusal>
    ensures { result ≡ totalled counted_meets (lot_of limits.upper limits.lower readings.now) }
{
    if allowed(readings.len()) {
        met(walk(readings), limits)
    } else {
        Err(Refusal::Count)
    }
}

// The same for a lot in memory, whose count may be above what it can hold.
#[tactic(auto, using(laws::proofs::Ruled::ruled_met), unfolding(laws::specs::Totalled::totalled))]
pub fn held(lot: HeldLot) -> Result<Totals, Refusal>
    ensures { result ≡ totalled counted_meets (lot_in lot) }
{
    let count = lot.count as usize;
    if MOST < count {
        return Err(Refusal::Count);
    }
    lent(&numbers(lot.readings)[..count], lot.limits())
}
