// The refusal table of document 01, as tests: what an entry does not answer, and by which refusal.
#![tactic(auto)]

ghost use Rattle.std.specs.Prelude.{◌≡◌, ◌||◌};
ghost use Rattle.rules.specs.Units.{in_range};
ghost use Rattle.rules.specs.Said.{checked};
ghost use Rattle.rules.specs.Refusals.{allowed, out_of_range, outside, pay_case};
ghost use Rattle.rules.specs.Meets.{limits_meet, pay_meets};

use rules::{
    Cents, Characteristics, HUNDRED_PERCENT, HundredthTons, Hundredths, Limit, LotLimits, MOST,
    Refusal,
};

// n is 2 to 17.
pub fn allowed(n: usize) -> bool
    ensures { result ≡ allowed n }
{
    (2 <= n) & (n <= MOST)
}

// A reading or a limit: from −500,000 to 500,000 thousandths.
pub fn in_range(z: i64) -> bool
    ensures { result ≡ in_range z }
{
    (-500000 <= z) & (z <= 500000)
}

// The same range, for a number of 32 bits, as every reading and limit is.
pub fn in_range_32(x: i32) -> bool
    ensures { result ≡ in_range x }
{
    in_range(i64::from(x))
}

fn out_of_range(limit: Limit) -> bool
    ensures { result ≡ out_of_range limit }
{
    limit.is_some_and(|z| !in_range_32(z.0))
}

// 5, of limits: a present one out of range.
pub fn limits_out(limits: LotLimits) -> bool
    ensures { result ≡ (out_of_range limits.upper || out_of_range limits.lower) }
{
    out_of_range(limits.upper) || out_of_range(limits.lower)
}

// What limits in range can meet: 6 and 7.
#[tactic(auto, unfolding(rules::specs::Said::ruled))]
pub fn limits(limits: LotLimits) -> Result<(), Refusal>
    ensures { result ≡ checked (limits_meet limits.upper limits.lower) }
{
    match (limits.upper, limits.lower) {
        (None, None) => Err(Refusal::Unlimited),
        (Some(u), Some(l)) if u.0 < l.0 => Err(Refusal::Crossed),
        _ => Ok(()),
    }
}

// Below 0 or above the greatest number that is taken.
pub fn outside(greatest: i64, z: i64) -> bool
    ensures { result ≡ outside greatest z }
{
    (z < 0) | (greatest < z)
}

// A number below 0, a PWL above 10,000, price above 10,000,000 or quantity above 100,000,000.
fn unpayable(pwls: Characteristics<Hundredths>, price: Cents, quantity: HundredthTons) -> bool
    ensures { result ≡ (pay_case pwls.vma.0 pwls.voids.0 pwls.density.0 price.0 quantity.0).applies }
{
    outside(HUNDRED_PERCENT, pwls.vma.0)
        | outside(HUNDRED_PERCENT, pwls.voids.0)
        | outside(HUNDRED_PERCENT, pwls.density.0)
        | outside(10000000, price.0)
        | outside(100000000, quantity.0)
}

// What pay can meet: 9.
#[tactic(auto, unfolding(rules::specs::Said::ruled, rules::specs::Meets::pay_meets))]
pub fn pay(
    pwls: Characteristics<Hundredths>,
    price: Cents,
    quantity: HundredthTons,
) -> Result<(), Refusal>
    ensures { result ≡ checked (pay_meets pwls.vma.0 pwls.voids.0 pwls.density.0 price.0 quantity.0) }
{
    if unpayable(pwls, price, quantity) {
        return Err(Refusal::Number);
    }
    Ok(())
}
