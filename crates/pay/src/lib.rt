// Pay by document 000: the factor of each characteristic, the composite, the verdict and the final pay.
#![tactic(auto)]

ghost use Rattle.std.specs.Prelude.{◌≡◌, pos};
ghost use Rattle.rules.specs.Pay.{factor, weighted, composite, final_pay, rejected, verdict, payment};
ghost use Rattle.rules.specs.Entries.{pay_says};
ghost use Rattle.laws.specs.Between.{Between};
ghost use Rattle.laws.specs.InPercent.{InPercent};
ghost use Rattle.laws.specs.Payable.{Percents, Priced, Payable};

use rules::{
    Cents, Characteristics, Composite, HundredthTons, Hundredths, Payment, Refusal, TwoHundredths,
    Verdict, Weighted,
};

// Document 000's pay rule.
#[derive(Clone, Copy)]
pub struct PayRule;

impl PayRule {
    // 53 percent.
    pub const BASE: i64 = 53;

    // The slope is one half: one over this.
    pub const SLOPE_OVER: i64 = 2;

    // The weights are tenths.
    pub const WEIGHT_VMA: i64 = 3;

    pub const WEIGHT_VOIDS: i64 = 3;

    pub const WEIGHT_DENSITY: i64 = 4;

    // One characteristic's factor, 10,600 + PWL. Inner: `payment` keeps the bounds.
    #[tactic(auto, unfolding(rules::specs::Pay::factor))]
    pub fn factor(pwl: Hundredths) -> TwoHundredths
        requires { InPercent pwl.0 }
        ensures { result.0 ≡ factor pwl.0 }
    {
        TwoHundredths(200 * Self::BASE + 200 / (100 * Self::SLOPE_OVER) * pwl.0)
    }

    // W, the weighted sum of the three factors. Inner, as `factor`.
    #[tactic(auto, unfolding(rules::specs::Pay::factor))]
    pub fn weighted(pwls: Characteristics<Hundredths>) -> Weighted
        requires { Percents pwls.vma.0 pwls.voids.0 pwls.density.0 }
        ensures { result.0 ≡ weighted pwls.vma.0 pwls.voids.0 pwls.density.0 }
    {
        let vma = Self::factor(pwls.vma);
        let voids = Self::factor(pwls.voids);
        let density = Self::factor(pwls.density);
        Weighted(
            Self::WEIGHT_VMA * vma.0
                + Self::WEIGHT_VOIDS * voids.0
                + Self::WEIGHT_DENSITY * density.0,
        )
    }

    // (W + 100)/200, whole part: half goes up.
    #[tactic(auto, unfolding(rules::specs::Pay::composite))]
    fn composite(w: Weighted) -> Composite
        requires { Between (pos 106000) (pos 206000) w.0 }
        ensures { result.0 ≡ composite w.0 }
    {
        Composite((w.0 + 100) / 200)
    }

    // (price × quantity × composite + 50,000)/100,000, whole part.
    fn final_pay(price: Cents, quantity: HundredthTons, composite: Composite) -> Cents
        requires { Priced price.0 quantity.0 composite.0 }
        ensures { result.0 ≡ final_pay price.0 quantity.0 composite.0 }
    {
        Cents((price.0 * quantity.0 * composite.0 + 50000) / 100000)
    }
}

// A characteristic is rejected exactly when its PWL is below 50 percent.
fn verdict(pwl: Hundredths) -> Verdict
    ensures { result ≡ verdict (rejected pwl.0) }
{
    if pwl.0 < 5000 {
        Verdict::Rejected
    } else {
        Verdict::Accepted
    }
}

// The composite, the verdicts and the pay, of numbers that pay takes. The lot is rejected exactly when one of the three is.
#[tactic(auto, unfolding(rules::specs::Pay::payment))]
fn paid(pwls: Characteristics<Hundredths>, price: Cents, quantity: HundredthTons) -> Payment
    requires { Payable pwls.vma.0 pwls.voids.0 pwls.density.0 price.0 quantity.0 }
    ensures { result ≡ payment pwls.vma.0 pwls.voids.0 pwls.density.0 price.0 quantity.0 }
{
    let composite = PayRule::composite(PayRule::weighted(pwls));
    let vma = verdict(pwls.vma);
    let voids = verdict(pwls.voids);
    let density = verdict(pwls.density);
    let lot = match (vma, voids, density) {
        (Verdict::Accepted, Verdict::Accepted, Verdict::Accepted) => Verdict::Accepted,
        _ => Verdict::Rejected,
    };
    Payment {
        composite,
        vma,
        voids,
        density,
        lot,
        pay: PayRule::final_pay(price, quantity, composite),
    }
}

// Composite, verdicts and pay, by the PWLs of the three characteristics, a price a ton and a quantity; or refusal 9.
#[tactic(auto, using(laws::proofs::Payable::payable, laws::proofs::Ruled::ruled_given), unfolding(rules::specs::Entries::pay_says))]
pub fn payment(
    pwls: Characteristics<Hundredths>,
    price: Cents,
    quantity: HundredthTons,
) -> Result<Payment, Refusal>
    ensures { result ≡ pay_says pwls.vma.0 pwls.voids.0 pwls.density.0 price.0 quantity.0 }
{
    refusals::pay(pwls, price, quantity)?;
    Ok(paid(pwls, price, quantity))
}
