// Limits by mixture, by document 000's Table 1.
#![tactic(auto)]

ghost use Rattle.std.specs.Prelude.{◌≡◌, ◌+ℤ◌};
ghost use Rattle.rules.specs.Mixture.{density_pair, limits};
ghost use Rattle.rules.specs.Entries.{mixture_says};
ghost use Rattle.mixture.specs.Mixture.{mixture_number, GivesMixture, GivesLimit, GivesLimits};

use refusals::in_range;
use rules::{Characteristics, Pair, Refusal, Thousandths};

// Lower and upper, a row for each line of the table: offsets first, then limits by mixture.
const TABLE_1: [Pair<i32>; 6] = [
    // VMA, from its minimum
    Pair {
        lower: -700,
        upper: 3000,
    },
    // voids, from their target
    Pair {
        lower: -1350,
        upper: 1350,
    },
    // density of IL-4.75
    Pair {
        lower: 92500,
        upper: 97000,
    },
    // of IL-19.0 and 25.0
    Pair {
        lower: 92200,
        upper: 97000,
    },
    // of SMA
    Pair {
        lower: 93000,
        upper: 98000,
    },
    // of all others
    Pair {
        lower: 91500,
        upper: 97000,
    },
];

const VMA: usize = 0;

const VOIDS: usize = 1;

const DENSITY: usize = 2;

// The mixtures, by their numbers: IL-4.75, IL-19.0 and 25.0, SMA, all others.
#[derive(Clone, Copy)]
enum Mixture {
    Il475 = 0,
    Il190Or250 = 1,
    Sma = 2,
    AllOthers = 3,
}

impl TryFrom<i64> for Mixture {
    type Error = Refusal;

    ghost try_from_gives = { GivesMixture };

    fn try_from(number: i64) -> Result<Self, Refusal> {
        match number {
            0 => Ok(Mixture::Il475),
            1 => Ok(Mixture::Il190Or250),
            2 => Ok(Mixture::Sma),
            3 => Ok(Mixture::AllOthers),
            _ => Err(Refusal::Number),
        }
    }
}

impl Mixture {
    #[tactic(auto, unfolding(rules::specs::Mixture::density_pairs))]
    fn density(self) -> Pair<Thousandths>
        ensures { result ≡ limits (density_pair (mixture_number self)) }
    {
        let row = TABLE_1[DENSITY + self as usize];
        Pair {
            lower: Thousandths(row.lower),
            upper: Thousandths(row.upper),
        }
    }
}

fn sum(z: Thousandths, offset: i32) -> i64
    ensures { result ≡ z.0 +ℤ offset }
{
    z.0 as i64 + offset as i64
}

// The limit at an offset from a minimum or a target; or refusal 5.
fn limit(z: Thousandths, offset: i32) -> Result<Thousandths, Refusal>
    ensures { GivesLimit z.0 offset result }
{
    let limit = sum(z, offset);
    if !in_range(limit) {
        return Err(Refusal::Range);
    }
    Ok(Thousandths(limit as i32))
}

// The limits at the offsets of a row; or refusal 5.
fn limits(z: Thousandths, offsets: Pair<i32>) -> Result<Pair<Thousandths>, Refusal>
    ensures { GivesLimits z.0 offsets result }
{
    Ok(Pair {
        lower: limit(z, offsets.lower)?,
        upper: limit(z, offsets.upper)?,
    })
}

// The limits of the three characteristics, by a mixture number, a VMA minimum and a voids target; or refusal 5, or else 9.
#[tactic(auto, unfolding(rules::specs::Entries::mixture_says, rules::specs::Meets::mixture_meets, rules::specs::Mixture::mixture_limits, rules::specs::Said::ruled))]
pub fn lookup(
    mixture: i64,
    minimum: Thousandths,
    target: Thousandths,
) -> Result<Characteristics<Pair<Thousandths>>, Refusal>
    ensures { result ≡ mixture_says mixture minimum.0 target.0 }
{
    let vma = limits(minimum, TABLE_1[VMA])?;
    let voids = limits(target, TABLE_1[VOIDS])?;
    let mixture = Mixture::try_from(mixture)?;
    Ok(Characteristics {
        vma,
        voids,
        density: mixture.density(),
    })
}
