// Answers as the plain numbers that a host in C is given; and limits and lots from the numbers that it gives.
#![tactic(auto)]

pub mod lot;
pub mod sheet;

ghost use Rattle.std.specs.Prelude.{◌≡◌};
ghost use Rattle.rules.specs.Notebook.{lent_limit};
ghost use Rattle.rules.specs.Host.{refusal_part, host_mean, host_deviation, host_percentages, host_payment, host_pair, host_mixture_limits, host_written, host_listed, host_place, host_row};

use rules::host::{
    HostDeviation, HostListed, HostMean, HostMixtureLimits, HostPair, HostPayment, HostPercentages,
    HostPlace, HostRefusal, HostRow, HostTried, HostWritten,
};
use rules::{
    Characteristics, Limit, LotLimits, Mean, Pair, Payment, Percentages, Refusal, Row, Thousandths,
};

// The part with which every answer begins, where nothing is refused.
pub const UNREFUSED: HostRefusal = HostRefusal { number: 0 };

// The part with which every answer begins, where there is a refusal.
pub fn refused(refusal: Refusal) -> HostRefusal
    ensures { result ≡ refusal_part refusal }
{
    HostRefusal {
        number: refusal.number(),
    }
}

// A limit given as a number and a presence: absent where the presence is 0, and the number is not read; present where it is any other.
pub fn limit(number: i32, presence: u32) -> Limit
    ensures { result ≡ lent_limit number presence }
{
    (presence != 0).then_some(Thousandths(number))
}

// Two limits that are given so.
pub fn limits(upper: i32, upper_present: u32, lower: i32, lower_present: u32) -> LotLimits
    ensures { result ≡ record { upper = lent_limit upper upper_present; lower = lent_limit lower lower_present } }
{
    LotLimits {
        upper: limit(upper, upper_present),
        lower: limit(lower, lower_present),
    }
}

pub fn mean(answer: Result<Mean, Refusal>) -> HostMean
    ensures { result ≡ host_mean answer }
{
    match answer {
        Err(refusal) => HostMean {
            refusal: refused(refusal),
            ..HostMean::default()
        },
        Ok(mean) => HostMean {
            refusal: UNREFUSED,
            total: mean.total.0,
            count: mean.count,
        },
    }
}

pub fn deviation(answer: Result<Thousandths, Refusal>) -> HostDeviation
    ensures { result ≡ host_deviation answer }
{
    match answer {
        Err(refusal) => HostDeviation {
            refusal: refused(refusal),
            ..HostDeviation::default()
        },
        Ok(s) => HostDeviation {
            refusal: UNREFUSED,
            deviation: s.0,
        },
    }
}

pub fn percentages(answer: Result<Percentages, Refusal>) -> HostPercentages
    ensures { result ≡ host_percentages answer }
{
    match answer {
        Err(refusal) => HostPercentages {
            refusal: refused(refusal),
            ..HostPercentages::default()
        },
        Ok(p) => HostPercentages {
            refusal: UNREFUSED,
            upper: p.upper.0,
            lower: p.lower.0,
            pwl: p.pwl.0,
            tried: HostTried {
                upper: p.tried.upper,
                lower: p.tried.lower,
            },
        },
    }
}

pub fn payment(answer: Result<Payment, Refusal>) -> HostPayment
    ensures { result ≡ host_payment answer }
{
    match answer {
        Err(refusal) => HostPayment {
            refusal: refused(refusal),
            ..HostPayment::default()
        },
        Ok(p) => HostPayment {
            refusal: UNREFUSED,
            composite: p.composite.0,
            vma: p.vma as u32,
            voids: p.voids as u32,
            density: p.density as u32,
            lot: p.lot as u32,
            pay: p.pay.0,
        },
    }
}

fn pair(limits: Pair<Thousandths>) -> HostPair
    ensures { result ≡ host_pair limits }
{
    HostPair {
        lower: limits.lower.0,
        upper: limits.upper.0,
    }
}

pub fn mixture_limits(
    answer: Result<Characteristics<Pair<Thousandths>>, Refusal>,
) -> HostMixtureLimits
    ensures { result ≡ host_mixture_limits answer }
{
    match answer {
        Err(refusal) => HostMixtureLimits {
            refusal: refused(refusal),
            ..HostMixtureLimits::default()
        },
        Ok(l) => HostMixtureLimits {
            refusal: UNREFUSED,
            vma: pair(l.vma),
            voids: pair(l.voids),
            density: pair(l.density),
        },
    }
}

pub fn written(answer: Result<usize, Refusal>) -> HostWritten
    ensures { result ≡ host_written answer }
{
    match answer {
        Err(refusal) => HostWritten {
            refusal: refused(refusal),
            ..HostWritten::default()
        },
        Ok(size) => HostWritten {
            refusal: UNREFUSED,
            size,
        },
    }
}

pub fn listed(answer: Result<usize, Refusal>) -> HostListed
    ensures { result ≡ host_listed answer }
{
    match answer {
        Err(refusal) => HostListed {
            refusal: refused(refusal),
            ..HostListed::default()
        },
        Ok(items) => HostListed {
            refusal: UNREFUSED,
            items,
        },
    }
}

pub fn place(answer: Result<usize, Refusal>) -> HostPlace
    ensures { result ≡ host_place answer }
{
    match answer {
        Err(refusal) => HostPlace {
            refusal: refused(refusal),
            ..HostPlace::default()
        },
        Ok(start) => HostPlace {
            refusal: UNREFUSED,
            start,
        },
    }
}

pub fn row(answer: Result<Row, Refusal>) -> HostRow
    ensures { result ≡ host_row answer }
{
    match answer {
        Err(refusal) => HostRow {
            refusal: refused(refusal),
            ..HostRow::default()
        },
        Ok(row) => HostRow {
            refusal: UNREFUSED,
            mean: row.mean,
            deviation: row.deviation,
            pwl: row.pwl,
        },
    }
}
