// Payments: a line for each, with the composite in thousandths, the verdicts and the pay in cents, or the number of the refusal.
use crate::show::{Show, Shown};
use pay::{PayRule, payment};
use rules::{
    Cents, Characteristics, HundredthTons, Hundredths, Payment, Percentages, Refusal, Verdict,
};
use std::{fmt, io};

fn word(verdict: Verdict) -> &'static str {
    match verdict {
        Verdict::Accepted => "accepted",
        Verdict::Rejected => "rejected",
    }
}

impl Show for Payment {
    fn show<W: fmt::Write>(&self, f: &mut fmt::Formatter<W>) -> fmt::Result {
        write!(
            f,
            "composite {}; VMA {}; voids {}; density {}; lot {}; pay {}",
            self.composite.0,
            word(self.vma),
            word(self.voids),
            word(self.density),
            word(self.lot),
            self.pay.0
        )
    }
}

// The pay of lots, or the refusal of one of them.
fn paid(lots: Characteristics<Result<Percentages, Refusal>>) -> Result<Payment, Refusal> {
    let pwls = Characteristics {
        vma: lots.vma?.pwl,
        voids: lots.voids?.pwl,
        density: lots.density?.pwl,
    };
    payment(pwls, Cents(8000), HundredthTons(800000))
}

// W and the pay of document 000's worked example, by document 01's PWLs.
pub(crate) fn worked_example(
    rt: &impl Print,
    lots: Characteristics<Result<Percentages, Refusal>>,
) -> io::Result<()> {
    let pwls = Characteristics {
        vma: Hundredths(9751),
        voids: Hundredths(9128),
        density: Hundredths(9256),
    };
    println!(rt; "W {}", PayRule::weighted(pwls).0)?;
    println!(rt; "Pay: {}", Shown(paid(lots)))
}

// Document 000's own numbers for its example, whose percentages are rounded.
pub(crate) fn document_000(rt: &impl Print) -> io::Result<()> {
    println!(rt; "\nBy document 000's percentages")?;
    let pwls = Characteristics {
        vma: Hundredths(9800),
        voids: Hundredths(9200),
        density: Hundredths(9300),
    };
    let vma = PayRule::factor(pwls.vma);
    let voids = PayRule::factor(pwls.voids);
    let density = PayRule::factor(pwls.density);
    println!(rt; "factors {} {} {}", vma.0, voids.0, density.0)?;
    let answer = payment(pwls, Cents(3500), HundredthTons(1000000));
    println!(rt; "98, 92 and 93 percent: {}", Shown(answer))
}

pub(crate) fn verdicts(rt: &impl Print) -> io::Result<()> {
    println!(rt; "\nVerdicts")?;
    let examples = [
        ("5000 each", 5000, 5000, 5000),
        ("VMA 4999", 4999, 5000, 5000),
        ("voids 4999", 5000, 4999, 5000),
        ("density 4999", 5000, 5000, 4999),
    ];
    for (name, vma, voids, density) in examples {
        let pwls = Characteristics {
            vma: Hundredths(vma),
            voids: Hundredths(voids),
            density: Hundredths(density),
        };
        let answer = payment(pwls, Cents(10000), HundredthTons(10000));
        println!(rt; "{name}: {}", Shown(answer))?;
    }
    Ok(())
}
