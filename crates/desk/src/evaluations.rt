// Lots: the worked example of document 000, and the edges of refusals 4 and 5. A line for each lot: the sum T and the count n, the deviation
// in thousandths, and the two sides and PWL in hundredths; or, for each of the three, the number of the refusal.
use crate::payments;
use crate::show::{Show, Shown};
use quality::evaluate;
use readings::{deviation, mean};
use rules::{Characteristics, LotLimits, Mean, Percentages, Refusal, Thousandths};
use std::{fmt, io};

impl Show for Mean {
    fn show<W: fmt::Write>(&self, f: &mut fmt::Formatter<W>) -> fmt::Result {
        write!(f, "T {} n {}", self.total.0, self.count)
    }
}

// Thousandths by themselves are a deviation.
impl Show for Thousandths {
    fn show<W: fmt::Write>(&self, f: &mut fmt::Formatter<W>) -> fmt::Result {
        write!(f, "deviation {}", self.0)
    }
}

impl Show for Percentages {
    fn show<W: fmt::Write>(&self, f: &mut fmt::Formatter<W>) -> fmt::Result {
        write!(
            f,
            "upper {} lower {} PWL {}",
            self.upper.0, self.lower.0, self.pwl.0
        )
    }
}

// The number under which the desk keeps Table 106-1.
const NUMBER: u16 = 1;

// By Table 106-1, which is a store of one edition by itself.
fn by_table(readings: &[i32], limits: LotLimits) -> Result<Percentages, Refusal> {
    let mut store = [0; 979];
    table::edition(NUMBER, &mut store)?;
    evaluate(&store, u32::from(NUMBER), readings, limits)
}

fn lot(
    rt: &impl Print,
    name: &str,
    readings: &[i32],
    percentages: Result<Percentages, Refusal>,
) -> io::Result<()> {
    println!(rt;
        "{name}: {}; {}; {}",
        Shown(mean(readings)),
        Shown(deviation(readings)),
        Shown(percentages)
    )
}

fn up_to(upper: i32) -> LotLimits {
    LotLimits {
        upper: Some(Thousandths(upper)),
        lower: None,
    }
}

fn between(lower: i32, upper: i32) -> LotLimits {
    LotLimits {
        lower: Some(Thousandths(lower)),
        ..up_to(upper)
    }
}

// Document 000's worked example, from readings to pay.
pub(crate) fn worked_example(rt: &impl Print) -> io::Result<()> {
    println!(rt; "Worked example")?;
    let voids = [4200, 4500, 3300, 5000, 5400, 2500, 3800, 4100, 4300, 4500];
    let vma = [
        13000, 12500, 13000, 13300, 12900, 12400, 13400, 13000, 12600, 12800,
    ];
    let density = [
        91500, 93000, 92900, 93500, 93000, 94000, 92800, 93500, 91000, 92700,
    ];
    let lots = Characteristics {
        vma: by_table(&vma, between(12300, 16000)),
        voids: by_table(&voids, between(2650, 5350)),
        density: by_table(&density, between(91500, 97000)),
    };
    lot(rt, "Voids", &voids, lots.voids)?;
    lot(rt, "VMA", &vma, lots.vma)?;
    lot(rt, "Density", &density, lots.density)?;
    payments::worked_example(rt, lots)
}

// Refusal 4: n not 2 to 17. The table has no column for 11 and more: refusal 10, but no refusal of mean and deviation.
pub(crate) fn counts(rt: &impl Print) -> io::Result<()> {
    println!(rt; "\nCounts")?;
    let many = [4000; 18];
    let lots = [
        ("1 reading", &many[..1]),
        ("2 readings", &many[..2]),
        ("10 readings", &many[..10]),
        ("11 readings", &many[..11]),
        ("17 readings", &many[..17]),
        ("18 readings", &many[..]),
    ];
    for (name, readings) in lots {
        lot(rt, name, readings, by_table(readings, up_to(4000)))?;
    }
    Ok(())
}

// Refusal 5: a reading out of range.
pub(crate) fn ranges(rt: &impl Print) -> io::Result<()> {
    println!(rt; "\nRanges")?;
    let lots = [
        ("500000", [500000, 500000], between(500000, 500000)),
        ("500001", [500000, 500001], up_to(500000)),
        ("-500000", [-500000, -500000], between(-500000, -500000)),
        ("-500001", [-500001, -500000], up_to(500000)),
    ];
    for (name, readings, limits) in lots {
        lot(rt, name, &readings, by_table(&readings, limits))?;
    }
    Ok(())
}
