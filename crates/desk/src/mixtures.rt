// Limits by mixture: a line for each lookup, with the lower and the upper limit of each characteristic in thousandths, or the number of the
// refusal.
use crate::show::{Show, Shown};
use mixture::lookup;
use rules::{Characteristics, Pair, Thousandths};
use std::{fmt, io};

impl Show for Characteristics<Pair<Thousandths>> {
    fn show<W: fmt::Write>(&self, f: &mut fmt::Formatter<W>) -> fmt::Result {
        write!(
            f,
            "VMA {} to {}; voids {} to {}; density {} to {}",
            self.vma.lower.0,
            self.vma.upper.0,
            self.voids.lower.0,
            self.voids.upper.0,
            self.density.lower.0,
            self.density.upper.0
        )
    }
}

// With the minimum and the target of document 000's worked example.
pub(crate) fn mixtures(rt: &impl Print) -> io::Result<()> {
    println!(rt; "\nMixtures")?;
    let mixtures = [
        (0, "IL-4.75"),
        (1, "IL-19.0 and 25.0"),
        (2, "SMA"),
        (3, "all others"),
    ];
    for (mixture, name) in mixtures {
        let limits = lookup(mixture, Thousandths(13000), Thousandths(4000));
        println!(rt; "{name}: {}", Shown(limits))?;
    }
    Ok(())
}
