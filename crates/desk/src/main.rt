// What document 01 asks to be run and compared, beside the examples marked D, which are proved.
#![tactic(auto)]

mod evaluations;
mod mixtures;
mod payments;
mod records;
mod show;

use std::io;

fn main(rt: HostRuntime) -> io::Result<()> {
    evaluations::worked_example(&rt)?;
    evaluations::counts(&rt)?;
    evaluations::ranges(&rt)?;
    payments::document_000(&rt)?;
    payments::verdicts(&rt)?;
    mixtures::mixtures(&rt)?;
    records::both_ways(&rt)
}
