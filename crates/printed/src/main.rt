// Prints Table 106-1 as the crate `table` has it, an entry at a time: tab-separated, in percent, a line for each index.
#![tactic(auto)]

ghost use Rattle.std.specs.Prelude.{◌≤◌};

use std::{fmt, io};

// A number of hundredths, printed with its point.
#[derive(Clone, Copy)]
struct Percent(u64);

impl fmt::Display for Percent {
    fn fmt<W: fmt::Write>(&self, f: &mut fmt::Formatter<W>) -> fmt::Result {
        write!(f, "{}.{:02}", self.0 / 100, self.0 % 100)
    }
}

// No entry is negative.
fn entry(n: usize, k: usize) -> Percent
    requires { (2 ≤ n) × (n ≤ 10) × (k ≤ 53) }
{
    Percent(table::entry(&table::column(n), k).0 as u64)
}

fn row(rt: &impl Print, k: usize) -> io::Result<()>
    requires { k ≤ 53 }
{
    print!(rt; "{}", Percent(5 * k as u64))?;
    for n in 2..=10 {
        print!(rt; "\t{}", entry(n, k))?;
    }
    println!(rt)
}

fn main(rt: HostRuntime) -> io::Result<()> {
    println!(rt; "index\tn=2\tn=3\tn=4\tn=5\tn=6\tn=7\tn=8\tn=9\tn=10")?;
    for k in 0..54 {
        row(&rt, k)?;
    }
    Ok(())
}
