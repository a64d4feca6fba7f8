// Readings that come as bytes, four to each, as in a record.
ghost use Rattle.std.specs.Prelude.{◌≡◌, ◌+◌, ◌*◌, ◌≤◌, length, IfOk};
ghost use Rattle.rules.specs.Lot.{most, in_places};
ghost use Rattle.rules.specs.Record.{four, fours, part};
ghost use Rattle.laws.specs.Totalled.{walk_says, said_of};

use crate::number::{signed, word};
use readings::pass;
use rules::{MOST, Refusal, Thousandths, Totals};

// Some readings, each in its place, and their totals.
#[derive(Clone, Copy)]
pub struct Walked {
    pub totals: Totals,
    pub readings: [Thousandths; MOST],
}

// Reading i.
fn reading(bytes: &[u8], i: usize) -> i32
    requires { 4 * i + 4 ≤ length bytes.now }
    ensures { result ≡ four (part (4 * i) 4 bytes.now) }
{
    signed(word(bytes, 4 * i))
}

// One pass over the first n readings, which stops at one out of range. Inner: a record's reader and the notebook's row ask for no more than a lot and
// the bytes hold.
pub fn walk(bytes: &[u8], n: usize) -> Result<Walked, Refusal>
    requires { (n ≤ most) × (4 * n ≤ length bytes.now) }
    ensures said_value { said_of (λ w. w.totals) result ≡ walk_says (fours n bytes.now) }
    ensures placed { IfOk result (λ w. w.readings ≡ in_places n (fours n bytes.now)) }
{
    let mut walked = Walked {
        totals: Totals {
            n: n as u32,
            t: 0,
            z: 0,
        },
        readings: [Thousandths(0); MOST],
    };
    for i in 0..n {
        let x = reading(bytes, i);
        walked.totals = pass(walked.totals, x)?;
        walked.readings[i] = Thousandths(x);
    }
    Ok(walked)
}
