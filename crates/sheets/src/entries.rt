// The entries of a sheet as a list of numbers, and where two such lists differ.
ghost use Rattle.std.specs.Prelude.{◌≡◌, ◌++◌, ◌*◌, ◌≤◌, length, drop};
ghost use Rattle.rules.specs.Sheet.{sheet_numbers, differ, differing, first_of, difference_numbers};
ghost use Rattle.laws.specs.Sheet.{Entered};

use rules::{Difference, Sheet};

const ENTRIES: usize = 6;

#[tactic(auto, unfolding(rules::specs::Sheet::sheet_numbers))]
pub fn numbers(sheet: Sheet) -> [i64; ENTRIES]
    ensures { result ≡ sheet_numbers sheet }
{
    [
        sheet.vma.0,
        sheet.voids.0,
        sheet.density.0,
        sheet.composite.0,
        sheet.verdict.0,
        sheet.pay.0,
    ]
}

fn differ(first: i64, second: i64) -> bool
    ensures { result ≡ differ first second }
{
    first != second
}

// The first entry in which two sheets differ, or that there is none.
#[tactic(auto, unfolding(rules::specs::Sheet::differing, rules::specs::Sheet::first_of))]
pub fn first_of(a: [i64; ENTRIES], b: [i64; ENTRIES]) -> Option<Difference>
    ensures { result ≡ first_of (differing 0 a b) }
{
    for entry in 0..ENTRIES {
        if differ(a[entry], b[entry]) {
            return Some(Difference {
                entry: entry as u32,
                first: a[entry],
                second: b[entry],
            });
        }
    }
    None
}

// How many entries differ.
#[tactic(auto, unfolding(rules::specs::Sheet::differing))]
pub fn count(a: [i64; ENTRIES], b: [i64; ENTRIES]) -> usize
    ensures { result ≡ length (differing 0 a b) }
{
    let mut items = 0;
    for entry in 0..ENTRIES {
        if differ(a[entry], b[entry]) {
            items += 1;
        }
    }
    items
}

// Fills in every entry that differs, and by how much. Inner: `compare` passes the numbers of sheets that are not refused, and a list with room.
#[tactic(auto, unfolding(rules::specs::Sheet::differing, rules::specs::Sheet::difference_numbers))]
pub fn list(a: [i64; ENTRIES], b: [i64; ENTRIES], out: &mut [i64])
    requires { Entered a × Entered b × (2 * length (differing 0 a b) ≤ length out.old) }
    ensures { out.new ≡ difference_numbers (differing 0 a b) ++ drop (2 * length (differing 0 a b)) out.old }
{
    let mut items = 0;
    for entry in 0..ENTRIES {
        if differ(a[entry], b[entry]) {
            out[2 * items] = entry as i64;
            out[2 * items + 1] = a[entry] - b[entry];
            items += 1;
        }
    }
}
