// An edition, as an entry that fills its bytes: whether it is accepted.
ghost use Rattle.std.specs.Prelude.{◌≡◌, ◌+◌, ◌*◌, ◌-◌, ◌≤◌, length, drop};
ghost use Rattle.rules.specs.Record.{spelled, part};
ghost use Rattle.rules.specs.Table.{column_in, well_formed};
ghost use Rattle.rules.specs.Edition.{first_field, edition_head, column_size, columns, column_of, each, accepted};

use rules::MOST;

// 54 rows to a column, two bytes to a row.
pub const ROWS: usize = 54;

pub const COLUMN: usize = 108;

// The bytes before the columns.
pub const HEAD: usize = 7;

// The number that the two bytes from a place on spell. Inner: a caller keeps the place within the bytes.
#[tactic(auto, using(laws::proofs::Spelled::two_read))]
pub fn two(bytes: &[u8], at: usize) -> u16
    requires { at + 2 ≤ length bytes.now }
    ensures { result ≡ spelled 0 (part at 2 bytes.now) }
{
    u16::from_be_bytes([bytes[at], bytes[at + 1]])
}

// A column, from a place on, starts at 5,000, never falls and ends at 10,000.
fn column(bytes: &[u8], at: usize) -> bool
    requires { at + column_size ≤ length bytes.now }
    ensures { result ≡ well_formed (column_in (drop at bytes.now)) }
{
    let mut before = 0;
    for k in 0..ROWS {
        let entry = two(bytes, at + 2 * k);
        if entry < before {
            return false;
        }
        before = entry;
    }
    (two(bytes, at) == 5000) & (two(bytes, at + 106) == 10000)
}

// Each column of an edition whose size fits their count.
fn columns(edition: &[u8], count: usize) -> bool
    requires { (length edition.now ≡ edition_head + column_size * count) × (count ≡ columns edition.now) }
    ensures { result ≡ each (λ n. well_formed (column_of edition.now n)) count (first_field edition.now) }
{
    for i in 0..count {
        if !column(edition, HEAD + COLUMN * i) {
            return false;
        }
    }
    true
}

// Whether an edition is accepted.
#[tactic(auto, using(laws::proofs::Editions::not_accepted, laws::proofs::Editions::columns_decide))]
pub fn accepted(edition: &[u8]) -> bool
    ensures { result ≡ accepted edition.now }
{
    if edition.len() < HEAD {
        return false;
    }
    let first = edition[5] as usize;
    let last = edition[6] as usize;
    if edition[2] != 1 {
        return false;
    }
    if first < 2 {
        return false;
    }
    if MOST < last {
        return false;
    }
    if last < first {
        return false;
    }
    let count = last + 1 - first;
    if edition.len() != HEAD + COLUMN * count {
        return false;
    }
    if two(edition, 0) as usize != edition.len() - 2 {
        return false;
    }
    columns(edition, count)
}
