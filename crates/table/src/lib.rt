// Table 106-1 of document 004, as document 02 corrects it, a column at a time and as an edition; and an entry of any column.
#![tactic(auto)]

mod columns;

ghost use Rattle.std.specs.Prelude.{◌≡◌, ◌≤◌, ◌++◌, pos, length, drop};
ghost use Rattle.rules.specs.Table.{table_106_1, entries, entry, column_in};
ghost use Rattle.rules.specs.Edition.{edition_106_1};
ghost use Rattle.rules.specs.Editions.{default_says, after_default};

use columns::{FROM_2, FROM_5, FROM_9};
use rules::{Hundredths, Refusal};

// The bytes of a column: two to each of 54 rows.
const COLUMN: usize = 108;

// The bytes of the edition that stand before its columns.
const HEAD: usize = 7;

// The bytes of the edition, with its nine columns.
const EDITION: usize = HEAD + 9 * COLUMN;

// The column for n readings. Inner: the edition and the printed table pass a count that has one.
pub fn column(n: usize) -> [u8; COLUMN]
    requires { (2 ≤ n) × (n ≤ 10) }
    ensures { column_in result ≡ entries (table_106_1 n) }
{
    match n {
        ..=4 => FROM_2[n - 2],
        5..=8 => FROM_5[n - 5],
        _ => FROM_9[n - 9],
    }
}

// The entry of a column at row k. Inner: a side and the printed table pass a whole column and keep k in range.
#[tactic(auto, using(laws::proofs::ColumnIn::column_entry, laws::proofs::Spelled::from_be_bytes_two))]
pub fn entry(column: &[u8], k: usize) -> Hundredths
    requires { (length column.now ≡ 108) × (k ≤ 53) }
    ensures { result.0 ≡ pos (entry (column_in column.now) k) }
{
    let printed = u16::from_be_bytes([column[2 * k], column[2 * k + 1]]);
    Hundredths(i64::from(printed))
}

// The edition at the start of lent bytes, under a number. Inner: `edition` writes where there is room.
#[tactic(auto, using(laws::proofs::DefaultEdition::default_head))]
fn fill(number: u16, out: &mut [u8])
    requires { 979 ≤ length out.old }
    ensures { out.new ≡ edition_106_1 number ++ drop 979 out.old }
{
    // 977 bytes follow the first two: version 1, the number, the first and the last n, and the columns.
    let [high, low] = number.to_be_bytes();
    out[..HEAD].copy_from_slice(&[3, 209, 1, high, low, 2, 10]);
    for n in 2..=10 {
        let at = HEAD + COLUMN * (n - 2);
        out[at..at + COLUMN].copy_from_slice(&column(n));
    }
}

// Table 106-1 as an edition, written under a number into lent bytes, and how many bytes it has.
#[tactic(auto, using(laws::proofs::DefaultEdition::short_bytes_are_refused, laws::proofs::DefaultEdition::default_is_written))]
pub fn edition(number: u16, out: &mut [u8]) -> Result<usize, Refusal>
    ensures result_value { result ≡ default_says number out.old }
    ensures out_after { out.new ≡ after_default number out.old }
{
    if out.len() < EDITION {
        return Err(Refusal::Room);
    }
    fill(number, out);
    Ok(EDITION)
}
