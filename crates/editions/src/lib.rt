// A store of table editions in a lent buffer: which edition is named, where its columns stand, and storing, finding and listing editions.
#![tactic(auto)]

mod edition;
mod storing;
mod walk;

ghost use Rattle.std.specs.Prelude.{◌≡◌, true, ◌++◌, ◌+◌, ◌≤◌, length, drop};
ghost use Rattle.rules.specs.Table.{has_column};
ghost use Rattle.rules.specs.Edition.{first_field, column_place, table_of};
ghost use Rattle.rules.specs.Store.{first_entry, editions, is_store, numbers};
ghost use Rattle.rules.specs.Editions.{storing_says, after_storing, finding_says, listing_says, after_listing};
ghost use Rattle.laws.specs.StoreWalk.{named_says, EditionAt};

use edition::two;
use rules::Refusal;
use storing::{room_for, write_at};
use walk::whole;

// The place at which the edition that is named starts, or that there is none; 11 where the bytes are no store. Any number may be named; what two bytes
// cannot hold is the number of none.
pub fn named(store: &[u8], edition: u32) -> Result<Option<usize>, Refusal>
    ensures { result ≡ named_says edition store.now }
{
    Ok(whole(store, edition)?.start)
}

// Whether the edition that starts at a place has a column for n readings. Inner: `quality::with_column` passes the place of an edition.
pub fn has_column(store: &[u8], start: usize, n: usize) -> bool
    requires { EditionAt store.now start }
    ensures { result ≡ has_column (table_of (first_entry (drop start store.now)) n) }
{
    (store[start + 5] as usize <= n) & (n <= store[start + 6] as usize)
}

// The place at which that column starts. Inner: `quality::with_column` asks where there is one.
pub fn column(store: &[u8], start: usize, n: usize) -> usize
    requires { EditionAt store.now start × (has_column (table_of (first_entry (drop start store.now)) n) ≡ true) }
    ensures { result ≡ start + column_place (first_field (first_entry (drop start store.now))) n }
{
    start + (edition::HEAD + edition::COLUMN * (n - store[start + 5] as usize))
}

// An edition more, written where the store ends, and the place at which it starts.
#[tactic(auto, using(laws::proofs::Stored::stored_within), unfolding(rules::specs::Editions::left_by))]
pub fn store(store: &mut [u8], edition: &[u8]) -> Result<usize, Refusal>
    ensures result_value { result ≡ storing_says store.old edition.now }
    ensures store_after { store.new ≡ after_storing store.old edition.now }
{
    let start = room_for(&*store, edition)?;
    write_at(store, start, edition);
    Ok(start)
}

// The place at which the edition that is named starts.
pub fn find(store: &[u8], edition: u32) -> Result<usize, Refusal>
    ensures { result ≡ finding_says store.now edition }
{
    named(store, edition)?.ok_or(Refusal::NoEdition)
}

// The numbers of the editions of a store, so many of them as there are, from the start of a list.
fn fill(store: &[u8], count: usize, out: &mut [u32])
    requires { (is_store store.now ≡ true) × (count ≡ length (editions store.now)) × (count ≤ length out.old) }
    ensures { out.new ≡ numbers (editions store.now) ++ drop count out.old }
{
    let mut at = 0;
    for i in 0..count {
        out[i] = two(store, at + 3) as u32;
        at += 2 + two(store, at) as usize;
    }
}

// The numbers of the editions stored, in a lent list, and how many there are.
pub fn list(store: &[u8], out: &mut [u32]) -> Result<usize, Refusal>
    ensures result_value { result ≡ listing_says store.now out.old }
    ensures out_after { out.new ≡ after_listing store.now out.old }
{
    let count = whole(store, 0)?.count;
    if out.len() < count {
        return Err(Refusal::Room);
    }
    fill(store, count, out);
    Ok(count)
}
