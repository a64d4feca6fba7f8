// An edition more: where it goes, or why it does not, and how it is written there.
ghost use Rattle.std.specs.Prelude.{◌≡◌, ◌+◌, ◌≤◌, length};
ghost use Rattle.rules.specs.Store.{stored_at};
ghost use Rattle.rules.specs.Editions.{storing_says};

use crate::edition::{accepted, two};
use crate::walk::{MOST_EDITIONS, whole};
use rules::Refusal;

// Where an edition more goes, or why it does not.
pub fn room_for(store: &[u8], edition: &[u8]) -> Result<usize, Refusal>
    ensures { result ≡ storing_says store.now edition.now }
{
    let w = whole(store, 0)?;
    if !accepted(edition) {
        return Err(Refusal::Unsound);
    }
    if (two(edition, 3) as u32) < w.least {
        return Err(Refusal::NotRising);
    }
    if w.count == MOST_EDITIONS {
        return Err(Refusal::Room);
    }
    if store.len() - w.end < edition.len() {
        return Err(Refusal::Room);
    }
    Ok(w.end)
}

// An entry at a place, and an end after it. Inner: `store` writes where there is room.
pub fn write_at(store: &mut [u8], at: usize, edition: &[u8])
    requires { at + length edition.now ≤ length store.old }
    ensures { store.new ≡ stored_at at edition.now store.old }
{
    let next = at + edition.len();
    store[at..next].copy_from_slice(edition);
    if 2 <= store.len() - next {
        store[next] = 0;
        store[next + 1] = 0;
    }
}
