// A store walked length first: each entry up to its end, once.
ghost use Rattle.std.specs.Prelude.{◌≡◌, ◌+◌, ◌<◌, ◌^◌};
ghost use Rattle.laws.specs.StoreWalk.{front_of, passed_by, store_walk};

use crate::edition::{accepted, two};
use rules::Refusal;
use rules::store::{Entry, Walked};

// The most editions that a store holds.
pub const MOST_EDITIONS: usize = 8;

// What stands at the front of the bytes that are left: an edition's entry, or the end; 11 for what is none of a store.
fn at_front(rest: &[u8], least: u32) -> Result<Option<Entry>, Refusal>
    ensures { result ≡ front_of least rest.now }
{
    if rest.len() < 2 {
        return Ok(None);
    }
    let follow = two(rest, 0) as usize;
    if follow == 0 {
        return Ok(None);
    }
    if rest.len() - 2 < follow {
        return Err(Refusal::Unsound);
    }
    let size = 2 + follow;
    let edition = &rest[..size];
    if !accepted(edition) {
        return Err(Refusal::Unsound);
    }
    let number = two(edition, 3);
    if (number as u32) < least {
        return Err(Refusal::Unsound);
    }
    Ok(Some(Entry { size, number }))
}

// One edition more is passed.
fn passed(w: Walked, named: u32, entry: Entry) -> Walked
    requires { (w.end + entry.size < 2 ^ 64) × (w.count < 8) }
    ensures { result ≡ passed_by named w entry.size entry.number }
{
    let number = entry.number as u32;
    let here = (number == named).then_some(w.end);
    Walked {
        end: w.end + entry.size,
        least: number + 1,
        count: w.count + 1,
        start: w.start.or(here),
    }
}

// The whole store in one pass: where it ends, and where the edition that is named starts; or 11.
pub fn whole(store: &[u8], named: u32) -> Result<Walked, Refusal>
    ensures { result ≡ store_walk named store.now }
{
    let mut w = Walked {
        end: 0,
        least: 0,
        count: 0,
        start: None,
    };
    while let Some(entry) = at_front(&store[w.end..], w.least)? {
        if w.count == MOST_EDITIONS {
            return Err(Refusal::Unsound);
        }
        w = passed(w, named, entry);
    }
    Ok(w)
}
