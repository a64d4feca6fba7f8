// Pay sheets: a contractor's beside the one that the rules give, and two beside each other.
#![tactic(auto)]

mod entries;
mod ours;

ghost use Rattle.std.specs.Prelude.{◌≡◌};
ghost use Rattle.rules.specs.Lot.{lot_in};
ghost use Rattle.rules.specs.Store.{table_in};
ghost use Rattle.rules.specs.Refusals.{sheet_case};
ghost use Rattle.rules.specs.Check.{check_says, compare_says, after_compare};

use editions::named;
use entries::{count, first_of, list, numbers};
use ours::ours;
use refusals::outside;
use rules::{Cents, Characteristics, Difference, HeldLot, HundredthTons, Refusal, Sheet};

// The greatest number of an entry.
const GREATEST: i64 = 1000000000000000;

// 9: an entry below 0 or above the greatest, or a verdict that is neither 0 nor 1.
fn unfit(sheet: Sheet) -> bool
    ensures { result ≡ (sheet_case sheet).applies }
{
    outside(GREATEST, sheet.vma.0)
        | outside(GREATEST, sheet.voids.0)
        | outside(GREATEST, sheet.density.0)
        | outside(GREATEST, sheet.composite.0)
        | outside(1, sheet.verdict.0)
        | outside(GREATEST, sheet.pay.0)
}

// Accepts the sheet that the rules give for three lots, by one edition, a price and a quantity, and no other; or names the first entry in which the two
// differ, with the sheet's number and ours.
#[tactic(auto, using(laws::proofs::OurSheet::check_by_ours, laws::proofs::Columned::found_in_store), unfolding(rules::specs::Said::ruled, rules::specs::Sheet::differences))]
pub fn check(
    store: &[u8],
    edition: u32,
    lots: Characteristics<HeldLot>,
    price: Cents,
    quantity: HundredthTons,
    sheet: Sheet,
) -> Result<Option<Difference>, Refusal>
    ensures { result ≡ check_says (table_in store.now edition) (lot_in lots.vma) (lot_in lots.voids) (lot_in lots.density) price.0 quantity.0 sheet }
{
    let ours = ours(store, named(store, edition), lots, price, quantity)?;
    if unfit(sheet) {
        return Err(Refusal::Number);
    }
    Ok(first_of(numbers(sheet), numbers(ours)))
}

// Every entry in which two sheets differ, from the start of a lent list, two numbers to each: which entry it is, and the first sheet's number less the
// second's. What lies past them stays.
#[tactic(auto, using(laws::proofs::CompareAnswers::refused_comparison_keeps, laws::proofs::CompareAnswers::first_sheet_is_refused, laws::proofs::CompareAnswers::second_sheet_is_refused, laws::proofs::CompareAnswers::short_comparison_is_refused, laws::proofs::CompareAnswers::comparison_is_answered, laws::proofs::SheetTaken::sheet_is_taken, laws::proofs::SheetTaken::taken_is_entered, laws::proofs::Differences::no_more_differences), unfolding(rules::specs::Sheet::differences))]
pub fn compare(first: Sheet, second: Sheet, out: &mut [i64]) -> Result<usize, Refusal>
    ensures result_value { result ≡ compare_says first second out.old }
    ensures out_after { out.new ≡ after_compare first second out.old }
{
    if unfit(first) || unfit(second) {
        return Err(Refusal::Number);
    }
    let a = numbers(first);
    let b = numbers(second);
    let items = count(a, b);
    if out.len() < 2 * items {
        return Err(Refusal::Room);
    }
    list(a, b, out);
    Ok(items)
}
