// Percent within limits: direct evaluation, of a lent list of readings and of a lot in memory, by the edition that is named in a lent store.
#![tactic(auto)]

mod row;
mod side;

ghost use Rattle.std.specs.Prelude.{◌≡◌, false, ◌+◌, ◌≤◌, length, drop};
ghost use Rattle.rules.specs.Lot.{lot_of, lot_in};
ghost use Rattle.rules.specs.Table.{column_in};
ghost use Rattle.rules.specs.Edition.{column_size};
ghost use Rattle.rules.specs.Store.{table_in};
ghost use Rattle.rules.specs.Percent.{nearest, within};
ghost use Rattle.rules.specs.Refusals.{out_of_range};
ghost use Rattle.rules.specs.Entries.{percentages_of, evaluation_says};
ghost use Rattle.laws.specs.Column.{Column};
ghost use Rattle.laws.specs.ColumnIn.{ColumnIn};
ghost use Rattle.laws.specs.StoreWalk.{NamedIn, ColumnPlaced};
ghost use Rattle.laws.specs.Bounds.{Bounded};
ghost use Rattle.laws.specs.InPercent.{InPercent};
ghost use Rattle.laws.specs.Totalled.{with_column_say, columned_said};

use editions::named;
use readings::spread;
use rules::{
    Columned, HUNDRED_PERCENT, HeldLot, Hundredths, LotLimits, Percentages, Refusal, Totals, Tried,
};
use side::Sides;

// PWL = upper + lower − 10,000
fn within(upper: Hundredths, lower: Hundredths) -> Hundredths
    requires { InPercent upper.0 × InPercent lower.0 }
    ensures { result.0 ≡ within upper.0 lower.0 }
{
    Hundredths(upper.0 + lower.0 - HUNDRED_PERCENT)
}

// Both sides and PWL, by a column, and the rows tried for each side.
#[tactic(auto, unfolding(rules::specs::Entries::percentages_of))]
fn by_column(column: &[u8], totals: Totals, limits: LotLimits) -> Percentages
    requires { ColumnIn column.now × Bounded totals × (out_of_range limits.upper ≡ false) × (out_of_range limits.lower ≡ false) }
    ensures { result ≡ percentages_of nearest (column_in column.now) totals limits.upper limits.lower }
{
    let sides = Sides {
        column,
        totals,
        v: spread(totals),
    };
    let upper = sides.upper(limits.upper);
    let lower = sides.lower(limits.lower);
    Percentages {
        upper: upper.found,
        lower: lower.found,
        pwl: within(upper.found, lower.found),
        tried: Tried {
            upper: upper.tried,
            lower: lower.tried,
        },
    }
}

// What is said of a lot where its percentages are asked for, and where its column stands: 11 where the lent bytes are no store, before all that is said
// of the lot; and after it 13, where the store has no edition of that number, or 10, where the edition has no column for the count.
// Inner: the entries pass what the same store has of the edition that is named.
pub fn with_column(
    store: &[u8],
    edition: Result<Option<usize>, Refusal>,
    said: Result<Totals, Refusal>,
) -> Result<Columned, Refusal>
    requires { NamedIn store.now edition }
    ensures { (columned_said result ≡ with_column_say edition store.now said) × ColumnPlaced store.now edition result }
{
    let found = edition?;
    let totals = said?;
    let start = found.ok_or(Refusal::NoEdition)?;
    let n = totals.n as usize;
    if !editions::has_column(store, start, n) {
        return Err(Refusal::NoColumn);
    }
    Ok(Columned {
        totals,
        column: editions::column(store, start, n),
    })
}

// Both sides and PWL, and the rows tried for each side, by the column where it stands in the store.
// Inner: the entries pass totals and limits of a lot that is not refused, beside the place of the column for its count.
pub fn percentages(store: &[u8], lot: Columned, limits: LotLimits) -> Percentages
    requires { Bounded lot.totals × (out_of_range limits.upper ≡ false) × (out_of_range limits.lower ≡ false) × (lot.column + column_size ≤ length store.now) × Column (column_in (drop lot.column store.now)) }
    ensures { result ≡ percentages_of nearest (column_in (drop lot.column store.now)) lot.totals limits.upper limits.lower }
{
    by_column(&store[lot.column..lot.column + 108], lot.totals, limits)
}

// Direct evaluation, of a lent list of readings.
pub fn evaluate(
    store: &[u8],
    edition: u32,
    readings: &[i32],
    limits: LotLimits,
) -> Result<Percentages, Refusal>
    ensures { result ≡ evaluation_says (table_in store.now edition) (lot_of limits.upper limits.lower readings.now) }
{
    let lot = with_column(store, named(store, edition), lots::lent(readings, limits))?;
    Ok(percentages(store, lot, limits))
}

// Direct evaluation, of a lot in memory.
pub fn evaluate_held(store: &[u8], edition: u32, lot: HeldLot) -> Result<Percentages, Refusal>
    ensures { result ≡ evaluation_says (table_in store.now edition) (lot_in lot) }
{
    let limits = lot.limits();
    let lot = with_column(store, named(store, edition), lots::held(lot))?;
    Ok(percentages(store, lot, limits))
}
