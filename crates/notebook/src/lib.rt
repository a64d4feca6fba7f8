// The notebook's row: mean, deviation and PWL as doubles, of readings that come as bytes, by the edition that is named in a lent store.
#![tactic(auto)]

ghost use Rattle.std.specs.Prelude.{◌≡◌, false, ◌+◌, ◌*◌, ◌≤◌, pos, length, drop};
ghost use Rattle.rules.specs.Table.{column_in};
ghost use Rattle.rules.specs.Edition.{column_size};
ghost use Rattle.rules.specs.Store.{table_in};
ghost use Rattle.rules.specs.Percent.{nearest, spread};
ghost use Rattle.rules.specs.Deviation.{deviation};
ghost use Rattle.rules.specs.Refusals.{out_of_range, size_fits};
ghost use Rattle.rules.specs.Meets.{bytes_meet};
ghost use Rattle.rules.specs.Notebook.{lent_lot, over, mean_asked, deviation_asked, pwl_asked};
ghost use Rattle.rules.specs.Entries.{percentages_of, row_says};
ghost use Rattle.rules.specs.Host.{host_refusal};
ghost use Rattle.laws.specs.Column.{Column};
ghost use Rattle.laws.specs.Bounds.{Bounded};
ghost use Rattle.laws.specs.StoreWalk.{named_says, ColumnPlaced};
ghost use Rattle.laws.specs.Totalled.{columned_said, totalled, row_by_table};

use editions::named;
use fields::words::walk;
use host::{UNREFUSED, refused};
use lots::met;
use quality::{percentages, with_column};
use readings::{rounded, spread};
use refusals::allowed;
use rules::host::HostRefusal;
use rules::{Columned, LotLimits, Refusal, Row, Totals};

// Each double of a refused lot.
const REFUSED: f64 = 0.0;

// Whether a size is 4n bytes for an allowed n.
fn size_fits(size: usize) -> bool
    ensures { result ≡ size_fits size }
{
    (size % 4 == 0) & allowed(size / 4)
}

// The totals of a lot whose readings come as bytes, or the refusal that the lot meets: 4 to 7.
fn totals(bytes: &[u8], limits: LotLimits) -> Result<Totals, Refusal>
    ensures { result ≡ totalled (bytes_meet bytes.now) (lent_lot limits.upper limits.lower bytes.now) }
{
    if !size_fits(bytes.len()) {
        return Err(Refusal::Count);
    }
    let walked = met(walk(bytes, bytes.len() / 4), limits)?;
    Ok(walked.totals)
}

// These with the place of the column for their count, or the refusal that the row meets: 11, 4 to 7, 13 or 10.
fn lent(store: &[u8], edition: u32, bytes: &[u8], limits: LotLimits) -> Result<Columned, Refusal>
    ensures { (columned_said result ≡ totalled (row_by_table (table_in store.now edition) bytes.now) (lent_lot limits.upper limits.lower bytes.now)) × ColumnPlaced store.now (named_says edition store.now) result }
{
    with_column(store, named(store, edition), totals(bytes, limits))
}

// T over 1000·n: both are exact as doubles, so the quotient is rounded once.
fn mean_of(a: Totals) -> f64
    requires { Bounded a }
    ensures { result ≡ over a.t (1000 * a.n) }
{
    a.t as i32 as f64 / (1000 * a.n) as f64
}

fn deviation_of(a: Totals) -> f64
    requires { Bounded a }
    ensures { result ≡ over (pos (deviation a.n (spread a))) 1000 }
{
    rounded(a.n as u64, spread(a)) as i32 as f64 / 1000 as f64
}

fn pwl_of(store: &[u8], lot: Columned, limits: LotLimits) -> f64
    requires { Bounded lot.totals × (out_of_range limits.upper ≡ false) × (out_of_range limits.lower ≡ false) × (lot.column + column_size ≤ length store.now) × Column (column_in (drop lot.column store.now)) }
    ensures { result ≡ over (percentages_of nearest (column_in (drop lot.column store.now)) lot.totals limits.upper limits.lower).pwl.0 100 }
{
    let p = percentages(store, lot, limits);
    p.pwl.0 as i32 as f64 / 100 as f64
}

// The row of a lot, or the refusal that it meets.
pub fn row(store: &[u8], edition: u32, bytes: &[u8], limits: LotLimits) -> Result<Row, Refusal>
    ensures { result ≡ row_says (table_in store.now edition) limits.upper limits.lower bytes.now }
{
    let lot = lent(store, edition, bytes, limits)?;
    Ok(Row {
        mean: mean_of(lot.totals),
        deviation: deviation_of(lot.totals),
        pwl: pwl_of(store, lot, limits),
    })
}

// The refusal alone and, below, each double alone: the search for the deviation runs only where the deviation is asked for.
pub fn refusal(store: &[u8], edition: u32, bytes: &[u8], limits: LotLimits) -> HostRefusal
    ensures { result ≡ host_refusal (row_says (table_in store.now edition) limits.upper limits.lower bytes.now) }
{
    match lent(store, edition, bytes, limits) {
        Err(refusal) => refused(refusal),
        Ok(_) => UNREFUSED,
    }
}

pub fn mean(store: &[u8], edition: u32, bytes: &[u8], limits: LotLimits) -> f64
    ensures { result ≡ mean_asked (row_says (table_in store.now edition) limits.upper limits.lower bytes.now) }
{
    let Ok(lot) = lent(store, edition, bytes, limits) else {
        return REFUSED;
    };
    mean_of(lot.totals)
}

pub fn deviation(store: &[u8], edition: u32, bytes: &[u8], limits: LotLimits) -> f64
    ensures { result ≡ deviation_asked (row_says (table_in store.now edition) limits.upper limits.lower bytes.now) }
{
    let Ok(lot) = lent(store, edition, bytes, limits) else {
        return REFUSED;
    };
    deviation_of(lot.totals)
}

pub fn pwl(store: &[u8], edition: u32, bytes: &[u8], limits: LotLimits) -> f64
    ensures { result ≡ pwl_asked (row_says (table_in store.now edition) limits.upper limits.lower bytes.now) }
{
    let Ok(lot) = lent(store, edition, bytes, limits) else {
        return REFUSED;
    };
    pwl_of(store, lot, limits)
}
