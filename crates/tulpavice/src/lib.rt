// Every entry, for a host in C; include/tulpavice.h declares them. Each is thin: the crates below work everything out.
#![tactic(auto)]

ghost use Rattle.std.specs.Prelude.{◌≡◌};
ghost use Rattle.rules.specs.Lot.{lot_in};
ghost use Rattle.rules.specs.Store.{table_in};
ghost use Rattle.rules.specs.Notebook.{mean_asked, deviation_asked, pwl_asked};
ghost use Rattle.rules.specs.Entries.{mean_says, deviation_says, evaluation_says, read_leaves, write_says, after_write, cut_says, after_cut, pay_says, mixture_says};
ghost use Rattle.rules.specs.Check.{check_says, compare_says, after_compare};
ghost use Rattle.rules.specs.Editions.{storing_says, after_storing, finding_says, listing_says, after_listing, default_says, after_default};
ghost use Rattle.rules.specs.Host.{host_refusal, host_mean, host_deviation, host_percentages, host_payment, host_mixture_limits, given_lot, given_row, held_lot, host_read, host_written, host_listed, host_place, host_row};
ghost use Rattle.rules.specs.HostSheet.{held_sheet, host_checked};

use host::limits;
use host::lot::held_lot;
use host::sheet::held_sheet;
use rules::host::{
    HostChecked, HostDeviation, HostListed, HostLot, HostMean, HostMixtureLimits, HostPayment,
    HostPercentages, HostPlace, HostRead, HostRefusal, HostRow, HostSheet, HostWritten,
};
use rules::{Cents, Characteristics, HundredthTons, Hundredths, Thousandths};

#[unsafe(no_mangle)]
pub extern "C" fn tulpavice_mean(readings: &[i32]) -> HostMean
    ensures { result ≡ host_mean (mean_says readings.now) }
{
    host::mean(readings::mean(readings))
}

#[unsafe(no_mangle)]
pub extern "C" fn tulpavice_deviation(readings: &[i32]) -> HostDeviation
    ensures { result ≡ host_deviation (deviation_says readings.now) }
{
    host::deviation(readings::deviation(readings))
}

#[unsafe(no_mangle)]
pub extern "C" fn tulpavice_table_106_1(number: u16, out: &mut [u8]) -> HostWritten
    ensures value { result ≡ host_written (default_says number out.old) }
    ensures out_after { out.new ≡ after_default number out.old }
{
    host::written(table::edition(number, out))
}

#[unsafe(no_mangle)]
pub extern "C" fn tulpavice_store(store: &mut [u8], edition: &[u8]) -> HostPlace
    ensures value { result ≡ host_place (storing_says store.old edition.now) }
    ensures store_after { store.new ≡ after_storing store.old edition.now }
{
    host::place(editions::store(store, edition))
}

#[unsafe(no_mangle)]
pub extern "C" fn tulpavice_find(store: &[u8], edition: u32) -> HostPlace
    ensures { result ≡ host_place (finding_says store.now edition) }
{
    host::place(editions::find(store, edition))
}

#[unsafe(no_mangle)]
pub extern "C" fn tulpavice_list(store: &[u8], out: &mut [u32]) -> HostListed
    ensures value { result ≡ host_listed (listing_says store.now out.old) }
    ensures out_after { out.new ≡ after_listing store.now out.old }
{
    host::listed(editions::list(store, out))
}

#[unsafe(no_mangle)]
pub extern "C" fn tulpavice_evaluate(
    store: &[u8],
    edition: u32,
    readings: &[i32],
    upper: i32,
    upper_present: u32,
    lower: i32,
    lower_present: u32,
) -> HostPercentages
    ensures { result ≡ host_percentages (evaluation_says (table_in store.now edition) (given_lot upper upper_present lower lower_present readings.now)) }
{
    host::percentages(quality::evaluate(
        store,
        edition,
        readings,
        limits(upper, upper_present, lower, lower_present),
    ))
}

#[unsafe(no_mangle)]
pub extern "C" fn tulpavice_evaluate_lot(
    store: &[u8],
    edition: u32,
    lot: HostLot,
) -> HostPercentages
    ensures { result ≡ host_percentages (evaluation_says (table_in store.now edition) (lot_in (held_lot lot))) }
{
    host::percentages(quality::evaluate_held(store, edition, held_lot(lot)))
}

#[unsafe(no_mangle)]
pub extern "C" fn tulpavice_pay(
    vma: i64,
    voids: i64,
    density: i64,
    price: i64,
    quantity: i64,
) -> HostPayment
    ensures { result ≡ host_payment (pay_says vma voids density price quantity) }
{
    host::payment(pay::payment(
        Characteristics {
            vma: Hundredths(vma),
            voids: Hundredths(voids),
            density: Hundredths(density),
        },
        Cents(price),
        HundredthTons(quantity),
    ))
}

#[unsafe(no_mangle)]
pub extern "C" fn tulpavice_mixture(mixture: i64, minimum: i32, target: i32) -> HostMixtureLimits
    ensures { result ≡ host_mixture_limits (mixture_says mixture minimum target) }
{
    host::mixture_limits(mixture::lookup(mixture, Thousandths(minimum), Thousandths(target)))
}

#[unsafe(no_mangle)]
pub extern "C" fn tulpavice_read(bytes: &[u8]) -> HostRead
    ensures { result ≡ host_read (read_leaves bytes.now) }
{
    host::lot::read(record::read(bytes))
}

#[unsafe(no_mangle)]
pub extern "C" fn tulpavice_write(lot: HostLot, out: &mut [u8]) -> HostWritten
    ensures value { result ≡ host_written (write_says (lot_in (held_lot lot)) out.old) }
    ensures out_after { out.new ≡ after_write (lot_in (held_lot lot)) out.old }
{
    host::written(record::write(held_lot(lot), out))
}

#[unsafe(no_mangle)]
pub extern "C" fn tulpavice_cut(sublots: usize, out: &mut [u32]) -> HostListed
    ensures value { result ≡ host_listed (cut_says sublots out.old) }
    ensures out_after { out.new ≡ after_cut sublots out.old }
{
    host::listed(job::cut(sublots, out))
}

#[unsafe(no_mangle)]
pub extern "C" fn tulpavice_check(
    store: &[u8],
    edition: u32,
    vma: HostLot,
    voids: HostLot,
    density: HostLot,
    price: i64,
    quantity: i64,
    sheet: HostSheet,
) -> HostChecked
    ensures { result ≡ host_checked (check_says (table_in store.now edition) (lot_in (held_lot vma)) (lot_in (held_lot voids)) (lot_in (held_lot density)) price quantity (held_sheet sheet)) }
{
    host::sheet::checked(sheets::check(
        store,
        edition,
        Characteristics {
            vma: held_lot(vma),
            voids: held_lot(voids),
            density: held_lot(density),
        },
        Cents(price),
        HundredthTons(quantity),
        held_sheet(sheet),
    ))
}

#[unsafe(no_mangle)]
pub extern "C" fn tulpavice_compare(
    first: HostSheet,
    second: HostSheet,
    out: &mut [i64],
) -> HostListed
    ensures value { result ≡ host_listed (compare_says (held_sheet first) (held_sheet second) out.old) }
    ensures out_after { out.new ≡ after_compare (held_sheet first) (held_sheet second) out.old }
{
    host::listed(sheets::compare(held_sheet(first), held_sheet(second), out))
}

#[unsafe(no_mangle)]
pub extern "C" fn tulpavice_row_refusal(
    store: &[u8],
    edition: u32,
    readings: &[u8],
    upper: i32,
    upper_present: u32,
    lower: i32,
    lower_present: u32,
) -> HostRefusal
    ensures { result ≡ host_refusal (given_row (table_in store.now edition) upper upper_present lower lower_present readings.now) }
{
    notebook::refusal(
        store,
        edition,
        readings,
        limits(upper, upper_present, lower, lower_present),
    )
}

#[unsafe(no_mangle)]
pub extern "C" fn tulpavice_row_mean(
    store: &[u8],
    edition: u32,
    readings: &[u8],
    upper: i32,
    upper_present: u32,
    lower: i32,
    lower_present: u32,
) -> f64
    ensures { result ≡ mean_asked (given_row (table_in store.now edition) upper upper_present lower lower_present readings.now) }
{
    notebook::mean(
        store,
        edition,
        readings,
        limits(upper, upper_present, lower, lower_present),
    )
}

#[unsafe(no_mangle)]
pub extern "C" fn tulpavice_row_deviation(
    store: &[u8],
    edition: u32,
    readings: &[u8],
    upper: i32,
    upper_present: u32,
    lower: i32,
    lower_present: u32,
) -> f64
    ensures { result ≡ deviation_asked (given_row (table_in store.now edition) upper upper_present lower lower_present readings.now) }
{
    notebook::deviation(
        store,
        edition,
        readings,
        limits(upper, upper_present, lower, lower_present),
    )
}

#[unsafe(no_mangle)]
pub extern "C" fn tulpavice_row_pwl(
    store: &[u8],
    edition: u32,
    readings: &[u8],
    upper: i32,
    upper_present: u32,
    lower: i32,
    lower_present: u32,
) -> f64
    ensures { result ≡ pwl_asked (given_row (table_in store.now edition) upper upper_present lower lower_present readings.now) }
{
    notebook::pwl(
        store,
        edition,
        readings,
        limits(upper, upper_present, lower, lower_present),
    )
}

#[unsafe(no_mangle)]
pub extern "C" fn tulpavice_row(
    store: &[u8],
    edition: u32,
    readings: &[u8],
    upper: i32,
    upper_present: u32,
    lower: i32,
    lower_present: u32,
) -> HostRow
    ensures { result ≡ host_row (given_row (table_in store.now edition) upper upper_present lower lower_present readings.now) }
{
    host::row(notebook::row(
        store,
        edition,
        readings,
        limits(upper, upper_present, lower, lower_present),
    ))
}
