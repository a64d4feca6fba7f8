// The sheet that the rules give for three lots, a price and a quantity.
ghost use Rattle.std.specs.Prelude.{◌≡◌};
ghost use Rattle.rules.specs.Said.{ruled};
ghost use Rattle.rules.specs.Lot.{lot_in};
ghost use Rattle.rules.specs.Pay.{payment};
ghost use Rattle.rules.specs.Sheet.{sheet_of};
ghost use Rattle.rules.specs.Meets.{pay_meets};
ghost use Rattle.rules.specs.Check.{pwl_says, ours_says};
ghost use Rattle.laws.specs.StoreWalk.{NamedIn, table_at};

use pay::payment;
use quality::{percentages, with_column};
use rules::{
    Cents, Characteristics, HeldLot, HundredthTons, Hundredths, Refusal, Sheet, SheetVerdict,
};

// The PWL of a lot in memory, or the refusal that its evaluation meets: by evaluation's own steps, since a second caller of `evaluate_held` would slow the
// first (docs/DECISIONS.md).
fn pwl(
    store: &[u8],
    edition: Result<Option<usize>, Refusal>,
    lot: HeldLot,
) -> Result<Hundredths, Refusal>
    requires { NamedIn store.now edition }
    ensures { result ≡ pwl_says (table_at edition store.now) (lot_in lot) }
{
    let columned = with_column(store, edition, lots::held(lot))?;
    Ok(percentages(store, columned, lot.limits()).pwl)
}

// The sheet of three PWLs, a price and a quantity, or the refusal that pay meets.
#[tactic(auto, using(laws::proofs::OurSheet::sheet_by_pay))]
fn paid(
    pwls: Characteristics<Hundredths>,
    price: Cents,
    quantity: HundredthTons,
) -> Result<Sheet, Refusal>
    ensures { result ≡ ruled (pay_meets pwls.vma.0 pwls.voids.0 pwls.density.0 price.0 quantity.0) (sheet_of pwls.vma.0 pwls.voids.0 pwls.density.0 (payment pwls.vma.0 pwls.voids.0 pwls.density.0 price.0 quantity.0)) }
{
    let paid = payment(pwls, price, quantity)?;
    Ok(Sheet {
        vma: pwls.vma,
        voids: pwls.voids,
        density: pwls.density,
        composite: paid.composite,
        verdict: SheetVerdict(paid.lot as i64),
        pay: paid.pay,
    })
}

// Our own sheet, or the first refusal that the lots meet, in their order, and then price and quantity. All lots are looked up by one edition.
// Inner: `check` passes what the same store has of the edition that is named.
#[tactic(auto, using(laws::proofs::OurSheet::ours_by_lots))]
pub fn ours(
    store: &[u8],
    edition: Result<Option<usize>, Refusal>,
    lots: Characteristics<HeldLot>,
    price: Cents,
    quantity: HundredthTons,
) -> Result<Sheet, Refusal>
    requires { NamedIn store.now edition }
    ensures { result ≡ ours_says (table_at edition store.now) (lot_in lots.vma) (lot_in lots.voids) (lot_in lots.density) price.0 quantity.0 }
{
    let pwls = Characteristics {
        vma: pwl(store, edition, lots.vma)?,
        voids: pwl(store, edition, lots.voids)?,
        density: pwl(store, edition, lots.density)?,
    };
    paid(pwls, price, quantity)
}
