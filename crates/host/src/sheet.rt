// A pay sheet from the plain numbers that a host in C gives, and what the check of one gives back.
ghost use Rattle.std.specs.Prelude.{◌≡◌};
ghost use Rattle.rules.specs.HostSheet.{held_sheet, host_checked};

use crate::{UNREFUSED, refused};
use rules::host::{HostChecked, HostSheet};
use rules::{Cents, Composite, Difference, Hundredths, Refusal, Sheet, SheetVerdict};

pub fn held_sheet(sheet: HostSheet) -> Sheet
    ensures { result ≡ held_sheet sheet }
{
    Sheet {
        vma: Hundredths(sheet.vma),
        voids: Hundredths(sheet.voids),
        density: Hundredths(sheet.density),
        composite: Composite(sheet.composite),
        verdict: SheetVerdict(sheet.verdict),
        pay: Cents(sheet.pay),
    }
}

pub fn checked(answer: Result<Option<Difference>, Refusal>) -> HostChecked
    ensures { result ≡ host_checked answer }
{
    match answer {
        Err(refusal) => HostChecked {
            refusal: refused(refusal),
            ..HostChecked::default()
        },
        Ok(None) => HostChecked {
            refusal: UNREFUSED,
            accepted: 1,
            ..HostChecked::default()
        },
        Ok(Some(difference)) => HostChecked {
            refusal: UNREFUSED,
            accepted: 0,
            entry: difference.entry,
            sheet: difference.first,
            ours: difference.second,
        },
    }
}
