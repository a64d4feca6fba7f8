// A lot as a host in C holds it, turned into a lot in memory and back.
ghost use Rattle.std.specs.Prelude.{◌≡◌};
ghost use Rattle.rules.specs.Entries.{read_said};
ghost use Rattle.rules.specs.Host.{held_limit, held_lot, limit_numbers, host_lot, host_read};

use crate::{UNREFUSED, limit, refused};
use lots::numbers;
use rules::host::{HostLimit, HostLot, HostRead};
use rules::{HeldLot, Limit, ReadAnswer, Thousandths};

fn held_limit(given: HostLimit) -> Limit
    ensures { result ≡ held_limit given }
{
    limit(given.number, given.presence)
}

// The lot in memory that a host's numbers stand for.
pub fn held_lot(lot: HostLot) -> HeldLot
    ensures { result ≡ held_lot lot }
{
    HeldLot {
        upper: held_limit(lot.upper),
        lower: held_limit(lot.lower),
        count: lot.count,
        readings: [
            Thousandths(lot.first),
            Thousandths(lot.second),
            Thousandths(lot.third),
            Thousandths(lot.fourth),
            Thousandths(lot.fifth),
            Thousandths(lot.sixth),
            Thousandths(lot.seventh),
            Thousandths(lot.eighth),
            Thousandths(lot.ninth),
            Thousandths(lot.tenth),
            Thousandths(lot.eleventh),
            Thousandths(lot.twelfth),
            Thousandths(lot.thirteenth),
            Thousandths(lot.fourteenth),
            Thousandths(lot.fifteenth),
            Thousandths(lot.sixteenth),
            Thousandths(lot.seventeenth),
        ],
    }
}

fn limit_numbers(limit: Limit) -> HostLimit
    ensures { result ≡ limit_numbers limit }
{
    match limit {
        None => HostLimit::default(),
        Some(z) => HostLimit {
            number: z.0,
            presence: 1,
        },
    }
}

fn host_lot(lot: HeldLot) -> HostLot
    ensures { result ≡ host_lot lot }
{
    let readings = numbers(lot.readings);
    HostLot {
        upper: limit_numbers(lot.upper),
        lower: limit_numbers(lot.lower),
        count: lot.count,
        first: readings[0],
        second: readings[1],
        third: readings[2],
        fourth: readings[3],
        fifth: readings[4],
        sixth: readings[5],
        seventh: readings[6],
        eighth: readings[7],
        ninth: readings[8],
        tenth: readings[9],
        eleventh: readings[10],
        twelfth: readings[11],
        thirteenth: readings[12],
        fourteenth: readings[13],
        fifteenth: readings[14],
        sixteenth: readings[15],
        seventeenth: readings[16],
    }
}

pub fn read(answer: ReadAnswer) -> HostRead
    ensures { result ≡ host_read (read_said answer) }
{
    HostRead {
        refusal: match answer.said {
            Err(refusal) => refused(refusal),
            Ok(()) => UNREFUSED,
        },
        lot: host_lot(answer.lot),
    }
}
