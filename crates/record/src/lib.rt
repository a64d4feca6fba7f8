// The lot record, read and written.
#![tactic(auto)]

mod head;

ghost use Rattle.std.specs.Prelude.{◌≡◌, ◌++◌, ◌+◌, ◌*◌, ◌≤◌, Ok, length, drop};
ghost use Rattle.rules.specs.Lot.{most, lot_in};
ghost use Rattle.rules.specs.Record.{head_size, record_of};
ghost use Rattle.rules.specs.Entries.{read_said, read_says, held, read_leaves, write_says, after_write};
ghost use Rattle.laws.specs.Totalled.{said_of};

use fields::number::{spell, unsigned};
use fields::words::walk;
use head::{HEAD, Head, head_of};
use rules::{HeldLot, MOST, ReadAnswer, Refusal, Thousandths};

// The lot of a record, as it is left in memory; or the refusal.
fn lot(bytes: &[u8]) -> Result<HeldLot, Refusal>
    ensures { result ≡ said_of (λ lot. held (Ok lot)) (read_says bytes.now) }
{
    let head = Head::of(bytes)?;
    let n = head.count();
    let limits = head.limits();
    let readings = lots::met(walk(head.readings(), n as usize), limits)?.readings;
    Ok(HeldLot {
        upper: limits.upper,
        lower: limits.lower,
        count: n,
        readings,
    })
}

// The lot of a record, which must fill its slice; beside a refusal a blank one.
pub fn read(bytes: &[u8]) -> ReadAnswer
    ensures { read_said result ≡ read_leaves bytes.now }
{
    match lot(bytes) {
        Err(refusal) => ReadAnswer {
            said: Err(refusal),
            lot: HeldLot {
                upper: None,
                lower: None,
                count: 0,
                readings: [Thousandths(0); MOST],
            },
        },
        Ok(lot) => ReadAnswer { said: Ok(()), lot },
    }
}

// Writes the record of a lot that is not refused, from the start of a slice that has room for it.
fn put_record(lot: HeldLot, out: &mut [u8])
    requires few { lot.count ≤ most }
    requires room { head_size + 4 * lot.count ≤ length out.old }
    ensures { out.new ≡ record_of (lot_in lot) ++ drop (head_size + 4 * lot.count) out.old }
{
    out[..HEAD].copy_from_slice(&head_of(lot.count, lot.limits()));
    for (i, reading) in lot.readings[..lot.count as usize].iter().enumerate() {
        let at = HEAD + 4 * i;
        out[at..at + 4].copy_from_slice(&spell(unsigned(reading.0)));
    }
}

// The record of a lot in memory, from the start of a lent slice; what lies past it stays.
pub fn write(lot: HeldLot, out: &mut [u8]) -> Result<usize, Refusal>
    ensures result_value { result ≡ write_says (lot_in lot) out.old }
    ensures out_after { out.new ≡ after_write (lot_in lot) out.old }
{
    lots::held(lot)?;
    let size = HEAD + 4 * lot.count as usize;
    if out.len() < size {
        return Err(Refusal::Room);
    }
    put_record(lot, out);
    Ok(size)
}
