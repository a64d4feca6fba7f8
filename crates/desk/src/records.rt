// The record of D5, written and read. A write is shown by its answer and then by all the lent bytes, each of which was EE before; a refusal is
// shown by its number.
use crate::show::{Show, Shown};
use record::{read, write};
use rules::{HeldLot, MOST, Refusal, Thousandths};
use std::{fmt, io};

// How many bytes the record of D5 has, and these as document 01 prints them.
const SIZE: usize = 29;

const D5: [u8; SIZE] =
    *b"\x00\x1B\x01\x01\x00\x00\x00\x15\x00\x00\x00\x00\x04\x00\x00\x00\x00\x00\x00\x00\x00\x00\x00\x00\x00\x00\x00\x00\x50";

// How many bytes were written.
impl Show for usize {
    fn show<W: fmt::Write>(&self, f: &mut fmt::Formatter<W>) -> fmt::Result {
        write!(f, "{self}")
    }
}

// Writes a lot, if it was not refused, into three bytes more than the record of D5 has.
fn written(rt: &impl Print, lot: Result<HeldLot, Refusal>) -> io::Result<()> {
    let mut out = [0xEE; SIZE + 3];
    let size = lot.and_then(|lot| write(lot, &mut out));
    print!(rt; "{};", Shown(size))?;
    for b in out {
        print!(rt; " {b:02X}")?;
    }
    println!(rt)
}

pub(crate) fn both_ways(rt: &impl Print) -> io::Result<()> {
    let mut readings = [Thousandths(0); MOST];
    readings[3] = Thousandths(80);
    let lot = HeldLot {
        upper: Some(Thousandths(21)),
        lower: None,
        count: 4,
        readings,
    };
    print!(rt; "\nRecord\nD5, written: ")?;
    written(rt, Ok(lot))?;
    print!(rt; "D5, as it is printed, read and written again: ")?;
    let answer = read(&D5);
    written(rt, answer.said.map(|()| answer.lot))
}
