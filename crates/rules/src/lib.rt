// The words of documents 01 and 02: units, limits, refusals, lots and answers. What is right of them is in specs/; the crates above compute it.
#![tactic(auto)]

pub mod host;
pub mod store;

ghost use Rattle.std.specs.Prelude.{◌≡◌};
ghost use Rattle.rules.specs.Refusals.{number_of};

// The most readings that a lot can hold.
pub const MOST: usize = 17;

// 100 percent, in hundredths.
pub const HUNDRED_PERCENT: i64 = 10000;

// Thousandths, whole: a reading, a limit, a sum of readings, a deviation.
#[derive(Clone, Copy)]
pub struct Thousandths(pub i32);

// A percentage in hundredths.
#[derive(Clone, Copy)]
pub struct Hundredths(pub i64);

// The pay factor of one characteristic, in 200ths of a percent.
#[derive(Clone, Copy)]
pub struct TwoHundredths(pub i64);

// W, the weighted sum of three factors: in 2,000ths of a percent, since the weights are tenths.
#[derive(Clone, Copy)]
pub struct Weighted(pub i64);

// A composite pay factor, in thousandths.
#[derive(Clone, Copy)]
pub struct Composite(pub i64);

// A sum of money.
#[derive(Clone, Copy)]
pub struct Cents(pub i64);

// A quantity, in hundredths of a ton.
#[derive(Clone, Copy)]
pub struct HundredthTons(pub i64);

// A verdict as a pay sheet has it: 0 accepted, 1 rejected. Any number may stand in it.
#[derive(Clone, Copy)]
pub struct SheetVerdict(pub i64);

// An upper or a lower limit, which may be absent.
pub type Limit = Option<Thousandths>;

// Why an entry does not answer. The numbers are document 01's and document 02's.
#[derive(Clone, Copy)]
pub enum Refusal {
    // too few bytes, or the length does not fit the slice
    Size = 1,
    // another version
    Version = 2,
    // unknown flags, or bytes that are not zero for an absent limit
    Flags = 3,
    // too few or too many readings, or a length that does not fit their number
    Count = 4,
    // a limit or a reading out of range
    Range = 5,
    // no limit at all
    Unlimited = 6,
    // the lower limit above the upper
    Crossed = 7,
    // no room for what is to be written, or a ninth edition
    Room = 8,
    // a number that pay, the mixture lookup, the cut of a job or a pay sheet does not take
    Number = 9,
    // no column in the edition for so many readings
    NoColumn = 10,
    // lent bytes that are no store of editions, or an edition that is not accepted
    Unsound = 11,
    // an edition whose number is not above the last one stored
    NotRising = 12,
    // no edition of that number in the store
    NoEdition = 13,
}

impl Refusal {
    pub fn number(self) -> u32
        ensures { result ≡ number_of self }
    {
        self as u32
    }
}

// The two limits of a lot.
#[derive(Clone, Copy)]
pub struct LotLimits {
    pub upper: Limit,
    pub lower: Limit,
}

// A lot in memory: its readings are the first `count`. Any numbers may stand in it; an entry that takes one refuses what is no lot.
#[derive(Clone, Copy)]
pub struct HeldLot {
    pub upper: Limit,
    pub lower: Limit,
    pub count: u32,
    pub readings: [Thousandths; MOST],
}

impl HeldLot {
    pub fn limits(self) -> LotLimits
        ensures { result ≡ record { upper = self.upper; lower = self.lower } }
    {
        LotLimits {
            upper: self.upper,
            lower: self.lower,
        }
    }
}

// What a read answers, and the lot in memory that is left beside it, which is blank where the record is refused.
#[derive(Clone, Copy)]
pub struct ReadAnswer {
    pub said: Result<(), Refusal>,
    pub lot: HeldLot,
}

// n, T and Z of some readings: their count, their sum and the sum of their squares.
#[derive(Clone, Copy)]
pub struct Totals {
    pub n: u32,
    pub t: i64,
    pub z: i64,
}

// The totals of a lot, and the place in a store at which the column for its count starts.
#[derive(Clone, Copy)]
pub struct Columned {
    pub totals: Totals,
    pub column: usize,
}

// The mean, unrounded: the sum of the readings and their count.
#[derive(Clone, Copy)]
pub struct Mean {
    pub total: Thousandths,
    pub count: u32,
}

// How many rows of the table were tried for each side.
#[derive(Clone, Copy)]
pub struct Tried {
    pub upper: u32,
    pub lower: u32,
}

// The percentage of each side, percent within limits, and the rows tried.
#[derive(Clone, Copy)]
pub struct Percentages {
    pub upper: Hundredths,
    pub lower: Hundredths,
    pub pwl: Hundredths,
    pub tried: Tried,
}

// The numbers are those of a pay sheet's verdict.
#[derive(Clone, Copy)]
pub enum Verdict {
    Accepted = 0,
    Rejected = 1,
}

// The composite, the verdict on each characteristic and on the lot, and the pay, which is given whatever the verdict.
#[derive(Clone, Copy)]
pub struct Payment {
    pub composite: Composite,
    pub vma: Verdict,
    pub voids: Verdict,
    pub density: Verdict,
    pub lot: Verdict,
    pub pay: Cents,
}

// A lower and an upper number: limits, or offsets from which they are worked out.
#[derive(Clone, Copy)]
pub struct Pair<T> {
    pub lower: T,
    pub upper: T,
}

// One thing of each of the three characteristics that are paid for: its lot, its PWL, its limits.
#[derive(Clone, Copy)]
pub struct Characteristics<T> {
    pub vma: T,
    pub voids: T,
    pub density: T,
}

// The notebook's row of a lot that is not refused.
#[derive(Clone, Copy)]
pub struct Row {
    pub mean: f64,
    pub deviation: f64,
    pub pwl: f64,
}

// A pay sheet, entries 0 to 5. Any numbers may stand in it; `check` and `compare` refuse what is no sheet.
#[derive(Clone, Copy)]
pub struct Sheet {
    pub vma: Hundredths,
    pub voids: Hundredths,
    pub density: Hundredths,
    pub composite: Composite,
    pub verdict: SheetVerdict,
    pub pay: Cents,
}

// An entry in which two sheets differ: which one it is, and the number that each has there.
#[derive(Clone, Copy)]
pub struct Difference {
    pub entry: u32,
    pub first: i64,
    pub second: i64,
}
