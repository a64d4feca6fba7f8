// The first 13 bytes of a record: length, version, flags, limits and n.
ghost use Rattle.std.specs.Prelude.{◌≡◌, [], ◌∷◌, ◌+◌, ◌≤◌, length, drop};
ghost use Rattle.rules.specs.Said.{ruled};
ghost use Rattle.rules.specs.Lot.{most};
ghost use Rattle.rules.specs.Record.{four, part, head_size, length_field, n_field, has_upper, has_lower, limit_of, lot_of_record, limit_bytes, head_of};
ghost use Rattle.rules.specs.Refusals.{size_case, version_case, flags_case, record_count_case};
ghost use Rattle.rules.specs.Meets.{head_meets};
ghost use Rattle.laws.specs.Totalled.{said_of};

use fields::number::{signed, spell, unsigned, word};
use rules::{Limit, LotLimits, Refusal, Thousandths};

pub const HEAD: usize = 13;

// Bit 0 of the flags: an upper limit is present.
const UPPER: u8 = 1;

// Bit 1: a lower limit is.
const LOWER: u8 = 2;

// A record that has its first 13 bytes.
#[derive(Clone, Copy)]
pub struct Head<'a> {
    bytes: &'a [u8],
    ghost whole: { head_size ≤ length bytes.now },
}

impl<'a> Head<'a> {
    // 1: fewer than 13 bytes, or the length isn't the slice's size less 2.
    #[tactic(auto, unfolding(rules::specs::Said::ruled))]
    fn sized(bytes: &'a [u8]) -> Result<Head<'a>, Refusal>
        ensures { said_of (λ head. head.bytes.now) result ≡ ruled (size_case bytes.now ∷ []) bytes.now }
    {
        if bytes.len() < HEAD {
            return Err(Refusal::Size);
        }
        let head = Head { bytes };
        if usize::from(head.length()) != bytes.len() - 2 {
            return Err(Refusal::Size);
        }
        Ok(head)
    }

    #[tactic(auto, using(laws::proofs::Spelled::two_read))]
    fn length(self) -> u16
        ensures { result ≡ length_field self.entry.bytes.now }
    {
        u16::from_be_bytes([self.bytes[0], self.bytes[1]])
    }

    // 2: version isn't 1.
    fn wrong_version(self) -> bool
        ensures { result ≡ (version_case self.entry.bytes.now).applies }
    {
        self.bytes[2] != 1
    }

    fn has_upper(self) -> bool
        ensures { result ≡ has_upper self.entry.bytes.now }
    {
        self.bytes[3] & UPPER != 0
    }

    fn has_lower(self) -> bool
        ensures { result ≡ has_lower self.entry.bytes.now }
    {
        self.bytes[3] & LOWER != 0
    }

    // 3: bits 2 to 7 of byte 3 not all 0, or an absent limit's bytes not zero. The bytes of a present limit are not looked at.
    fn wrong_flags(self) -> bool
        ensures { result ≡ (flags_case self.entry.bytes.now).applies }
    {
        self.bytes[3] & !(UPPER | LOWER) != 0
            || !self.has_upper() && word(self.bytes, 4) != 0
            || !self.has_lower() && word(self.bytes, 8) != 0
    }

    pub fn count(self) -> u32
        ensures { result ≡ n_field self.entry.bytes.now }
    {
        u32::from(self.bytes[12])
    }

    // 4: n not 2 to 17, or the length isn't 11 + 4n.
    fn wrong_count(self) -> bool
        ensures { result ≡ (record_count_case self.entry.bytes.now).applies }
    {
        let n = self.count();
        !refusals::allowed(n as usize) || u32::from(self.length()) != 11 + 4 * n
    }

    // What a record can meet before its lot: 1 to 4.
    #[tactic(auto, unfolding(rules::specs::Said::ruled))]
    pub fn of(bytes: &'a [u8]) -> Result<Head<'a>, Refusal>
        ensures { said_of (λ head. head.bytes.now) result ≡ ruled (head_meets bytes.now) bytes.now }
    {
        let head = Head::sized(bytes)?;
        if head.wrong_version() {
            return Err(Refusal::Version);
        }
        if head.wrong_flags() {
            return Err(Refusal::Flags);
        }
        if head.wrong_count() {
            return Err(Refusal::Count);
        }
        Ok(head)
    }

    fn limit(self, present: bool, at: usize) -> Limit
        requires { at + 4 ≤ head_size }
        ensures { result ≡ limit_of present (four (part at 4 self.entry.bytes.now)) }
    {
        present.then(|| Thousandths(signed(word(self.bytes, at))))
    }

    #[tactic(auto, unfolding(rules::specs::Record::lot_of_record))]
    pub fn limits(self) -> LotLimits
        ensures upper { result.upper ≡ (lot_of_record self.entry.bytes.now).upper }
        ensures lower { result.lower ≡ (lot_of_record self.entry.bytes.now).lower }
    {
        LotLimits {
            upper: self.limit(self.has_upper(), 4),
            lower: self.limit(self.has_lower(), 8),
        }
    }

    // The readings, and whatever follows them.
    pub fn readings(self) -> &'a [u8]
        ensures { result.now ≡ drop head_size self.entry.bytes.now }
    {
        &self.bytes[HEAD..]
    }
}

// The four bytes of a limit: all zero when it is absent.
#[tactic(auto, unfolding(rules::specs::Record::spell))]
fn limit_bytes(limit: Limit) -> [u8; 4]
    ensures { result ≡ limit_bytes limit }
{
    spell(limit.map_or(0, |z| unsigned(z.0)))
}

// The first 13 bytes of a record, by the lot's count and limits. Inner: the writer passes those of a lot that is not refused.
pub fn head_of(n: u32, limits: LotLimits) -> [u8; HEAD]
    requires { n ≤ most }
    ensures { result ≡ head_of n limits.upper limits.lower }
{
    let [high, low] = (11 + 4 * n as u16).to_be_bytes();
    let flags = limits.upper.map_or(0, |_| UPPER) | limits.lower.map_or(0, |_| LOWER);
    let [u0, u1, u2, u3] = limit_bytes(limits.upper);
    let [l0, l1, l2, l3] = limit_bytes(limits.lower);
    [high, low, 1, flags, u0, u1, u2, u3, l0, l1, l2, l3, n as u8]
}
