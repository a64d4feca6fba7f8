// Big-endian numbers of four bytes: one reader and one writer for every such number of a record and of readings that come as bytes.
ghost use Rattle.std.specs.Prelude.{◌≡◌, [], ◌∷◌, ◌+◌, ◌≤◌, length};
ghost use Rattle.std.specs.Int.{w32};
ghost use Rattle.std.proofs.Common.{to_z, of_z};
ghost use Rattle.rules.specs.Record.{spelled, spell, part};

// The number that four bytes spell.
#[tactic(auto, using(laws::proofs::Spelled::from_be_bytes_four))]
pub fn spelled(a: u8, b: u8, c: u8, d: u8) -> u32
    ensures { result ≡ spelled 0 (a ∷ b ∷ c ∷ d ∷ []) }
{
    u32::from_be_bytes([a, b, c, d])
}

// A number in four bytes.
#[tactic(auto, using(laws::proofs::Spelled::to_be_bytes_four))]
pub fn spell(x: u32) -> [u8; 4]
    ensures { result ≡ spell 4 x }
{
    x.to_be_bytes()
}

// The signed number of the same 32 bits: two's complement.
pub fn signed(x: u32) -> i32
    ensures { result ≡ to_z w32 x }
{
    x.cast_signed()
}

// The way back: the 32 bits of a signed number, as an unsigned one.
pub fn unsigned(z: i32) -> u32
    ensures { result ≡ of_z w32 z }
{
    z.cast_unsigned()
}

// The number that the four bytes from a place on spell. Inner: a record's reader and the walk pass places within the bytes.
pub fn word(bytes: &[u8], at: usize) -> u32
    requires { at + 4 ≤ length bytes.now }
    ensures { result ≡ spelled 0 (part at 4 bytes.now) }
{
    spelled(bytes[at], bytes[at + 1], bytes[at + 2], bytes[at + 3])
}
