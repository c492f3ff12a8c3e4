// The bits of a word, and the operations on words that go bit by bit.
ghost use Rattle.std.specs.Prelude.{◌≡◌, ◌%◌};
ghost use Rattle.word.specs.Bits.{bit_at, and_at, or_at, xor_at, not_at, rev_at, shl_at, shr_at, shra_at};

// Bit i; above bit 15 every bit is 0.
pub fn bit(w: u16, i: u16) -> bool
    ensures { result ≡ bit_at w i }
{
    i < 16 && (w >> i) % 2 == 1
}

pub fn and(a: u16, b: u16) -> u16
    ensures { result ≡ and_at 16 a b }
{
    a & b
}

pub fn or(a: u16, b: u16) -> u16
    ensures { result ≡ or_at 16 a b }
{
    a | b
}

pub fn xor(a: u16, b: u16) -> u16
    ensures { result ≡ xor_at 16 a b }
{
    a ^ b
}

pub fn not(a: u16) -> u16
    ensures { result ≡ not_at 16 a }
{
    !a
}

// Each line swaps neighbouring groups that are reversed by now, so that groups of twice their bits are.
pub fn rev(a: u16) -> u16
    ensures { result ≡ rev_at 16 a }
{
    let pairs = ((a & 0x5555) << 1) | ((a >> 1) & 0x5555);
    let fours = ((pairs & 0x3333) << 2) | ((pairs >> 2) & 0x3333);
    let bytes = ((fours & 0x0f0f) << 4) | ((fours >> 4) & 0x0f0f);
    ((bytes & 0x00ff) << 8) | ((bytes >> 8) & 0x00ff)
}

// A shift goes by the lowest four bits of its second word.
pub fn shl(a: u16, by: u16) -> u16
    ensures { result ≡ shl_at 16 a (by % 16) }
{
    ((u32::from(a) << (by % 16)) % 65536) as u16
}

pub fn shr(a: u16, by: u16) -> u16
    ensures { result ≡ shr_at 16 a (by % 16) }
{
    a >> (by % 16)
}

// A negative word goes by its complement, which has zeros to shift in.
pub fn shra(a: u16, by: u16) -> u16
    ensures { result ≡ shra_at 16 a (by % 16) }
{
    let n = by % 16;
    if a < 32768 {
        return a >> n;
    }
    !(!a >> n)
}
