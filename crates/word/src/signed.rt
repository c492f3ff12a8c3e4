// Words read as signed numbers: their order, and whether a sum or a difference is one of 16 bits.
ghost use Rattle.std.specs.Prelude.{◌≡◌, ◌+◌, ◌%◌, true, if◌then◌else◌, nat_le, nat_lt};
ghost use Rattle.word.specs.Signed.{sum_overflows, difference_overflows, signed_at_most, signed_below};

// The signed number, plus 32,768: it keeps the order and has no sign.
fn raised(a: u16) -> u32
    ensures { result ≡ (a + 32768) % 65536 }
{
    (u32::from(a) + 32768) % 65536
}

pub fn at_most(a: u16, b: u16) -> bool
    ensures { result ≡ signed_at_most 16 a b }
{
    raised(a) <= raised(b)
}

pub fn below(a: u16, b: u16) -> bool
    ensures { result ≡ signed_below 16 a b }
{
    raised(a) < raised(b)
}

// Of a number that is raised by 65,536: below -32,768 or above 32,767.
fn outside(n: u32) -> bool
    ensures { result ≡ (if nat_lt n 32768 then true else nat_le 98304 n) }
{
    n < 32768 || 98304 <= n
}

pub fn sum_overflows(a: u16, b: u16) -> bool
    ensures { result ≡ sum_overflows 16 a b }
{
    outside(raised(a) + raised(b))
}

pub fn difference_overflows(a: u16, b: u16) -> bool
    ensures { result ≡ difference_overflows 16 a b }
{
    outside(raised(a) + (65536 - raised(b)))
}
