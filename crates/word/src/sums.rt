// Sums and differences modulo 65,536: pc, word addresses, ldis, ddsto, inc and dec all go through these two.
ghost use Rattle.std.specs.Prelude.{◌≡◌};
ghost use Rattle.word.specs.Word.{plus_at, minus_at};

pub fn plus(a: u16, b: u16) -> u16
    ensures { result ≡ plus_at 16 a b }
{
    a.wrapping_add(b)
}

pub fn minus(a: u16, b: u16) -> u16
    ensures { result ≡ minus_at 16 a b }
{
    a.wrapping_sub(b)
}
