// A word's two bytes, and the word of two bytes.
ghost use Rattle.std.specs.Prelude.{◌≡◌};
ghost use Rattle.word.specs.Word.{join_at, low_at, high_at};

pub fn low(w: u16) -> u8
    ensures { result ≡ low_at 8 w }
{
    w.to_le_bytes()[0]
}

pub fn high(w: u16) -> u8
    ensures { result ≡ high_at 8 w }
{
    w.to_le_bytes()[1]
}

pub fn join(low: u8, high: u8) -> u16
    ensures { result ≡ join_at 8 low high }
{
    u16::from_le_bytes([low, high])
}
