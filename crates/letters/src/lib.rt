// Letters, digits and blanks.
#![tactic(auto)]

ghost use Rattle.std.specs.Prelude.{◌≡◌, ◌≤◌, IfSome};
ghost use Rattle.letters.specs.Letters.{lower as lower_of, blank, wordy, hex_value};

// A letter as a small one; any other byte as it is.
#[tactic(auto, unfolding(crate::specs::Letters::lower))]
pub fn lower(b: u8) -> u8
    ensures { result ≡ lower_of b }
{
    match b {
        b'A'..=b'Z' => b + 32,
        _ => b,
    }
}

#[tactic(auto, unfolding(crate::specs::Letters::blank))]
pub fn is_blank(b: u8) -> bool
    ensures { result ≡ blank b }
{
    matches!(b, b'\t' | b' ')
}

// Small letters first and by a test of their own, since most bytes of words are: of one row of ranges the compiler asks the others first.
#[tactic(auto, unfolding(crate::specs::Letters::wordy))]
pub fn is_wordy(b: u8) -> bool
    ensures { result ≡ wordy b }
{
    matches!(b, b'a'..=b'z') || matches!(b, b'A'..=b'Z' | b'0'..=b'9' | b'_')
}

// The value of a hexadecimal digit of either case; None where it is none.
#[tactic(auto, unfolding(crate::specs::Letters::hex_value))]
pub fn hex_value(b: u8) -> Option<u8>
    ensures value { result ≡ hex_value b }
    ensures upper_bound { IfSome result (λ d. d ≤ 15) }
{
    match b {
        b'0'..=b'9' => Some(b - b'0'),
        b'A'..=b'F' => Some(b - b'A' + 10),
        b'a'..=b'f' => Some(b - b'a' + 10),
        _ => None,
    }
}
