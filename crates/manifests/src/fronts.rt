// What stands in front of a line: digits, and a tab after them.
ghost use Rattle.std.specs.Prelude.{◌≡◌};
ghost use Rattle.manifests.specs.Code.{read_digits, front_of};

// A number has no more digits.
const MOST_DIGITS: usize = 9;

// The number that digits make, and how many they are.
#[derive(Clone, Copy)]
pub(crate) struct Digits {
    pub value: u32,
    pub count: usize,
}

// The number in front of a line's first tab, and how many bytes of the line are read for it.
#[derive(Clone, Copy)]
pub(crate) struct Front {
    pub number: Option<u32>,
    pub read: usize,
}

// The digits in front, as many as a number has at most.
pub(crate) fn read_digits(s: &[u8]) -> Digits
    ensures { result ≡ read_digits s.now }
{
    let mut value: u32 = 0;
    for (count, &b) in s.iter().enumerate() {
        if count == MOST_DIGITS || !b.is_ascii_digit() {
            return Digits { value, count };
        }
        value = value * 10 + u32::from(b - b'0');
    }
    Digits {
        value,
        count: s.len(),
    }
}

// The front of the line that the bytes begin with. No LF is read: it is neither a digit nor a tab.
pub(crate) fn read_front(s: &[u8]) -> Front
    ensures { result ≡ front_of s.now }
{
    let digits = read_digits(s);
    let read = digits.count;
    if read == 0 || s.len() <= read || s[read] != b'\t' {
        return Front { number: None, read };
    }
    Front {
        number: Some(digits.value),
        read,
    }
}
