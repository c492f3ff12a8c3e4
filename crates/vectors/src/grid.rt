// The words of a section: lines of four hexadecimal digits in front of it.
ghost use Rattle.std.specs.Prelude.{◌≤◌, length, IfSome};

// Small letters only.
fn digit(b: u8) -> Option<u16>
    ensures { IfSome result (λ d. d ≤ 15) }
{
    match b {
        b'0'..=b'9' => Some(b as u16 - 48),
        b'a'..=b'f' => Some(b as u16 - 87),
        _ => None,
    }
}

// The word of four digits that a line begins with.
fn word(line: &[u8]) -> Option<u16> {
    let [a, b, c, d, ..] = *line else {
        return None;
    };
    Some(digit(a)? << 12 | digit(b)? << 8 | digit(c)? << 4 | digit(d)?)
}

// The words in front of the input, as many as there is room for; how many there are.
pub fn read(input: &[u8], room: &mut [u16]) -> usize
    ensures { result ≤ length room.new }
{
    let mut lines = input.chunks(5);
    for (n, place) in room.iter_mut().enumerate() {
        let Some(word) = lines.next().and_then(|line| word(line)) else {
            return n;
        };
        *place = word;
    }
    room.len()
}
