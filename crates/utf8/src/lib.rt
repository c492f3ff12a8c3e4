// UTF-8 read strictly, and which of it is ISO 8859-1.
#![tactic(auto)]

ghost use Rattle.std.specs.Prelude.{◌≡◌, ◌∷◌, ◌+◌, ◌≤◌, ◌<◌, length, drop};
ghost use Rattle.utf8.specs.Utf8.{followed, letter_of};
ghost use Rattle.utf8.specs.Latin.{judged_of};
ghost use Rattle.utf8.specs.Code.{low_after, high_after};

// A code point, and how many bytes it takes.
#[derive(Clone, Copy)]
pub struct Letter {
    pub point: u32,
    pub length: usize,
}

// Why a name has no single bytes.
#[derive(Clone, Copy)]
pub enum Unfit {
    NotUtf8,
    NotLatin,
}

// The least that may follow a lead byte of three or four bytes: less would be a longer form than is needed.
#[tactic(auto, unfolding(crate::specs::Code::low_after))]
fn low_after(lead: u8) -> u8
    ensures value { result ≡ low_after lead }
    ensures lower_bound { 0x80 ≤ result }
{
    match lead {
        0xe0 => 0xa0,
        0xf0 => 0x90,
        _ => 0x80,
    }
}

// The greatest: more would be a surrogate, or over 0x10ffff.
#[tactic(auto, unfolding(crate::specs::Code::high_after))]
fn high_after(lead: u8) -> u8
    ensures value { result ≡ high_after lead }
    ensures upper_bound { result ≤ 0xbf }
{
    match lead {
        0xed => 0x9f,
        0xf4 => 0x8f,
        _ => 0xbf,
    }
}

// The letter whose lead byte has a value and is followed by these bytes: six bits more by each, the first of them from `least` to `greatest`.
fn followed(value: u8, least: u8, greatest: u8, rest: &[u8]) -> Option<Letter>
    requires few { length rest.now ≤ 3 }
    requires five_bits { value < 0x20 }
    requires lower_bound { 0x80 ≤ least }
    requires upper_bound { greatest ≤ 0xbf }
    ensures { result ≡ followed (length rest.now + 1) value (length rest.now) least greatest rest.now }
{
    let mut point = u32::from(value);
    let mut low = least;
    let mut high = greatest;
    for &b in rest {
        if b < low || high < b {
            return None;
        }
        point = point * 64 + u32::from(b - 0x80);
        low = 0x80;
        high = 0xbf;
    }
    Some(Letter {
        point,
        length: rest.len() + 1,
    })
}

// A letter of more than one byte, by its lead byte and the bytes after it.
fn longer(lead: u8, rest: &[u8]) -> Option<Letter>
    requires { 0x80 ≤ lead }
    ensures { result ≡ letter_of (lead ∷ rest.now) }
{
    let low = low_after(lead);
    let high = high_after(lead);
    match lead {
        0xc2..=0xdf => followed(lead - 0xc0, 0x80, 0xbf, rest.get(..1)?),
        0xe0..=0xef => followed(lead - 0xe0, low, high, rest.get(..2)?),
        0xf0..=0xf4 => followed(lead - 0xf0, low, high, rest.get(..3)?),
        _ => None,
    }
}

// The letter that begins at a place; there is none at the end. Most are of one byte.
pub fn letter_at(s: &[u8], i: usize) -> Option<Letter>
    ensures { result ≡ letter_of (drop i s.now) }
{
    if s.len() <= i {
        return None;
    }
    let a = s[i];
    if a < 0x80 {
        return Some(Letter {
            point: u32::from(a),
            length: 1,
        });
    }
    longer(a, &s[i + 1..])
}

// Of how many single bytes a name is. A fault of the encoding counts before a letter that has no single byte, wherever either stands.
pub fn judge(name: &[u8]) -> Result<usize, Unfit>
    ensures { result ≡ judged_of name.now }
{
    let mut latin = true;
    let mut n: usize = 0;
    let mut i: usize = 0;
    // Kept a `while`: it goes from letter to letter, by their lengths.
    while i < name.len() {
        let Some(letter) = letter_at(name, i) else {
            return Err(Unfit::NotUtf8);
        };
        latin = latin & (0 < letter.point) & (letter.point <= 0xff);
        n += 1;
        i += letter.length;
    }
    if latin {
        return Ok(n);
    }
    Err(Unfit::NotLatin)
}
