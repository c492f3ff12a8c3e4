// Numbers: decimal, hexadecimal (0x) and binary (0b), in groups, with a minus sign; and characters in quotes.
ghost use Rattle.std.specs.Prelude.{◌≡◌, ◌+◌, ◌*◌, ◌≤◌, min};
ghost use Rattle.lexis.specs.Numbers.{most as most_of, valued_of, unsigned_in, base_by, unsigned_of, minus_of, of_chars, character_of, number_of};
ghost use Rattle.quoted.specs.Quoted.{meant};
ghost use Rattle.lexis.specs.Code.{longer_of, figures_of, judged_of, chars_value};
ghost use Rattle.quoted.specs.declared.Mode.TheVariants.{Plain};

// A number's 16 bits; whether it is stored as a word; whether it had a minus sign.
#[derive(Clone, Copy)]
pub struct Value {
    pub bits: u16,
    pub word: bool,
    pub negative: bool,
}

// Why a word is no value: it is no number, or its value does not fit 16 bits.
#[derive(Clone, Copy)]
pub enum Fault {
    Bad,
    TooLarge,
}

// The digits read so far: their value, where 65,536 stands for all that is more; their number, where 9 stands for more; whether the last byte was a
// digit. The caps are no codes: a sum goes on from them as from any number, and what is too large may still be no number.
#[derive(Clone, Copy)]
struct Figures {
    value: u32,
    count: u8,
    digit: bool,
}

fn with_digit(value: u32, base: u8, x: u8) -> u32
    requires { (1 ≤ base) × (base ≤ 16) × (x ≤ 16) }
    ensures { result ≡ min 65536 (value * base + x) }
{
    if 65536 <= value {
        return 65536;
    }
    (value * (base as u32) + x as u32).min(65536)
}

fn one_more(count: u8) -> u8
    ensures { result ≡ min 9 (count + 1) }
{
    if count < 9 { count + 1 } else { 9 }
}

// One byte more; None where it may not stand there.
#[tactic(auto, unfolding(crate::specs::Code::longer_of))]
fn longer(d: Figures, base: u8, b: u8) -> Option<Figures>
    requires { (1 ≤ base) × (base ≤ 16) }
    ensures { result ≡ longer_of base d b }
{
    if b == b'_' {
        return if d.digit {
            Some(Figures { digit: false, ..d })
        } else {
            None
        };
    }
    let x = letters::hex_value(b)?;
    if base <= x {
        return None;
    }
    Some(Figures {
        value: with_digit(d.value, base, x),
        count: one_more(d.count),
        digit: true,
    })
}

fn counted_up(text: &[u8], base: u8) -> Option<Figures>
    requires { (1 ≤ base) × (base ≤ 16) }
    ensures { result ≡ figures_of base text.now }
{
    let mut d = Figures {
        value: 0,
        count: 0,
        digit: false,
    };
    for &b in text {
        d = longer(d, base, b)?;
    }
    Some(d)
}

// How many digits of a base make a byte.
#[tactic(auto, unfolding(crate::specs::Numbers::most))]
fn most(base: u8) -> u8
    ensures { result ≡ most_of base }
{
    match base {
        2 => 8,
        16 => 2,
        _ => 3,
    }
}

// A value of so many digits.
#[tactic(auto, unfolding(crate::specs::Numbers::valued_of))]
fn valued(v: u32, base: u8, count: u8) -> Result<Value, Fault>
    ensures { result ≡ valued_of base v count }
{
    if 65535 < v {
        return Err(Fault::TooLarge);
    }
    Ok(Value {
        bits: v as u16,
        word: (255 < v) | (most(base) < count),
        negative: false,
    })
}

#[tactic(auto, unfolding(crate::specs::Code::judged_of))]
fn judged(d: Option<Figures>, base: u8) -> Result<Value, Fault>
    ensures { result ≡ judged_of base d }
{
    match d {
        Some(d) if d.digit => valued(d.value, base, d.count),
        _ => Err(Fault::Bad),
    }
}

#[tactic(auto, unfolding(crate::specs::Numbers::minus_of))]
fn minus(bits: u16) -> Result<Value, Fault>
    ensures { result ≡ minus_of bits }
{
    if 32768 < bits {
        return Err(Fault::TooLarge);
    }
    Ok(Value {
        bits: bits.wrapping_neg(),
        word: true,
        negative: true,
    })
}

// A number of a base, without its start.
fn in_base(text: &[u8], base: u8) -> Result<Value, Fault>
    requires { (1 ≤ base) × (base ≤ 16) }
    ensures { result ≡ unsigned_in base text.now }
{
    judged(counted_up(text, base), base)
}

// The base that the first two bytes name.
#[tactic(auto, unfolding(crate::specs::Numbers::base_by))]
fn base_by(first: u8, second: u8) -> u8
    ensures value { result ≡ base_by first second }
    ensures in_range { (1 ≤ result) × (result ≤ 16) }
{
    match (first, letters::lower(second)) {
        (b'0', b'x') => 16,
        (b'0', b'b') => 2,
        _ => 10,
    }
}

// A number without a sign.
pub fn unsigned(word: &[u8]) -> Result<Value, Fault>
    ensures { result ≡ unsigned_of word.now }
{
    if word.len() < 2 {
        return in_base(word, 10);
    }
    let base = base_by(word[0], word[1]);
    if base == 10 {
        return in_base(word, 10);
    }
    in_base(&word[2..], base)
}

// One or two characters, or none.
fn of_chars(first: u8, second: u8, n: usize) -> Value
    ensures { result ≡ chars_value first second n }
{
    Value {
        bits: first as u16 + 256 * (second as u16),
        word: n == 2,
        negative: false,
    }
}

// What stands between two single quotes; more than two characters are no constant either.
fn character(inside: &[u8]) -> Result<Value, Fault>
    ensures { result ≡ of_chars (meant 39 Plain inside.now) }
{
    let mut two = [0u8; 2];
    match quoted::read(b'\'', inside, &mut two) {
        Ok(n) => Ok(of_chars(two[0], two[1], n)),
        Err(_) => Err(Fault::Bad),
    }
}

// A character constant, quotes and all.
#[tactic(auto, unfolding(crate::specs::Numbers::character_of))]
pub fn constant(word: &[u8]) -> Result<Value, Fault>
    ensures { result ≡ character_of word.now }
{
    match word {
        [b'\'', inside @ .., b'\''] => character(inside),
        _ => Err(Fault::Bad),
    }
}

// A number, with or without a minus sign, or a character constant: a value of the debugger.
#[tactic(auto, unfolding(crate::specs::Numbers::number_of))]
pub fn number(word: &[u8]) -> Result<Value, Fault>
    ensures { result ≡ number_of word.now }
{
    match word {
        [b'\'', ..] => constant(word),
        [b'-', rest @ ..] => minus(unsigned(rest)?.bits),
        _ => unsigned(word),
    }
}
