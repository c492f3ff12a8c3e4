// A register that is set before each pen: REG=VALUE
use lexis::numbers;
use names::register::Reg;
use night::notes;

// A number of 16 bits, with a sign only where it may have one.
fn bits(word: &[u8], is_signed: bool) -> Option<u16> {
    match numbers::number(word) {
        Ok(v) if is_signed | !v.negative => Some(v.bits),
        _ => None,
    }
}

// A number without a sign.
pub fn unsigned(word: &[u8]) -> Option<u16> {
    bits(word, false)
}

// A register by its name, or by a number, of which the library says whether there is such a register.
fn register(word: &[u8]) -> Option<u16> {
    match Reg::from_name(word) {
        Some(r) => Some(u16::from(r.number)),
        None => unsigned(word),
    }
}

// A register's number and its content.
#[derive(Clone, Copy)]
pub struct Pair {
    pub register: u16,
    pub content: u16,
}

pub fn read(word: &[u8]) -> Option<Pair> {
    let at = word.iter().position(|b| *b == b'=')?;
    let (name, rest) = word.split_at(at);
    Some(Pair {
        register: register(name)?,
        content: bits(&rest[1..], true)?,
    })
}

// The first given number that is no register's.
fn strange(setup: &[u16]) -> u16 {
    let mut registers = setup.iter().skip(3).step_by(2).copied();
    registers.find(|n| 15 < *n).unwrap_or(0)
}

// What refuses all pens, before the first.
pub fn refused(rt: &HostRuntime, number: u8, setup: &[u16]) {
    notes::begin(rt);
    report::text(&rt.stderr(), b"refused ");
    report::decimal(&rt.stderr(), u64::from(number));
    if number == 6 {
        report::text(&rt.stderr(), b": there is no register ");
        report::decimal(&rt.stderr(), u64::from(strange(setup)));
    }
    notes::end(rt);
}
