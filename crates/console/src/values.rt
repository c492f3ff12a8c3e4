// The words after a command's name.
use crate::words;
use lexis::numbers;
use lexis::numbers::Fault;

// The error of what told itself what was wrong.
#[derive(Clone, Copy)]
pub struct Said;

// A byte as it may be shown on a terminal: a control character as a question mark.
pub fn printable(b: u8) -> u8 {
    match b {
        0..=31 | 127 => b'?',
        _ => b,
    }
}

// A word as it may be shown on a terminal.
pub fn show(rt: &impl Print, word: &[u8]) {
    for &b in word {
        report::text(rt, &[printable(b)]);
    }
}

// A line that says what was wrong with a word.
pub fn complain(rt: &impl Print, what: &[u8], word: &[u8]) {
    report::text(rt, what);
    report::text(rt, b": ");
    show(rt, word);
    report::end(rt);
}

// What is wrong with a word that is no number of 16 bits.
pub fn unread(rt: &impl Print, fault: Fault, word: &[u8]) {
    match fault {
        Fault::Bad => complain(rt, b"not a number", word),
        Fault::TooLarge => complain(rt, b"the number does not fit 16 bits", word),
    }
}

fn value(rt: &impl Print, word: &[u8], is_signed: bool) -> Result<u16, Said> {
    match numbers::number(word) {
        Ok(v) if is_signed | !v.negative => return Ok(v.bits),
        Ok(_) => complain(rt, b"a number without a sign is needed", word),
        Err(fault) => unread(rt, fault, word),
    }
    Err(Said)
}

// The number that stands next, if one does, and the line after it.
fn taken<'a>(
    rt: &impl Print,
    line: &'a [u8],
    is_signed: bool,
) -> Result<(Option<u16>, &'a [u8]), Said> {
    let Some((word, rest)) = words::next(line) else {
        return Ok((None, line));
    };
    Ok((Some(value(rt, word, is_signed)?), rest))
}

// The number that stands next, and the line after it; None where the line ends. Addresses and counts have no sign.
pub fn number<'a>(rt: &impl Print, line: &'a [u8]) -> Result<(Option<u16>, &'a [u8]), Said> {
    taken(rt, line, false)
}

// Whether the line ends here; what stands there is said to be too much.
pub fn is_end(rt: &impl Print, line: &[u8]) -> bool {
    let Some((word, _)) = words::next(line) else {
        return true;
    };
    complain(rt, b"too many words, from here on", word);
    false
}

fn ended(rt: &impl Print, line: &[u8], is_signed: bool) -> Result<Option<u16>, Said> {
    let (n, rest) = taken(rt, line, is_signed)?;
    if is_end(rt, rest) { Ok(n) } else { Err(Said) }
}

// The last number of a command; None where it is missing.
pub fn only(rt: &impl Print, line: &[u8]) -> Result<Option<u16>, Said> {
    ended(rt, line, false)
}

// The same, with or without a sign.
pub fn last(rt: &impl Print, line: &[u8]) -> Result<Option<u16>, Said> {
    ended(rt, line, true)
}

// A number that has to be there, and the line after it.
pub fn needed<'a>(rt: &impl Print, line: &'a [u8], what: &[u8]) -> Result<(u16, &'a [u8]), Said> {
    let (n, rest) = number(rt, line)?;
    if let Some(n) = n {
        return Ok((n, rest));
    }
    report::text(rt, what);
    report::end(rt);
    Err(Said)
}
