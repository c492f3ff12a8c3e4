// memset, key and assemble: bytes for the machine, read off the line into the room.
use crate::Order;
use console::rows::Row;
use console::values::Said;
use console::{paths, values, words};
use lexis::numbers;
use lexis::numbers::Value;
use panel::refusals::Refusal;
use panel::status::Noun;
use quoted::Fault;
use text::assemble;
use text::assemble::NoWord;

fn bad(rt: &impl Print, what: &[u8], word: &[u8]) -> Said {
    values::complain(rt, what, word);
    Said
}

fn refused(rt: &impl Print, why: Refusal) -> Said {
    why.say(rt);
    Said
}

const TOO_MANY: &[u8] = b"more bytes than can be given at once";

// A string's bytes at the start of the room: how many.
fn string(rt: &impl Print, word: &[u8], room: &mut [u8]) -> Result<usize, Said> {
    match paths::string(word, room) {
        Ok(n) => Ok(n),
        Err(Fault::Bad) => Err(bad(rt, b"not a string in double quotes", word)),
        Err(Fault::NoRoom) => Err(bad(rt, TOO_MANY, word)),
    }
}

// What a value may be, beside a string.
#[derive(Clone, Copy, PartialEq, Eq)]
enum Numbers {
    Bytes,
    BytesAndWords,
}

// A number's byte, or its two bytes with the lower first, at the start of the room: how many.
fn put(room: &mut [u8], v: Value) -> usize {
    let [low, high] = v.bits.to_le_bytes();
    let mut row = Row::new(room);
    row.put(low);
    if v.word {
        row.put(high);
    }
    row.bytes().len()
}

fn number(rt: &impl Print, word: &[u8], room: &mut [u8], allowed: Numbers) -> Result<usize, Said> {
    match numbers::number(word) {
        Ok(v) if v.word & (allowed == Numbers::Bytes) => Err(bad(rt, b"not a byte", word)),
        Ok(v) => Ok(put(room, v)),
        Err(fault) => {
            values::unread(rt, fault, word);
            Err(Said)
        }
    }
}

fn value(rt: &impl Print, word: &[u8], room: &mut [u8], allowed: Numbers) -> Result<usize, Said> {
    match word.first() {
        Some(b'"') => string(rt, word, room),
        _ => number(rt, word, room, allowed),
    }
}

// All values of the line, as bytes at the start of the room; there has to be one.
fn all<'a>(
    rt: &impl Print,
    line: &[u8],
    room: &'a mut [u8],
    allowed: Numbers,
) -> Result<&'a [u8], Said> {
    if words::next(line).is_none() {
        report::text(rt, b"a value is needed\n");
        return Err(Said);
    }
    let mut n: usize = 0;
    let mut rest = line;
    while let Some((word, after)) = words::next(rest) {
        let Some(left) = room.get_mut(n..) else {
            return Err(bad(rt, TOO_MANY, word));
        };
        n = n.saturating_add(value(rt, word, left, allowed)?);
        rest = after;
    }
    Ok(words::front(room, n))
}

// Whether there are no bytes, or all are in RAM.
pub fn is_within(at: u16, n: usize, ram: usize) -> bool {
    (n == 0) | ((at as usize).saturating_add(n) <= ram)
}

// Bytes are all in RAM; where not, that is said.
fn fits(rt: &impl Print, at: u16, n: usize, ram: usize) -> Result<(), Said> {
    if is_within(at, n, ram) {
        Ok(())
    } else {
        Err(refused(rt, Refusal::NotRam))
    }
}

// What was stored or loaded, and where.
pub fn tell(rt: &impl Print, what: &[u8], n: usize, at: u16) {
    let noun = Noun {
        one: b"byte at ",
        more: b"bytes at ",
    };
    report::text(rt, what);
    report::space(rt);
    noun.count(rt, n as u64);
    report::hex(rt, at as u64, 4);
    report::end(rt);
}

// memset ADDR VALUE..
pub fn memset<'a>(
    rt: &impl Print,
    line: &[u8],
    ram: usize,
    room: &'a mut [u8],
) -> Result<Order<'a>, Said> {
    let (at, rest) = values::needed(rt, line, b"an address is needed")?;
    let bytes = all(rt, rest, room, Numbers::BytesAndWords)?;
    fits(rt, at, bytes.len(), ram)?;
    tell(rt, b"stored", bytes.len(), at);
    Ok(Order::Pokes(at, bytes))
}

// key BYTE..
pub fn keys<'a>(rt: &impl Print, line: &[u8], room: &'a mut [u8]) -> Result<Order<'a>, Said> {
    let bytes = all(rt, line, room, Numbers::Bytes)?;
    Ok(Order::Keys(bytes))
}

// An instruction's two bytes.
fn code<'a>(
    rt: &impl Print,
    word: u16,
    at: u16,
    ram: usize,
    room: &'a mut [u8],
) -> Result<Order<'a>, Said> {
    fits(rt, at, 2, ram)?;
    let mut row = Row::new(room);
    row.put_all(&word.to_le_bytes());
    Ok(Order::Code(at, row.finished()))
}

// assemble ADDR LINE
pub fn assembled<'a>(
    rt: &impl Print,
    line: &[u8],
    ram: usize,
    room: &'a mut [u8],
) -> Result<Order<'a>, Said> {
    let (at, rest) = values::needed(rt, line, b"an address is needed")?;
    match assemble::assemble(rest) {
        Ok(word) => code(rt, word, at, ram, room),
        Err(NoWord::BadLine) => Err(refused(rt, Refusal::BadLine)),
        Err(NoWord::BadMnemonic) => Err(refused(rt, Refusal::BadMnemonic)),
        Err(NoWord::BadOperand) => Err(refused(rt, Refusal::BadOperand)),
    }
}
