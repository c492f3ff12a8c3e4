// dump, dumpd, dumpw, dumpwd: a row shows 16 bytes as the processor reads them.
ghost use Rattle.std.specs.Prelude.{◌<◌};

use crate::protection;
use crate::view::View;
use console::rows::Row;
use console::values;
use console::values::Said;
use word::sums;

// Where the next dump starts, and how many bytes it shows.
#[derive(Clone, Copy)]
pub struct Spot {
    pub at: u16,
    pub size: usize,
}

#[derive(Clone, Copy)]
pub enum Unit {
    Byte,
    Word,
}

#[derive(Clone, Copy)]
pub enum Base {
    Hexadecimal,
    Decimal,
}

// What a row shows, and how.
#[derive(Clone, Copy)]
pub struct Form {
    pub unit: Unit,
    pub base: Base,
}

impl Form {
    // The places from one cell's address to the next one's.
    fn step(self) -> usize
        ensures { 0 < result }
    {
        match self.unit {
            Unit::Byte => 1,
            Unit::Word => 2,
        }
    }

    fn value(self, view: View, at: u16) -> u16 {
        match self.unit {
            Unit::Byte => view.byte_at(at) as u16,
            Unit::Word => view.word_at(at),
        }
    }

    fn put(self, row: &mut Row, value: u16) {
        match (self.unit, self.base) {
            (Unit::Byte, Base::Hexadecimal) => row.put_hex(value, 2),
            (Unit::Byte, Base::Decimal) => row.put_decimal(value, 3),
            (Unit::Word, Base::Hexadecimal) => row.put_hex(value, 4),
            (Unit::Word, Base::Decimal) => row.put_decimal(value, 5),
        }
    }
}

// The bytes, or words, of a row.
fn cells(row: &mut Row, form: Form, view: View, at: u16) {
    for i in (0..16).step_by(form.step()) {
        row.put(b' ');
        form.put(row, form.value(view, sums::plus(at, i)));
    }
}

fn character(b: u8) -> u8 {
    match b {
        32..=126 => b,
        _ => b'.',
    }
}

fn characters(row: &mut Row, view: View, at: u16) {
    row.put_all(b"  ");
    for i in 0..16 {
        row.put(character(view.byte_at(sums::plus(at, i))));
    }
}

// The bytes or words, the characters beside bytes in hexadecimal, and what of them is protected.
fn one_row(rt: &impl Print, form: Form, view: View, at: u16) {
    let mut room = [b' '; 96];
    let mut row = Row::new(&mut room);
    row.put_hex(at, 4);
    cells(&mut row, form, view, at);
    if let (Unit::Byte, Base::Hexadecimal) = (form.unit, form.base) {
        characters(&mut row, view, at);
    }
    protection::put(&mut row, view, at);
    row.put(b'\n');
    row.write(rt);
}

// So many rows; where the next one starts.
fn all_rows(rt: &impl Print, form: Form, view: View, from: u16, n: usize) -> u16 {
    let mut at = from;
    for _ in 0..n {
        one_row(rt, form, view, at);
        at = sums::plus(at, 16);
    }
    at
}

// "Zero `SIZE` means the whole address space, that is, 65536 bytes."
fn size_of(value: u16) -> usize {
    match value {
        0 => 65536,
        _ => value as usize,
    }
}

// Without an address a dump goes on where the last one ended, with its size.
fn size_asked(last: Spot, at: Option<u16>, size: Option<u16>) -> usize {
    match (at, size) {
        (_, Some(size)) => size_of(size),
        (Some(_), None) => 16,
        (None, None) => last.size,
    }
}

// dump [ADDR [SIZE]]: the bytes are rounded up to whole rows. The answer is where the next dump starts.
pub fn dump(
    rt: &impl Print,
    last: Spot,
    form: Form,
    view: View,
    line: &[u8],
) -> Result<Spot, Said> {
    let (at, rest) = values::number(rt, line)?;
    let asked = values::only(rt, rest)?;
    let size = size_asked(last, at, asked);
    let next = all_rows(rt, form, view, at.unwrap_or(last.at), size.div_ceil(16));
    Ok(Spot { at: next, size })
}
