// Registers, status registers and devices, shown; and found by their names.
use crate::parts::Part;
use crate::view::View;
use crate::{parts, status};
use console::{values, words};
use lexis::numbers;
use names::register::{Csr, Reg};

// A number, as an index below 16 is written.
fn index(word: &[u8]) -> Option<u8> {
    let value = numbers::unsigned(word).ok()?;
    u8::try_from(value.bits).ok()
}

// A register by its index, name or alias.
pub fn register(word: &[u8]) -> Option<Reg> {
    Reg::from_name(word).or_else(|| Reg::from_number(index(word)?))
}

fn status_register(word: &[u8]) -> Option<Csr> {
    Csr::from_name(word).or_else(|| Csr::from_number(index(word)?))
}

fn value(rt: &impl Print, view: View, part: Part) {
    report::hex(rt, part.value(view.state) as u64, part.width());
}

// A part's name, blanks up to a width, and what it holds.
fn one(rt: &impl Print, view: View, part: Part, width: usize) {
    let name = part.name();
    report::text(rt, name);
    for _ in name.len()..width {
        report::space(rt);
    }
    value(rt, view, part);
}

fn row(rt: &impl Print, view: View, parts: &[Part], width: usize) {
    for (i, &part) in parts.iter().enumerate() {
        if 0 < i {
            report::text(rt, b"  ");
        }
        one(rt, view, part, width);
    }
    report::end(rt);
}

// Parts in rows of four.
fn table(rt: &impl Print, view: View, parts: &[Part], width: usize) {
    for four in parts.chunks(4) {
        row(rt, view, four, width);
    }
}

// The devices and the halted mark.
fn board(rt: &impl Print, view: View) {
    for &part in &parts::ALL[32..] {
        report::text(rt, b"  ");
        report::text(rt, part.name());
        report::space(rt);
        value(rt, view, part);
    }
    report::end(rt);
}

pub fn show_register(rt: &impl Print, view: View, register: Reg) {
    row(rt, view, &[Part::Register(register)], 4);
}

// All registers, and what the debugger shows beside them: the flags, the devices, the halted mark.
pub fn show_registers(rt: &impl Print, view: View) {
    table(rt, view, &parts::ALL[..16], 4);
    report::text(rt, b"flags ");
    status::flags(rt, view.f());
    board(rt, view);
}

// csr [NAME]
pub fn csr(rt: &impl Print, view: View, line: &[u8]) {
    let Some((word, rest)) = words::next(line) else {
        table(rt, view, &parts::ALL[16..32], 6);
        return;
    };
    let Some(csr) = status_register(word) else {
        values::complain(rt, b"no such status register", word);
        return;
    };
    if values::is_end(rt, rest) {
        row(rt, view, &[Part::Status(csr)], 6);
    }
}
