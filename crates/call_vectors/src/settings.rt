// What of the machine is arranged for the calls to find, and the line that is printed.
use crate::state::Desk;
use bus::state::{Cpu, Stretch};

// Register 0 to 15.
pub fn set_register(c: &mut Cpu, number: u8, content: u16) {
    c.regs[usize::from(number % 16)] = content;
}

pub fn set_stretch(c: &mut Cpu, first: u16, last: u16) {
    c.board.stretch = Stretch { first, last };
}

// A line, from whose digest the next goes on. There are fewer than 65,536 lines.
pub fn show(rt: &impl Print, d: &mut Desk) {
    let g = report::absorb_bytes(d.digest, d.ram.lent());
    let h = report::absorb_words(g, d.journal.lent());
    report::decimal(rt, u64::from(d.line));
    report::space(rt);
    report::hex(rt, h, 8);
    report::end(rt);
    d.digest = h;
    d.line = d.line.wrapping_add(1);
}
