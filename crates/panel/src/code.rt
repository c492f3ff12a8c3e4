// list: memory as instructions.
use crate::status;
use crate::view::View;
use console::rows::Row;
use console::values;
use console::values::Said;
use word::sums;

// The lines that list shows where the command names no number.
const LINES: u16 = 8;

// An address, the bytes there, and the instruction that they are. What stands before the instruction is written at once.
pub fn show(rt: &impl Print, view: View, at: u16) {
    let w = view.word_at(at);
    let mut room = [b' '; 11];
    let mut row = Row::new(&mut room);
    row.put_hex(at, 4);
    for byte in w.to_le_bytes() {
        row.put(b' ');
        row.put_hex(u16::from(byte), 2);
    }
    report::text(rt, &room);
    status::instruction(rt, w);
}

fn lines(rt: &impl Print, view: View, from: u16, n: u16) {
    let mut at = from;
    for _ in 0..n {
        show(rt, view, at);
        if at == view.pc() {
            report::text(rt, b"  <- pc");
        }
        report::end(rt);
        at = sums::plus(at, 2);
    }
}

// list [ADDR [COUNT]]
pub fn list(rt: &impl Print, view: View, line: &[u8]) -> Result<(), Said> {
    let (from, rest) = values::number(rt, line)?;
    let n = values::only(rt, rest)?;
    lines(rt, view, from.unwrap_or(view.pc()), n.unwrap_or(LINES));
    Ok(())
}
