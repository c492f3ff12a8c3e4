// What a command changed: parts of the state, bytes of memory; and the bytes that it stored to and that stayed.
use crate::parts;
use crate::parts::Part;
use crate::status::Noun;
use crate::view::View;

// The value before and after.
pub fn arrow(rt: &impl Print, old: u16, new: u16, width: usize) {
    report::space(rt);
    report::hex(rt, old as u64, width);
    report::text(rt, b" -> ");
    report::hex(rt, new as u64, width);
}

// A byte of memory by its address.
pub fn place_name(rt: &impl Print, at: u16) {
    report::text(rt, b"[");
    report::hex(rt, at as u64, 4);
    report::text(rt, b"]");
}

fn one_part(rt: &impl Print, part: Part, old: u16, new: u16) {
    report::text(rt, b"  ");
    report::text(rt, part.name());
    arrow(rt, old, new, part.width());
    report::end(rt);
}

// The parts that changed are shown; whether any did.
fn state(rt: &impl Print, before: View, after: View) -> bool {
    let mut any = false;
    for &part in &parts::ALL {
        let old = part.value(before.state);
        let new = part.value(after.state);
        if old != new {
            one_part(rt, part, old, new);
            any = true;
        }
    }
    any
}

// What a byte holds that a store left as it was.
fn stays(rt: &impl Print, value: u8) {
    report::space(rt);
    report::hex(rt, value as u64, 2);
    report::text(rt, b" stays: protected");
}

fn one_byte(rt: &impl Print, at: usize, old: u8, new: u8) {
    report::text(rt, b"  ");
    place_name(rt, (at % 65536) as u16);
    if old == new {
        stays(rt, old);
    } else {
        arrow(rt, old as u16, new as u16, 2);
    }
    report::end(rt);
}

// The bytes that are shown; the others are counted.
const SHOWN: usize = 32;

// How many bytes changed, or stayed where a store was dropped. The first ones are shown.
fn memory(rt: &impl Print, before: &[u8], after: &[u8], dropped: &[u8]) -> usize {
    let mut n: usize = 0;
    for (i, &new) in after.iter().enumerate() {
        let old = before.get(i).copied().unwrap_or(0);
        let is_dropped = dropped.get(i).copied().unwrap_or(0) != 0;
        if (old != new) | is_dropped {
            if n < SHOWN {
                one_byte(rt, i, old, new);
            }
            n = n.saturating_add(1);
        }
    }
    n
}

// The bytes that are only counted.
fn more(rt: &impl Print, n: usize) {
    let noun = Noun {
        one: b"more byte of memory\n",
        more: b"more bytes of memory\n",
    };
    if SHOWN < n {
        report::text(rt, b"  and ");
        noun.count(rt, (n - SHOWN) as u64);
    }
}

// What differs between before and after. `dropped` has a mark for each byte at which a store was dropped.
pub fn show(rt: &impl Print, before: View, after: View, dropped: &[u8]) {
    let any = state(rt, before, after);
    let n = memory(rt, before.ram, after.ram, dropped);
    more(rt, n);
    if !any & (n == 0) {
        report::text(rt, b"  no change\n");
    }
}
