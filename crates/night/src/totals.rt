// What a night came to: its pens by cause and by refusal, and the pens that were refused.
use crate::lines::Cause;
use crate::notes;
use console::rows::Row;

// The most refused pens that are told one by one.
const LISTED: u64 = 1000;

#[derive(Clone, Copy)]
pub struct Totals {
    // The lines of the list, and how many of them are done.
    pub all: u64,
    pub done: u64,
    pub refused: u64,
    stop: u64,
    halted: u64,
    budget: u64,
    // By the refusal's number, from 80 on.
    by: [u64; 4],
    // How many refused pens stand in the row for them.
    listed: u64,
    // The lines that could not be written.
    pub lost: u64,
    // Whether progress is shown; when the night began, in seconds, and when progress was last shown, by the processor's time.
    pub is_watched: bool,
    pub began: u64,
    pub last: u64,
}

// Before the first pen.
pub fn none(all: u64, is_watched: bool, began: u64) -> Totals {
    Totals {
        all,
        done: 0,
        refused: 0,
        stop: 0,
        halted: 0,
        budget: 0,
        by: [0; 4],
        listed: 0,
        lost: 0,
        is_watched,
        began,
        last: 0,
    }
}

fn one_more(n: &mut u64) {
    *n = n.saturating_add(1);
}

pub fn with_accepted(t: Totals, c: Cause) -> Totals {
    let mut u = t;
    one_more(&mut u.done);
    match c {
        Cause::Stop => one_more(&mut u.stop),
        Cause::Halted => one_more(&mut u.halted),
        Cause::Budget => one_more(&mut u.budget),
    }
    u
}

fn counted(t: Totals, number: u8) -> Totals {
    let mut u = t;
    one_more(&mut u.done);
    one_more(&mut u.refused);
    if let Some(n) = u.by.get_mut(usize::from(number.wrapping_sub(80))) {
        one_more(n);
    }
    u
}

// A pen by its number, or by its line's where it has none.
fn put_pen(row: &mut Row<'_>, pen: &[u8], is_number: bool, line: u64) {
    row.put_all(pen);
    if !is_number {
        row.put_all(b" in line ");
        row.put_number(line);
    }
}

// One refused pen more; it is put into the row where there are not too many.
pub fn with_refused(
    t: Totals,
    pen: &[u8],
    is_number: bool,
    number: u8,
    row: &mut Row<'_>,
) -> Totals {
    let mut u = counted(t, number);
    if LISTED <= t.listed {
        return u;
    }
    if !row.bytes().is_empty() {
        row.put_all(b", ");
    }
    put_pen(row, pen, is_number, u.done);
    row.put_all(b" (");
    row.put_number(u64::from(number));
    row.put(b')');
    one_more(&mut u.listed);
    u
}

fn tell(rt: &HostRuntime, n: u64, what: &[u8]) {
    notes::decimal(rt, n);
    notes::text(rt, what);
}

fn tell_refused(rt: &HostRuntime, t: Totals, pens: &[u8]) {
    notes::begin(rt);
    notes::text(rt, b"refused: ");
    notes::text(rt, pens);
    if t.listed < t.refused {
        notes::text(rt, b", and ");
        tell(rt, t.refused - t.listed, b" more");
    }
    notes::end(rt);
}

// What a night came to, at its end, with the refused pens as they were put.
pub fn tell_all(rt: &HostRuntime, t: Totals, pens: &[u8]) {
    notes::begin(rt);
    tell(rt, t.done, b" done: ");
    tell(rt, t.stop, b" stop, ");
    tell(rt, t.halted, b" halted, ");
    tell(rt, t.budget, b" budget, ");
    tell(rt, t.refused, b" refused (");
    tell(rt, t.by[3], b" by 83, ");
    tell(rt, t.by[0], b" by 80, ");
    tell(rt, t.by[1], b" by 81, ");
    tell(rt, t.by[2], b" by 82)\n");
    if t.refused != 0 {
        tell_refused(rt, t, pens);
    }
    if t.lost != 0 {
        notes::begin(rt);
        notes::text(rt, b"lines that could not be written: ");
        tell(rt, t.lost, b"\n");
    }
}
