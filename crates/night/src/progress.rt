// How far a night is, in a line at a terminal that is written over; and the lines of standard output themselves.
use crate::totals::Totals;
use crate::{notes, totals};
use console::rows::Row;
use std::io::IsTerminal;
use std::rt::Clock;
use std::time::CpuClock;

// The clock is looked at after so many pens, and progress is shown after so many microseconds at the earliest.
const PENS: u64 = 16;

const PAUSE: u64 = 100000;

// The seconds after which pens a second are told: only whole seconds are counted.
const RATED: u64 = 10;

// The clock on the wall; 0 where it cannot be read.
fn seconds(rt: &HostRuntime) -> u64 {
    match rt.since_1970() {
        Ok(now) => now.as_secs(),
        Err(_) => 0,
    }
}

// The processor's time in microseconds; 0 where it cannot be read.
fn worked(rt: &HostRuntime) -> u64 {
    match rt.process_cpu_time() {
        Ok(time) => u64::try_from(time.as_micros()).unwrap_or(0),
        Err(_) => 0,
    }
}

// Lines: each ends at a newline, the last one also at the end.
fn count(list: &[u8]) -> u64 {
    let ended = list.iter().filter(|b| **b == b'\n').count() as u64;
    match list {
        [] | [.., b'\n'] => ended,
        _ => ended.saturating_add(1),
    }
}

// Before the first pen of a list. Where its lines go to a terminal, they are progress enough.
pub fn begin(rt: &HostRuntime, list: &[u8]) -> Totals {
    let is_watched = rt.stderr().is_terminal() & !rt.stdout().is_terminal();
    totals::none(count(list), is_watched, seconds(rt))
}

fn put_rate(row: &mut Row<'_>, done: u64, time: u64) {
    if RATED <= time {
        row.put_all(b", ");
        row.put_number(done / time);
        row.put_all(b" a second");
    }
}

// The line is written over with blanks behind it.
fn show(rt: &HostRuntime, t: Totals) {
    let mut room = [b' '; 64];
    let mut row = Row::new(&mut room);
    row.put_all(b"\rpens: ");
    row.put_number(t.done);
    row.put_all(b" of ");
    row.put_number(t.all);
    row.put_all(b" done, ");
    row.put_number(t.refused);
    row.put_all(b" refused");
    put_rate(&mut row, t.done, seconds(rt).saturating_sub(t.began));
    notes::text(rt, &room);
}

// Progress, where it is due. The processor's time is never ahead of a clock on the wall, so it is shown ten times a second at most.
pub fn shown(rt: &HostRuntime, t: Totals) -> Totals {
    if !t.is_watched | (t.done % PENS != 0) {
        return t;
    }
    let now = worked(rt);
    if now.saturating_sub(t.last) < PAUSE {
        return t;
    }
    show(rt, t);
    let mut u = t;
    u.last = now;
    u
}

// The line of progress is taken away.
pub fn clear(rt: &HostRuntime, t: Totals) {
    if t.is_watched {
        let mut room = [b' '; 65];
        room[0] = b'\r';
        room[64] = b'\r';
        notes::text(rt, &room);
    }
}

// A pen's line, by one write, so that a night that is cut short leaves whole lines. After one that fails none is written.
pub fn written(rt: &HostRuntime, t: Totals, line: &[u8]) -> Totals {
    if t.lost == 0 {
        if rt.write_all(line).is_ok() {
            return t;
        }
        clear(rt, t);
        notes::say(rt, b"the output could not be written; no more lines are");
    }
    let mut u = t;
    u.lost = t.lost.saturating_add(1);
    u
}
