// break and watch: entries set, deleted, listed. What is wrong is said in a line, and the list stays as it was.
use crate::list;
use crate::list::{Gone, Kind, Stops};
use console::values::Said;
use console::{values, words};
use entries::Entry;

// A kind by its command's name.
fn name(kind: Kind) -> &'static [u8] {
    match kind {
        Kind::Break => b"break",
        Kind::Watch => b"watch",
    }
}

fn named(rt: &impl Print, kind: Kind, address: u16) {
    report::text(rt, name(kind));
    report::space(rt);
    report::hex(rt, u64::from(address), 4);
}

// The end of a line: how many there are.
fn tell_count(rt: &impl Print, s: &Stops) {
    report::text(rt, b", ");
    report::decimal(rt, s.list().len() as u64);
    report::text(rt, b" of 64\n");
}

// An entry with its hits.
fn tell_entry(rt: &impl Print, kind: Kind, e: Entry) {
    named(rt, kind, e.address);
    report::text(rt, b", hits ");
    report::decimal(rt, u64::from(e.hits));
    report::end(rt);
}

fn tell_none(rt: &impl Print, kind: Kind) {
    report::text(rt, b"no ");
    report::text(rt, name(kind));
    report::text(rt, b" is set\n");
}

// All of a kind, in the order in which they were set.
fn listed(rt: &impl Print, s: &Stops, kind: Kind) {
    let mut is_any = false;
    for e in s.list() {
        if e.kind == u16::from(kind) {
            tell_entry(rt, kind, *e);
            is_any = true;
        }
    }
    if !is_any {
        tell_none(rt, kind);
    }
}

fn is_there(s: &Stops, kind: Kind, address: u16) -> bool {
    list::first(*s, list::met(u16::from(kind), 1, address)).is_some()
}

// An entry that is to be added.
fn add(rt: &impl Print, s: &mut Stops, kind: Kind, address: u16) {
    named(rt, kind, address);
    if is_there(s, kind, address) {
        report::text(rt, b" is set already\n");
        return;
    }
    if 64 <= s.count {
        report::text(rt, b" is not set: there are 64 breaks and watches\n");
        return;
    }
    let e = Entry {
        address,
        kind: u16::from(kind),
        hits: 0,
    };
    *s = list::with(*s, e);
    report::text(rt, b" set");
    tell_count(rt, s);
}

fn delete(rt: &impl Print, s: &mut Stops, kind: Kind, address: u16) {
    named(rt, kind, address);
    if !is_there(s, kind, address) {
        report::text(rt, b" is not set\n");
        return;
    }
    let gone = Gone {
        kind: u16::from(kind),
        address: Some(address),
    };
    *s = list::without(*s, gone);
    report::text(rt, b" deleted");
    tell_count(rt, s);
}

fn delete_all(rt: &impl Print, s: &mut Stops, kind: Kind) {
    let gone = Gone {
        kind: u16::from(kind),
        address: None,
    };
    let after = list::without(*s, gone);
    if after.count == s.count {
        tell_none(rt, kind);
        return;
    }
    *s = after;
    report::text(rt, b"each ");
    report::text(rt, name(kind));
    report::text(rt, b" deleted");
    tell_count(rt, s);
}

// The address that has to stand at the end of the line.
fn set(rt: &impl Print, s: &mut Stops, kind: Kind, line: &[u8]) -> Result<(), Said> {
    match values::only(rt, line)? {
        Some(address) => add(rt, s, kind, address),
        None => report::text(rt, b"an address is needed\n"),
    }
    Ok(())
}

// After the minus sign: an address, or nothing.
fn clear(rt: &impl Print, s: &mut Stops, kind: Kind, line: &[u8]) -> Result<(), Said> {
    match values::only(rt, line)? {
        Some(address) => delete(rt, s, kind, address),
        None => delete_all(rt, s, kind),
    }
    Ok(())
}

// [-] [ADDR]
fn ask(rt: &impl Print, s: &mut Stops, kind: Kind, line: &[u8]) -> Result<(), Said> {
    match words::next(line) {
        None => {
            listed(rt, s, kind);
            Ok(())
        }
        Some((b"-", rest)) => clear(rt, s, kind, rest),
        Some(_) => set(rt, s, kind, line),
    }
}

// break [-] [ADDR]
pub fn set_break(rt: &impl Print, s: &mut Stops, line: &[u8]) -> Result<(), Said> {
    ask(rt, s, Kind::Break, line)
}

// watch [-] [ADDR], and MB50's debugger's `watch r ADDR` and `watch w ADDR`, of which the machine has the second.
pub fn set_watch(rt: &impl Print, s: &mut Stops, line: &[u8]) -> Result<(), Said> {
    match words::next(line) {
        Some((b"r" | b"R", _)) => {
            report::text(rt, b"only stores are watched: watch ADDR\n");
            Ok(())
        }
        Some((b"w" | b"W", rest)) => set(rt, s, Kind::Watch, rest),
        _ => ask(rt, s, Kind::Watch, line),
    }
}
