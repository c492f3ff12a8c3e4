// The list of watched runs: entries with their hits, of which a run takes no notice. Kinds 21 and 22 arrange it.
use entries::{Met, Points};

pub fn set_entry(l: &mut Points, place: u8, address: u16, kind: u16) {
    let i = usize::from(place % 64);
    l.entries[i].address = address;
    l.entries[i].kind = kind;
}

pub fn set_hits(l: &mut Points, place: u8, hits: u16) {
    l.entries[usize::from(place % 64)].hits = hits;
}

// The hits of the lent entries that are met rise by one.
pub fn mark(l: &mut Points, x: Met) {
    let n = l.count.min(64);
    entries::mark(&mut l.entries[..n], x);
}
