// The newest records: which bytes their inputs stored.
use entries::Met;
use stops::list;
use stops::list::Kind;

// A word of a record; 0 past the journal's end.
fn word_of(record: &[u16], n: usize) -> u16 {
    record.get(n).copied().unwrap_or(0)
}

// The slot before another, in a journal of so many words; the ring's last is before its first.
pub fn before(slot: u16, words: usize) -> u16 {
    if slot == 0 {
        ((words / 32).saturating_sub(1) % 65536) as u16
    } else {
        slot - 1
    }
}

// The stores that the record in a slot tells of: their number in its word 25, 2 at most in a record that a step back takes, and the first address in its word 26.
pub fn stored(slot: u16, journal: &[u16]) -> Met {
    let record = journal.get(32 * usize::from(slot)..).unwrap_or(&[]);
    let count = (word_of(record, 25) % 3) as u8;
    list::met(u16::from(Kind::Watch), count, word_of(record, 26))
}

// The stores of the newest record.
pub fn last(state: &[u16; 32], journal: &[u16]) -> Met {
    stored(before(state[25], journal.len()), journal)
}
