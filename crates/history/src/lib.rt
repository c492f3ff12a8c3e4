// The journal: a ring of slots of 32 words in lent words. What a record says is not known here.
#![tactic(auto)]

pub mod undo;

ghost use Rattle.std.specs.Prelude.{◌≡◌, ◌+◌, ◌-◌, ◌*◌, ◌≤◌, ◌<◌, min, length};
ghost use Rattle.std.proofs.Math.Seq.{paste};
ghost use Rattle.history.specs.Ring.{ring_of, pushed, slot_before, slot_after, slots, slot_words};
ghost use Rattle.history.specs.Code.{readable, newest_of, amended};

// Next slot and records held.
#[derive(Clone, Copy)]
pub struct Place {
    pub next: usize,
    pub held: usize,
}

// A record taken back: its words, and next slot and records held without it.
#[derive(Clone, Copy)]
pub struct TakenBack {
    pub words: [u16; 32],
    pub place: Place,
}

// A slot's 32 words are written, and nothing else.
fn write_slot(journal: &mut [u16], slot: usize, words: [u16; 32])
    requires { slot * 32 + 32 ≤ length journal.old }
    ensures { journal.new ≡ paste journal.old (slot * 32) words 32 }
{
    let at = slot * 32;
    journal[at..at + 32].copy_from_slice(&words);
}

fn slot_after(n: usize, k: usize) -> usize
    requires { k < n }
    ensures { result ≡ slot_after n k }
{
    if k + 1 == n { 0 } else { k + 1 }
}

// One record more, up to the slots.
fn one_more(n: usize, held: usize) -> usize
    ensures { result ≡ min n (held + 1) }
{
    if held < n { held + 1 } else { n }
}

// A record at the next slot, over the oldest if full; nothing where there is no such slot.
#[tactic(auto, unfolding(crate::specs::Ring::pushed))]
pub fn push(journal: &mut [u16], place: Place, words: [u16; 32]) -> Place
    ensures { ring_of journal.new result.next result.held ≡ pushed (slots journal.old) words (ring_of journal.old place.next place.held) }
{
    let n = journal.len() / 32;
    if n <= place.next {
        return place;
    }
    write_slot(journal, place.next, words);
    Place {
        next: slot_after(n, place.next),
        held: one_more(n, place.held),
    }
}

// Three words of a slot, from one of its words on; nothing where the slot does not have all three.
#[tactic(auto, unfolding(crate::specs::Code::amended))]
pub fn amend(journal: &mut [u16], slot: usize, from: usize, x: u16, y: u16, z: u16)
    ensures { journal.new ≡ amended journal.old slot from x y z }
{
    if journal.len() / 32 <= slot || 30 <= from {
        return;
    }
    let at = slot * 32 + from;
    journal[at] = x;
    journal[at + 1] = y;
    journal[at + 2] = z;
}

// The slot of the newest record.
fn newest(n: usize, next: usize) -> usize
    ensures { result ≡ slot_before n next }
{
    if 0 < next {
        next - 1
    } else {
        n.saturating_sub(1)
    }
}

// The 32 words of a slot.
#[tactic(auto, unfolding(crate::specs::Code::readable))]
fn read_slot(journal: &[u16], slot: usize) -> [u16; 32]
    ensures { result ≡ readable journal.now slot }
{
    let mut words = [0; 32];
    if slot < journal.len() / 32 {
        let at = slot * 32;
        words.copy_from_slice(&journal[at..at + 32]);
    }
    words
}

// The newest record's words, and next slot and records held once it is taken back. Whether a record is held is the caller's question.
pub fn pop(journal: &[u16], place: Place) -> TakenBack
    ensures { result ≡ newest_of journal.now place }
{
    let slot = newest(journal.len() / 32, place.next);
    TakenBack {
        words: read_slot(journal, slot),
        place: Place {
            next: slot,
            held: place.held.saturating_sub(1),
        },
    }
}
