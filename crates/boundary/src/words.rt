// The machine as 32 words, and back.
ghost use Rattle.std.specs.Prelude.{◌≡◌, List, ℕ};
ghost use Rattle.calls.specs.Calls.{replied};
ghost use Rattle.boundary.specs.Boundary.{start_words, stretch_in, taken as taken_from, given_but, crossed, leaves};

use crate::fields;
use bus::state::Stretch;
use calls::state::{Machine, Reply};

// The words of the starting state.
pub fn start(stretch: Stretch) -> [u16; 32]
    ensures { result ≡ start_words stretch }
{
    let mut words = [0u16; 32];
    words[24] = 2;
    words[30] = stretch.first;
    words[31] = stretch.last;
    words
}

// The protected addresses that the words say.
fn stretch(words: [u16; 32]) -> Stretch
    ensures { result ≡ stretch_in words }
{
    Stretch {
        first: words[30],
        last: words[31],
    }
}

// The machine that the words say. They stand as in a journal record, with next slot and records held in the places of the bytes written and
// their first address.
pub fn taken(words: [u16; 32]) -> Machine
    ensures { result ≡ taken_from words }
{
    let b = records::decode(words, stretch(words));
    let c = b.cpu;
    Machine {
        cpu: c,
        next: b.count as usize,
        held: b.first as usize,
    }
}

// The words of a machine, but for its protected addresses: they are written into the lent words at the end, since two words written into a copy of them
// would be read back at once as part of eight bytes, which is slow.
fn given(m: Machine) -> [u16; 32]
    ensures { result ≡ given_but m.cpu m.next m.held }
{
    let c = m.cpu;
    let g = c.regs;
    let k = c.csrs;
    let b = c.board;
    let v = b.devices;
    let mut words = records::encode(g, k, v, b.halted, 0, (m.held % 65536) as u16, 0);
    words[25] = (m.next % 65536) as u16;
    words
}

// The words of the machine where the call was accepted, and the answer as one number.
pub fn answer(state: &mut [u16; 32], r: Reply) -> u64
    ensures { (ram ws : List ℕ) → crossed state.old (replied r ram ws) ≡ leaves result state.new ram ws }
{
    let a = r.answer;
    let m = r.machine;
    if fields::is_refusal(a) {
        return fields::said(a);
    }
    let words = given(m);
    let c = m.cpu;
    let b = c.board;
    *state = words;
    state[30] = b.stretch.first;
    state[31] = b.stretch.last;
    fields::said(a)
}
