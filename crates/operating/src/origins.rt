// origin: the last input that changed a byte of memory or a part of the state, found by stepping back in a copy of the memory.
use crate::copies;
use boundary::words;
use machine::Call;
use orders::{Asked, Order};
use stopping::lent;
use stopping::lent::Lent;
use telling::inputs::Input;
use telling::{findings, inputs};

// The records that a journal can hold.
const RECORDS: u16 = 1024;

// The input that changed what is asked about: how many steps back it was, and the state after it.
#[derive(Clone, Copy)]
struct Found {
    records: u16,
    after: [u16; 32],
}

// Steps back in the copy until what is asked about is another; the copy is then as before the input that changed it. None where no record that is held changed
// it. The journal's words stay as they are: a step-back leaves them.
fn searched(asked: Asked, copy: &mut Lent) -> Option<Found> {
    let value = findings::value_in(asked, copy.view());
    for n in 0..RECORDS {
        let after = *copy.state;
        if copy.cross(Call::Back) != 0 {
            return None;
        }
        if findings::value_in(asked, copy.view()) != value {
            return Some(Found {
                records: n + 1,
                after,
            });
        }
    }
    None
}

// Whether a step leads from one state to the other: it is tried in the copy, without a journal.
fn is_step(before: &[u16; 32], after: &[u16; 32], ram: &mut [u8]) -> bool {
    let mut tried = *before;
    tried[25] = 0;
    tried[26] = 0;
    let mut none = [0u16; 1];
    let result = mb50::cross(Call::Step, &mut tried, ram, &mut none[0..0]);
    (result % 0x1_0000 == 0) & inputs::same(&tried, after)
}

// Which input it was; the copy is of the memory before it. Only a poke changes memory and no state; what a step can have done, a step did.
fn between(before: &[u16; 32], after: &[u16; 32], ram: &mut [u8]) -> Input {
    if inputs::same(before, after) {
        return Input::Poke;
    }
    if is_step(before, after, ram) {
        return inputs::stepped(before);
    }
    let start = words::start(bus::state::unprotected());
    inputs::outside(before, after, &start)
}

// What is found is told: what changed, by which input, how long ago. The copy stands as before that input.
fn tell(rt: &impl Print, asked: Asked, found: Found, value: u16, copy: &mut Lent) {
    let view = copy.view();
    let old = findings::value_in(asked, view);
    let pc = view.pc();
    let w = view.word_at(pc);
    findings::tell_change(rt, asked, old, value);
    let before = *copy.state;
    let input = between(&before, &found.after, &mut *copy.ram);
    findings::tell_by(rt, input, w, pc, found.records);
}

// The steps back to just before the input that changed what is asked about, found in a copy and told; None where it is not found, which is told.
fn traced(rt: &impl Print, asked: Asked, whole: &mut Lent) -> Option<u16> {
    let n = whole.ram.len();
    if 65504 < n {
        return None;
    }
    let value = findings::value_in(asked, whole.view());
    let held = whole.view().held();
    let mut state = *whole.state;
    let mut ram = copies::of(&*whole.ram);
    let part = &mut ram[..n];
    let journal = &mut *whole.journal;
    let mut copy = lent::of(&mut state, part, journal);
    let Some(found) = searched(asked, &mut copy) else {
        findings::tell_none(rt, asked, value, held);
        return None;
    };
    tell(rt, asked, found, value, &mut copy);
    Some(found.records)
}

// An order for what origin asks, found and told, if it is found; any other order as it is. No call is made but in a copy of state and memory.
pub fn resolved<'a>(rt: &impl Print, order: Order<'a>, lent: &mut Lent) -> Option<Order<'a>> {
    match order {
        Order::Origin(asked) => Some(Order::Back(traced(rt, asked, lent)?)),
        _ => Some(order),
    }
}
