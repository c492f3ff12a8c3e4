// Which input leads from one state to another, by what changed. The journal does not say.
use panel::parts;
use panel::parts::Part;

// A step that changed something was an instruction or the entry to an interrupt; the other inputs come from outside the program.
#[derive(Clone, Copy)]
pub enum Input {
    Instruction,
    Interrupt,
    Poke,
    Tick,
    Key,
    Sent,
    Reset,
    Hand,
}

// Whether two states have the same parts.
pub fn same(a: &[u16; 32], b: &[u16; 32]) -> bool {
    parts::ALL.iter().all(|part| part.value(a) == part.value(b))
}

// A step from this state: where an interrupt is due it enters the handler.
pub fn stepped(before: &[u16; 32]) -> Input {
    let f = parts::f(before);
    if (f / 256 % 2 == 1) & (512 <= f) {
        Input::Interrupt
    } else {
        Input::Instruction
    }
}

// The input from outside that changes registers; the starting state tells a reset.
pub fn outside(before: &[u16; 32], after: &[u16; 32], start: &[u16; 32]) -> Input {
    let is_raised = |part: Part| part.value(before) < part.value(after);
    if same(after, start) {
        Input::Reset
    } else if Part::Clock.value(before) != Part::Clock.value(after) {
        Input::Tick
    } else if is_raised(Part::R) {
        Input::Key
    } else if is_raised(Part::T) {
        Input::Sent
    } else {
        Input::Hand
    }
}
