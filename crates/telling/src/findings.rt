// What origin found, told.
use crate::inputs::Input;
use orders::Asked;
use panel::status::Noun;
use panel::view::View;
use panel::{changes, status};

// What is asked about, as it is.
pub fn value_in(asked: Asked, view: View) -> u16 {
    match asked {
        Asked::Byte(a) => view.ram.get(a as usize).copied().unwrap_or(0) as u16,
        Asked::Part(part) => part.value(view.state),
    }
}

fn name(rt: &impl Print, asked: Asked) {
    match asked {
        Asked::Byte(a) => changes::place_name(rt, a),
        Asked::Part(part) => report::text(rt, part.name()),
    }
}

fn width(asked: Asked) -> usize {
    match asked {
        Asked::Byte(_) => 2,
        Asked::Part(_) => 4,
    }
}

// The instruction at pc, or the entry there, or an input from outside.
fn tell_input(rt: &impl Print, input: Input, w: u16, pc: u16) {
    match input {
        Input::Instruction => status::instruction(rt, w),
        Input::Interrupt => report::text(rt, b"the entry to an interrupt"),
        Input::Poke => report::text(rt, b"a poke"),
        Input::Tick => report::text(rt, b"a tick"),
        Input::Key => report::text(rt, b"a byte from the keyboard"),
        Input::Sent => report::text(rt, b"sent"),
        Input::Reset => report::text(rt, b"reset"),
        Input::Hand => report::text(rt, b"hand"),
    }
    if let Input::Instruction | Input::Interrupt = input {
        report::text(rt, b" at ");
        report::hex(rt, pc as u64, 4);
    }
}

// What changed, from and to what.
pub fn tell_change(rt: &impl Print, asked: Asked, old: u16, new: u16) {
    name(rt, asked);
    changes::arrow(rt, old, new, width(asked));
}

// By which input at pc, how long ago.
pub fn tell_by(rt: &impl Print, input: Input, w: u16, pc: u16, records: u16) {
    let noun = Noun {
        one: b"record ago\n",
        more: b"records ago\n",
    };
    report::text(rt, b" by ");
    tell_input(rt, input, w, pc);
    report::text(rt, b", ");
    noun.count(rt, records as u64);
}

// That no record changed it.
pub fn tell_none(rt: &impl Print, asked: Asked, value: u16, held: u16) {
    name(rt, asked);
    report::text(rt, b" is ");
    report::hex(rt, value as u64, width(asked));
    report::text(rt, b"; none of the ");
    report::decimal(rt, held as u64);
    report::text(rt, b" records held changed it\n");
}
