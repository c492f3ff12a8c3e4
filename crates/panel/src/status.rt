// The line after step, back, execute and rexecute: where the machine stands.
use crate::view::View;
use console::words;
use text::list;

fn flag(bit: u16, letter: u8) -> u8 {
    if bit % 2 == 1 { letter } else { b'-' }
}

// The flags by their letters.
pub fn flags(rt: &impl Print, f: u16) {
    let marks = [
        flag(f / 256, b'I'),
        flag(f / 512, b'E'),
        flag(f / 1024, b'C'),
        flag(f / 2048, b'K'),
        flag(f / 16, b'z'),
        flag(f / 32, b'c'),
        flag(f / 64, b's'),
        flag(f / 128, b'o'),
        flag(f / 8, b'3'),
        flag(f / 4, b'2'),
        flag(f / 2, b'1'),
        flag(f, b'0'),
    ];
    report::text(rt, &marks);
}

// A word as an instruction; a question mark where its opcode gives reason 2.
pub fn instruction(rt: &impl Print, w: u16) {
    let mut room = [0u8; 16];
    match list::list(w, &mut room) {
        Ok(n) => report::text(rt, words::front(&room, n)),
        Err(_) => report::text(rt, b"?"),
    }
}

fn bar(rt: &impl Print) {
    report::text(rt, b" | ");
}

// The address, the instruction there, and the flags.
pub fn place(rt: &impl Print, view: View) {
    let pc = view.pc();
    report::text(rt, b"pc ");
    report::hex(rt, pc as u64, 4);
    bar(rt);
    instruction(rt, view.word_at(pc));
    bar(rt);
    flags(rt, view.f());
    bar(rt);
}

// What is counted, by its name where it is one and where it is another number.
#[derive(Clone, Copy)]
pub struct Noun {
    pub one: &'static [u8],
    pub more: &'static [u8],
}

impl Noun {
    // A number of it.
    pub fn count(self, rt: &impl Print, n: u64) {
        report::decimal(rt, n);
        report::space(rt);
        match n {
            1 => report::text(rt, self.one),
            _ => report::text(rt, self.more),
        }
    }

    // The same, and of how many that were asked for, where it is fewer.
    fn count_of(self, rt: &impl Print, n: u64, asked: Option<u64>) {
        match asked {
            Some(of) if n < of => {
                report::decimal(rt, n);
                report::text(rt, b" of ");
                self.count(rt, of);
            }
            _ => self.count(rt, n),
        }
    }
}

pub const STEPS: Noun = Noun {
    one: b"step",
    more: b"steps",
};

pub const STEPS_BACK: Noun = Noun {
    one: b"step back",
    more: b"steps back",
};

const BUS_BYTES: Noun = Noun {
    one: b"bus byte",
    more: b"bus bytes",
};

const RECORDS_HELD: Noun = Noun {
    one: b"record held\n",
    more: b"records held\n",
};

// Steps, or steps back, that were done: how many, of how many where a number was asked for; their bus bytes, if they moved bytes; why they stopped, if that is told.
#[derive(Clone, Copy)]
pub struct Walk<'a> {
    pub noun: Noun,
    pub steps: u64,
    pub asked: Option<u64>,
    pub bus: Option<u64>,
    pub cause: Option<&'a [u8]>,
}

fn comma(rt: &impl Print) {
    report::text(rt, b", ");
}

// Where the machine stands after steps, and what is told of them.
pub fn after(rt: &impl Print, view: View, walk: Walk) {
    place(rt, view);
    walk.noun.count_of(rt, walk.steps, walk.asked);
    comma(rt);
    if let Some(n) = walk.bus {
        BUS_BYTES.count(rt, n);
        comma(rt);
    }
    if let Some(cause) = walk.cause {
        report::text(rt, cause);
        comma(rt);
    }
    RECORDS_HELD.count(rt, view.held() as u64);
}
