// What a call answers and leaves, and the lent bytes and words, absorbed one by one.
use bus::state::Board;
use calls::state::{Answer, Machine, Refusal, Run, Stop};
use entries::Points;
use watching::{Ending, Told};
use word::{choice, halves};

// A refusal's number, steps, bus bytes, and why a run stopped.
fn numbers(h: u64, number: u8, steps: u16, bus: u32, cause: u16) -> u64 {
    let low = (bus % 65536) as u16;
    let high = (bus / 65536) as u16;
    report::absorb_words(h, &[u16::from(number), steps, low, high, cause])
}

// The causes by the vectors' own numbers, which no library has: so no `From` of theirs.
fn cause(stop: Stop) -> u16 {
    match stop {
        Stop::Budget => 1,
        Stop::Halted => 2,
    }
}

fn ran(h: u64, run: Run) -> u64 {
    numbers(h, 0, run.steps, run.bus, cause(run.stop))
}

fn refused(h: u64, why: Refusal) -> u64 {
    numbers(h, u8::from(why), 0, 0, 0)
}

fn answered(h: u64, answer: Answer) -> u64 {
    match answer {
        Answer::Accepted => numbers(h, 0, 0, 0, 0),
        Answer::Stepped(bus) => numbers(h, 0, 1, bus, 0),
        Answer::Ran(run) => ran(h, run),
        Answer::Refused(why) => refused(h, why),
    }
}

fn marks(b: Board) -> u16 {
    choice::weigh(b.devices.r, 1) + choice::weigh(b.devices.t, 2) + choice::weigh(b.halted, 4)
}

fn left(h: u64, m: Machine) -> u64 {
    let c = m.cpu;
    let b = c.board;
    let v = b.devices;
    let p = b.stretch;
    let others = [
        v.clock,
        halves::join(v.rxd, v.txd),
        marks(b),
        (m.next % 65536) as u16,
        (m.held % 65536) as u16,
        p.first,
        p.last,
    ];
    let registers = report::absorb_words(report::absorb_words(h, &c.regs), &c.csrs);
    report::absorb_words(registers, &others)
}

pub fn called(h: u64, answer: Answer, m: Machine) -> u64 {
    left(answered(h, answer), m)
}

fn ended(ending: Ending) -> u16 {
    match ending {
        Ending::Refused => 0,
        Ending::Budget => 1,
        Ending::Halted => 2,
        Ending::Watch => 3,
        Ending::Break => 4,
    }
}

pub fn ended_run(h: u64, number: u8, told: Told, m: Machine) -> u64 {
    let why = numbers(h, number, told.steps, told.bus, ended(told.ending));
    left(report::absorb(why, (told.place % 65536) as u16), m)
}

// All 64 entries, lent or not: their addresses, then their kinds, then their hits.
pub fn listed(h: u64, l: &Points) -> u64 {
    let count = report::absorb(h, (l.count % 65536) as u16);
    let addresses = l
        .entries
        .iter()
        .fold(count, |h, e| report::absorb(h, e.address));
    let kinds = l
        .entries
        .iter()
        .fold(addresses, |h, e| report::absorb(h, e.kind));
    l.entries
        .iter()
        .fold(kinds, |h, e| report::absorb(h, e.hits))
}
