// The inputs but the step, once the checks are passed: each with its own refusal, or the next state and one record more.
#![tactic(auto)]

ghost use Rattle.std.specs.Prelude.{◌≡◌, List, ℕ};
ghost use Rattle.history.specs.Trace.{give, gave};
ghost use Rattle.history.specs.Ring.{ring_of, pushed, slots};
ghost use Rattle.records.specs.Record.{record_with};
ghost use Rattle.calls.specs.Inputs.{Input, quietly, machine};
ghost use Rattle.calls.specs.Calls.{journal_of, world_of, replied};
ghost use Rattle.calls.specs.Code.{Acts};

use bus::state::Cpu;
use calls::checks;
use calls::state::{Answer, Machine, Refusal, Reply};
use history::Place;
use names::register::Reg;
use word::halves;

// The record of an input, from the state before it.
fn keep(m: Machine, journal: &mut [u16], count: u8, first: u16, old: u16) -> Place
    ensures { ring_of journal.new result.next result.held
        ≡ pushed (slots journal.old) (record_with m.cpu count first old) (ring_of journal.old m.next m.held) }
{
    let c = m.cpu;
    let g = c.regs;
    let k = c.csrs;
    let b = c.board;
    let v = b.devices;
    let words = records::encode(g, k, v, b.halted, count, first, old);
    history::push(
        journal,
        Place {
            next: m.next,
            held: m.held,
        },
        words,
    )
}

// An accepted input that writes nothing through memory.
fn accept(m: Machine, c: Cpu, journal: &mut [u16]) -> Reply
    ensures { (ram : List ℕ) → gave machine (journal_of m.cpu.board.stretch) (world_of m ram journal.old) 0 (quietly c ram) ≡ replied result ram journal.new }
{
    let p = keep(m, journal, 0, 0, 0);
    Reply {
        answer: Answer::Accepted,
        machine: Machine {
            cpu: c,
            next: p.next,
            held: p.held,
        },
    }
}

pub fn tick(m: Machine, journal: &mut [u16]) -> Reply
    ensures { (ram : List ℕ) → Acts (give Input.tick) m ram journal.old result ram journal.new }
{
    accept(m, effects::ticked(m.cpu), journal)
}

pub fn receive(m: Machine, journal: &mut [u16], byte: u8) -> Reply
    ensures { (ram : List ℕ) → Acts (give (Input.receive byte)) m ram journal.old result ram journal.new }
{
    if m.cpu.board.devices.r {
        return checks::refused(m, Refusal::NotReady);
    }
    accept(m, effects::received(m.cpu, byte), journal)
}

// Of `receive` only the question and the call of `accept` are alike: a function for both would need a contract longer than the two bodies.
pub fn sent(m: Machine, journal: &mut [u16]) -> Reply
    ensures { (ram : List ℕ) → Acts (give Input.sent) m ram journal.old result ram journal.new }
{
    if m.cpu.board.devices.t {
        return checks::refused(m, Refusal::NotReady);
    }
    accept(m, effects::sent_off(m.cpu), journal)
}

pub fn set_register(m: Machine, journal: &mut [u16], number: u8, content: u16) -> Reply
    ensures { (ram : List ℕ) → Acts (give (Input.set_register number content)) m ram journal.old result ram journal.new }
{
    let Some(register) = Reg::from_number(number) else {
        return checks::refused(m, Refusal::NoRegister);
    };
    accept(m, effects::register_set(m.cpu, register, content), journal)
}

pub fn poke(m: Machine, ram: &mut [u8], journal: &mut [u16], address: u16, byte: u8) -> Reply
    ensures { Acts (give (Input.poke address byte)) m ram.old journal.old result ram.new journal.new }
{
    let a = address as usize;
    if ram.len() <= a {
        return checks::refused(m, Refusal::NotRam);
    }
    let old = halves::join(ram[a], 0);
    let p = keep(m, journal, 1, address, old);
    ram[a] = byte;
    let c = m.cpu;
    Reply {
        answer: Answer::Accepted,
        machine: Machine {
            cpu: c,
            next: p.next,
            held: p.held,
        },
    }
}

pub fn reset(m: Machine, journal: &mut [u16]) -> Reply
    ensures { (ram : List ℕ) → Acts (give Input.resets) m ram journal.old result ram journal.new }
{
    let before = m.cpu;
    let board = before.board;
    let fresh = bus::state::reset(board.stretch);
    accept(m, fresh, journal)
}
