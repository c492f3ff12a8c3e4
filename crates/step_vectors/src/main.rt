// Steps every instruction word from the independent model's states; the digests that it prints are compared with the model's.
#![tactic(auto)]

mod digest;
mod states;

ghost use Rattle.std.specs.Prelude.{◌≡◌, length};

use bus::state::Cpu;
use cpu::step;
use isa::opcode;
use names::register::PC;
use report::input;

// The states that are read. After them each is the state after a reset, with a RAM that is filled from 0.
const READ: usize = 1072;

// The `ensures` gives only the length, so that no proof writes the zeros out.
fn room() -> [u8; 65536]
    ensures { 65536 ≡ length result }
{
    [0u8; 65536]
}

// One instruction word from a state; RAM runs on from word to word.
fn one_word(h: u64, table: &[u8; 256], c: Cpu, ram: &mut [u8], word: u16) -> u64 {
    let mut regs = c.regs;
    let mut csrs = c.csrs;
    let mut b = c.board;
    let v = b.devices;
    b.devices = states::placed(v, ram, regs[PC], word);
    let q = step::step(table, &mut regs, &mut csrs, ram, b);
    digest::stepped(h, regs, csrs, q, ram)
}

fn every_word(table: &[u8; 256], c: Cpu, ram: &mut [u8]) -> u64 {
    let mut h: u64 = 1;
    for word in 0..=u16::MAX {
        h = one_word(h, table, c, ram, word);
    }
    report::absorb_bytes(h, ram)
}

fn one_state(table: &[u8; 256], state: &[u8], is_read: bool, buffer: &mut [u8]) -> u64 {
    let size = states::ram_length(state, buffer.len());
    let ram = &mut buffer[..size];
    if !is_read {
        states::fill(ram, 0);
        return every_word(table, bus::state::reset(bus::state::unprotected()), ram);
    }
    states::fill(ram, states::fill_byte(state));
    every_word(table, states::cpu(state), ram)
}

// A line for each state.
fn run(rt: &impl Print, table: &[u8; 256], input: &[u8], buffer: &mut [u8]) {
    for (n, state) in input.chunks(states::SIZE).enumerate() {
        let h = one_state(table, state, n < READ, buffer);
        report::decimal(rt, n as u64);
        report::space(rt);
        report::hex(rt, h, 8);
        report::end(rt);
    }
}

fn main(rt: HostRuntime) {
    let mut states = room();
    let mut buffer = room();
    let table = opcode::table();
    let n = input::read_full(&mut rt.stdin(), &mut states);
    run(&rt, &table, &states[..n], &mut buffer);
}
