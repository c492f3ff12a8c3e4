// What each input but the step does to the state, where it is accepted.
#![tactic(auto)]

ghost use Rattle.std.specs.Prelude.{◌≡◌, set};
ghost use Rattle.calls.specs.Inputs.{signalled, ticked as ticked_of, received as received_of, sent_off, register_set};

use bus::state::{Cpu, Devices};
use names::register::{F, Reg};
use word::{bits, choice, halves, sums};

// A device sets a bit of f, and H.
fn signal(c: Cpu, flag: u16, v: Devices) -> Cpu
    ensures { result ≡ signalled flag v c }
{
    let mut regs = c.regs;
    let mut csrs = c.csrs;
    regs[F] = bits::or(regs[F], flag);
    csrs[0] = halves::join(halves::low(csrs[0]), 1);
    let mut board = c.board;
    board.devices = v;
    Cpu { regs, csrs, board }
}

pub fn ticked(c: Cpu) -> Cpu
    ensures { result ≡ ticked_of c }
{
    let mut v = c.board.devices;
    v.clock = sums::plus(v.clock, 1);
    signal(c, 0x0400, v)
}

pub fn received(c: Cpu, b: u8) -> Cpu
    ensures { result ≡ received_of b c }
{
    let mut v = c.board.devices;
    v.rxd = b;
    v.r = true;
    signal(c, 0x0800, v)
}

pub fn sent_off(c: Cpu) -> Cpu
    ensures { result ≡ sent_off c }
{
    let mut v = c.board.devices;
    v.t = true;
    signal(c, 0x0800, v)
}

// A number past 15 names no register, and nothing is written. With `get_mut` in place of the test (tried), the proof did not close.
fn written(regs: [u16; 16], number: usize, content: u16) -> [u16; 16]
    ensures { result ≡ set regs number content }
{
    if number < 16 {
        let mut after = regs;
        after[number] = content;
        return after;
    }
    regs
}

pub fn register_set(c: Cpu, register: Reg, content: u16) -> Cpu
    ensures { result ≡ register_set register.number content c }
{
    let before = c.regs;
    let number = register.number as usize;
    let regs = written(before, number, content);
    let csrs = c.csrs;
    let revived = choice::both(number == F, !bits::bit(content, 9));
    let mut board = c.board;
    board.halted = choice::pick(revived, false, board.halted);
    Cpu { regs, csrs, board }
}
