// Loads.
ghost use Rattle.std.specs.Prelude.{◌≡◌, cond, ◌<◌, ◌≤◌, set};
ghost use Rattle.word.specs.Word.{join_at, low_at, high_at};
ghost use Rattle.bus.specs.State.{word as word_in};
ghost use Rattle.bus.specs.Addresses.{byte_at, word_at};
ghost use Rattle.memory.specs.Instructions.{loads, loaded, plus2};
ghost use Rattle.memory.specs.Code.{loads_byte, goes as goes_if, steps_after, steps_past};

use bus::address;
use bus::state::Devices;
use isa::condition;
use isa::opcode::LoadOp;
use names::register::F;
use word::{halves, sums};

fn load_word(regs: &mut [u16; 16], v: Devices, ram: &[u8], d: usize, at: u16)
    requires { d < 16 }
    ensures { regs.new ≡ set regs.old d (word_at v ram.now at) }
{
    regs[d] = address::read_word(v, ram, at);
}

fn load_byte(regs: &mut [u16; 16], v: Devices, ram: &[u8], d: usize, at: u16)
    requires { d < 16 }
    ensures { regs.new ≡ set regs.old d (join_at 8 (byte_at v ram.now at) (high_at 8 (word_in regs.old d))) }
{
    regs[d] = halves::join(address::read_byte(v, ram, at), halves::high(regs[d]));
}

// `storing::sub2_if` is the same but for the sum: a step handed in as a closure is longer at each call, and no plainer.
fn add2_if(regs: &mut [u16; 16], i: usize, gains: bool)
    requires { i < 16 }
    ensures { regs.new ≡ cond gains (plus2 regs.old i) regs.old }
{
    if gains {
        regs[i] = sums::plus(regs[i], 2);
    }
}

fn loads_byte(op: LoadOp) -> bool
    ensures { result ≡ loads_byte op }
{
    matches!(op, LoadOp::Ldb)
}

fn goes(op: LoadOp, held: bool) -> bool
    ensures { result ≡ goes_if op held }
{
    match op {
        LoadOp::Ld | LoadOp::Ldb | LoadOp::Ldis => true,
        LoadOp::LdIf | LoadOp::LdisIf => held,
    }
}

fn steps_after(op: LoadOp) -> bool
    ensures { result ≡ steps_after op }
{
    matches!(op, LoadOp::Ldis)
}

fn steps_past(op: LoadOp) -> bool
    ensures { result ≡ steps_past op }
{
    matches!(op, LoadOp::LdisIf)
}

// It answers the bytes loaded. The word has one load, under one test: with a load for each operation the compiler makes calls and a second jump of them.
#[tactic(auto, unfolding(crate::specs::Instructions::loaded))]
pub fn load(
    regs: &mut [u16; 16],
    v: Devices,
    ram: &[u8],
    op: LoadOp,
    opcode: u8,
    operands: u8,
) -> u8
    ensures regs_after { loads regs.new result ≡ loaded op regs.old v ram.now opcode (high_at 4 operands) (low_at 4 operands) }
    ensures few { result ≤ 2 }
{
    let d = (operands / 16) as usize;
    let s = (operands % 16) as usize;
    let at = regs[s];
    if loads_byte(op) {
        load_byte(regs, v, ram, d, at);
        return 1;
    }
    if goes(op, condition::holds(opcode, regs[F])) {
        load_word(regs, v, ram, d, at);
        add2_if(regs, s, steps_after(op));
        return 2;
    }
    add2_if(regs, s, steps_past(op));
    0
}
