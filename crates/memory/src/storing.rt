// Stores, with the bytes that they write over.
ghost use Rattle.std.specs.Prelude.{◌≡◌, cond, List, ℕ, ◌<◌, ◌≤◌};
ghost use Rattle.word.specs.Word.{low_at, high_at};
ghost use Rattle.word.specs.Memory.{byte_in};
ghost use Rattle.bus.specs.Addresses.{bus as bus_at, put_byte, put_word};
ghost use Rattle.memory.specs.Instructions.{stores, minus2, stored};
ghost use Rattle.memory.specs.Code.{lowers as lowers_first, stores_byte, over_of, over_as};

use bus::address;
use bus::state::Board;
use isa::opcode::StoreOp;
use word::{halves, sums};

// What a store leaves, beside the lent registers and bytes.
#[derive(Clone, Copy)]
pub struct Written {
    pub board: Board,
    pub count: u8,
    pub first: u16,
    pub old: u16,
}

fn old_byte(ram: &[u8], a: u16) -> u8
    ensures { result ≡ byte_in ram.now a }
{
    ram.get(usize::from(a)).copied().unwrap_or(0)
}

#[tactic(auto, unfolding(word::specs::Memory::old_bytes))]
fn store_word(b: Board, ram: &mut [u8], a: u16, w: u16) -> Written
    ensures state_after { (g : List ℕ) → over_as g result ram.new ≡ over_of ram.old (stores g (put_word (bus_at b ram.old) a w) 2 a) }
    ensures few { result.count ≤ 2 }
{
    let old = halves::join(old_byte(ram, a), old_byte(ram, sums::plus(a, 1)));
    Written {
        board: address::write_word(b, ram, a, w),
        count: 2,
        first: a,
        old,
    }
}

#[tactic(auto, unfolding(word::specs::Memory::old_bytes))]
fn store_byte(b: Board, ram: &mut [u8], a: u16, x: u8) -> Written
    ensures state_after { (g : List ℕ) → over_as g result ram.new ≡ over_of ram.old (stores g (put_byte (bus_at b ram.old) a x) 1 a) }
    ensures few { result.count ≤ 2 }
{
    let old = halves::join(old_byte(ram, a), 0);
    Written {
        board: address::write_byte(b, ram, a, x),
        count: 1,
        first: a,
        old,
    }
}

fn sub2_if(regs: &mut [u16; 16], i: usize, loses: bool)
    requires { i < 16 }
    ensures { regs.new ≡ cond loses (minus2 regs.old i) regs.old }
{
    if loses {
        regs[i] = sums::minus(regs[i], 2);
    }
}

fn lowers(op: StoreOp) -> bool
    ensures { result ≡ lowers_first op }
{
    matches!(op, StoreOp::Ddsto)
}

fn stores_byte(op: StoreOp) -> bool
    ensures { result ≡ stores_byte op }
{
    matches!(op, StoreOp::Stob)
}

// One store of a word for sto and ddsto, as `load` has one load of a word.
pub fn store(regs: &mut [u16; 16], b: Board, ram: &mut [u8], op: StoreOp, operands: u8) -> Written
    ensures state_after { over_as regs.new result ram.new ≡ over_of ram.old (stored op regs.old b ram.old (high_at 4 operands) (low_at 4 operands)) }
    ensures few { result.count ≤ 2 }
{
    let d = (operands / 16) as usize;
    let s = (operands % 16) as usize;
    sub2_if(regs, d, lowers(op));
    let a = regs[d];
    let w = regs[s];
    if stores_byte(op) {
        return store_byte(b, ram, a, halves::low(w));
    }
    store_word(b, ram, a, w)
}
