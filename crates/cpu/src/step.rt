// One step.
ghost use Rattle.std.specs.Prelude.{◌≡◌};
ghost use Rattle.word.specs.Word.{low_at, high_at};
ghost use Rattle.isa.specs.Code.{TellsAll};
ghost use Rattle.bus.specs.State.{cpu};
ghost use Rattle.cpu.specs.Step.{executed, step_of};
ghost use Rattle.cpu.specs.Code.{done_quiet, told_of, told_as};

use bus::address;
use bus::state::Board;
use computing::{arithmetic, moving};
use isa::opcode;
use isa::opcode::Op;
use memory::{loading, storing};
use names::register::{F, PC};
use word::sums;

// What a step leaves, beside the lent registers, CSRs and bytes: the rest of the state, how many bytes it wrote through memory, their first address,
// what they wrote over, how many bus bytes.
#[derive(Clone, Copy)]
pub struct Done {
    pub board: Board,
    pub count: u8,
    pub first: u16,
    pub old: u16,
    pub bus: u8,
}

// Nothing was written through memory.
fn quiet(board: Board, bus: u8) -> Done
    ensures { result ≡ done_quiet board bus }
{
    Done {
        board,
        count: 0,
        first: 0,
        old: 0,
        bus,
    }
}

fn execute(
    regs: &mut [u16; 16],
    csrs: &mut [u16; 6],
    ram: &mut [u8],
    b: Board,
    op: Op,
    opcode: u8,
    operands: u8,
) -> Done
    ensures { told_as regs.new csrs.new result ram.new
        ≡ told_of ram.old (executed op (cpu regs.old csrs.old b) ram.old opcode (high_at 4 operands) (low_at 4 operands)) }
{
    let before = regs[F];
    match op {
        Op::Illegal(reason) => quiet(exceptions::raise(regs, csrs, reason, b), 2),
        Op::Alu(x) => {
            arithmetic::compute(regs, x, operands);
            quiet(exceptions::settle(csrs, before, regs[F], b), 2)
        }
        Op::Compare(x) => {
            arithmetic::compare(regs, x, operands);
            quiet(exceptions::settle(csrs, before, regs[F], b), 2)
        }
        Op::Move(x) => {
            moving::transfer(regs, csrs, x, opcode, operands);
            quiet(exceptions::settle(csrs, before, regs[F], b), 2)
        }
        Op::Load(x) => {
            let n = loading::load(regs, b.devices, ram, x, opcode, operands);
            quiet(exceptions::settle(csrs, before, regs[F], b), 2 + n)
        }
        Op::Store(x) => {
            let w = storing::store(regs, b, ram, x, operands);
            let board = exceptions::settle(csrs, before, regs[F], w.board);
            Done {
                board,
                count: w.count,
                first: w.first,
                old: w.old,
                bus: 2 + w.count,
            }
        }
    }
}

// The interrupt or the instruction that is due. The table is lent, since making it costs more than a step; what the step does by another table than
// the one that tells the rules is not said.
pub fn step(
    table: &[u8; 256],
    regs: &mut [u16; 16],
    csrs: &mut [u16; 6],
    ram: &mut [u8],
    b: Board,
) -> Done
    ensures { TellsAll table.now → told_as regs.new csrs.new result ram.new
        ≡ told_of ram.old (step_of (cpu regs.old csrs.old b) ram.old) }
{
    if exceptions::due(regs[F]) {
        exceptions::enter(regs);
        return quiet(b, 0);
    }
    let pc = regs[PC];
    let first = address::read_byte(b.devices, ram, pc);
    let second = address::read_byte(b.devices, ram, sums::plus(pc, 1));
    regs[PC] = sums::plus(pc, 2);
    execute(
        regs,
        csrs,
        ram,
        b,
        opcode::decode(table, first),
        first,
        second,
    )
}
