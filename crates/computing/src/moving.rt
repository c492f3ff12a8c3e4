// Registers and CSRs moved, exchanged and read, and the return from an interrupt.
ghost use Rattle.std.specs.Prelude.{◌≡◌};
ghost use Rattle.word.specs.Word.{low_at, high_at};
ghost use Rattle.computing.specs.Instructions.{csr_read, csr_written, moves, moved, returned};

use isa::condition;
use isa::opcode::MoveOp;
use names::register::{F, IA, PC};
use word::{bits, halves};

fn read_csr(csrs: &[u16; 6], i: usize) -> u16
    ensures { result ≡ csr_read csrs.now i }
{
    csrs.get(i).copied().unwrap_or(0)
}

fn write_csr(csrs: &mut [u16; 6], i: usize, w: u16)
    ensures { csrs.new ≡ csr_written csrs.old i w }
{
    match i {
        0 => csrs[0] = halves::join(halves::low(w), halves::high(csrs[0])),
        1..=5 => csrs[i] = w,
        _ => {}
    }
}

fn return_from(regs: &mut [u16; 16], handler: u16)
    ensures { regs.new ≡ returned regs.old handler }
{
    let ia = regs[IA];
    regs[F] = bits::or(regs[F], 0x0100);
    regs[PC] = ia;
    regs[IA] = handler;
}

#[tactic(auto, unfolding(crate::specs::Instructions::moved))]
pub fn transfer(regs: &mut [u16; 16], csrs: &mut [u16; 6], op: MoveOp, opcode: u8, operands: u8)
    ensures { moves regs.new csrs.new ≡ moved op regs.old csrs.old opcode (high_at 4 operands) (low_at 4 operands) }
{
    let d = (operands / 16) as usize;
    let s = (operands % 16) as usize;
    let a = regs[d];
    let b = regs[s];
    match op {
        MoveOp::Csrr => regs[d] = read_csr(csrs, s),
        MoveOp::Csrw => write_csr(csrs, d, b),
        MoveOp::Exch => {
            regs[d] = b;
            regs[s] = a;
        }
        MoveOp::Mv => regs[d] = b,
        MoveOp::MvIf => {
            if condition::holds(opcode, regs[F]) {
                regs[d] = b;
            }
        }
        MoveOp::Reti => return_from(regs, csrs[1]),
    }
}
