// Arithmetic and comparison: the unit's answer, and its flags in f.
ghost use Rattle.std.specs.Prelude.{◌≡◌};
ghost use Rattle.word.specs.Word.{low_at, high_at};
ghost use Rattle.computing.specs.Instructions.{flagged, computed, compared};

use alu::{AluOp, CompareOp};
use names::register::F;
use word::bits;

fn put_flags(regs: &mut [u16; 16], flags: u16)
    ensures { regs.new ≡ flagged regs.old flags }
{
    regs[F] = bits::or(bits::and(regs[F], 0xff0f), flags);
}

#[tactic(auto, unfolding(crate::specs::Instructions::computed))]
pub fn compute(regs: &mut [u16; 16], op: AluOp, operands: u8)
    ensures { regs.new ≡ computed op regs.old (high_at 4 operands) (low_at 4 operands) }
{
    let d = (operands / 16) as usize;
    let a = regs[d];
    let b = regs[(operands % 16) as usize];
    let x = alu::compute(op, a, b);
    put_flags(regs, x.flags);
    regs[d] = x.value;
}

#[tactic(auto, unfolding(crate::specs::Instructions::compared))]
pub fn compare(regs: &mut [u16; 16], op: CompareOp, operands: u8)
    ensures { regs.new ≡ compared op regs.old (high_at 4 operands) (low_at 4 operands) }
{
    let a = regs[(operands / 16) as usize];
    let b = regs[(operands % 16) as usize];
    put_flags(regs, alu::compare(op, a, b));
}
