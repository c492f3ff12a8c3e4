// When an interrupt is due, its entry, and the end of an instruction, illegal or legal.
#![tactic(auto)]

ghost use Rattle.std.specs.Prelude.{◌≡◌};
ghost use Rattle.bus.specs.State.{cpu, with_halted};
ghost use Rattle.exceptions.specs.Exceptions.{due as is_due, entered, illegal, settled_csrs, settled_halt};

use bus::state::Board;
use names::register::{F, IA, PC};
use word::{bits, choice, halves};

#[tactic(auto, unfolding(crate::specs::Exceptions::due))]
pub fn due(f: u16) -> bool
    ensures { result ≡ is_due f }
{
    choice::both(bits::bit(f, 8), 0 < f / 512)
}

// The interrupt's whole step.
#[tactic(auto, unfolding(crate::specs::Exceptions::entered))]
pub fn enter(regs: &mut [u16; 16])
    ensures { regs.new ≡ entered regs.old }
{
    let pc = regs[PC];
    let ia = regs[IA];
    regs[F] = bits::and(regs[F], 0xfeff);
    regs[PC] = ia;
    regs[IA] = pc;
}

// An illegal opcode.
#[tactic(auto, unfolding(crate::specs::Exceptions::illegal))]
pub fn raise(regs: &mut [u16; 16], csrs: &mut [u16; 6], reason: u8, b: Board) -> Board
    ensures { cpu regs.new csrs.new result ≡ illegal reason (cpu regs.old csrs.old b) }
{
    let f = regs[F];
    regs[F] = bits::or(f, 0x0200);
    csrs[0] = halves::join(reason, 1);
    Board {
        halted: choice::either(!bits::bit(f, 8), b.halted),
        ..b
    }
}

// The end of a legal instruction, from f before and after it. Most turn no such bit on, and leave at once.
#[tactic(auto, unfolding(crate::specs::Exceptions::settled_csrs, crate::specs::Exceptions::settled_halt))]
pub fn settle(csrs: &mut [u16; 6], before: u16, f: u16, b: Board) -> Board
    ensures { (csrs.new ≡ settled_csrs before f csrs.old) × (result ≡ with_halted b (settled_halt before f b.halted)) }
{
    let on = bits::and(f, bits::not(before));
    if on / 512 == 0 {
        return b;
    }
    csrs[0] %= 256;
    let halts = choice::both(bits::bit(on, 9), !bits::bit(f, 8));
    Board {
        halted: choice::either(halts, b.halted),
        ..b
    }
}
