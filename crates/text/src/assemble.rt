// The word of a line, as `mv r1, r2`.
ghost use Rattle.std.specs.Prelude.{◌≡◌, ◌+◌, ◌*◌, ◌≤◌, eqb};
ghost use Rattle.isa.specs.Opcode.{opcode_named};
ghost use Rattle.text.specs.Answer.{assembled_as};
ghost use Rattle.text.specs.Assembling.{operand_of, with_mnemonic, assemble_says};

use grammar::line;
use isa::opcode;
use names::register::{Csr, Reg};

// Why a line has no word: refusal 12, 13 or 14.
#[derive(Clone, Copy)]
pub enum NoWord {
    BadLine,
    BadMnemonic,
    BadOperand,
}

// An operand: a CSR where the opcode is the chosen one, else a register.
fn find_operand(code: u8, chosen: u8, name: &[u8]) -> Option<u8>
    ensures { result ≡ operand_of (eqb code chosen) name.now }
{
    if code == chosen {
        Csr::from_name(name).map(|c| c.number)
    } else {
        Reg::from_name(name).map(|r| r.number)
    }
}

// The word of an opcode and two operands.
fn encode(code: u8, d: u8, s: u8) -> u16
    requires { (d ≤ 15) × (s ≤ 15) }
    ensures { result ≡ code + 256 * (16 * d + s) }
{
    u16::from(code) + 256 * (16 * u16::from(d) + u16::from(s))
}

// The word of a mnemonic and two operands.
fn assemble_words(m: &[u8], d: &[u8], s: &[u8]) -> Result<u16, NoWord>
    ensures { assembled_as result ≡ with_mnemonic (opcode_named m.now) d.now s.now }
{
    let code = opcode::named(m).ok_or(NoWord::BadMnemonic)?;
    let d = find_operand(code, 4, d).ok_or(NoWord::BadOperand)?;
    let s = find_operand(code, 3, s).ok_or(NoWord::BadOperand)?;
    Ok(encode(code, d, s))
}

// The word of a line, as `mv r1, r2`; 12, 13 or 14 where it is none.
pub fn assemble(line: &[u8]) -> Result<u16, NoWord>
    ensures { assembled_as result ≡ assemble_says line.now }
{
    let words = line::match_line(line).ok_or(NoWord::BadLine)?;
    assemble_words(
        words.mnemonic.of(line),
        words.first.of(line),
        words.second.of(line),
    )
}
