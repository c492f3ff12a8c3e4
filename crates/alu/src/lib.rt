// The arithmetic unit: the value and the flags of every computational instruction.
#![tactic(auto)]

ghost use Rattle.std.specs.Prelude.{◌≡◌, ◌-◌, ◌%◌, ◌≤◌};
ghost use Rattle.std.specs.Bool.{xor};
ghost use Rattle.word.specs.Bits.{bit_at};
ghost use Rattle.alu.specs.Unit.{flags_of, answer_as, add_of, sub_of, logic_of, last_out, shl_of, shr_of, shra_of, alu_of, compare_of};

use word::{bits, choice, signed, sums};

#[derive(Clone, Copy)]
pub enum AluOp {
    Add,
    And,
    Dec1,
    Dec2,
    Inc1,
    Inc2,
    Not,
    Or,
    Rev,
    Shl,
    Shr,
    Shra,
    Sub,
    Xor,
}

#[derive(Clone, Copy)]
pub enum CompareOp {
    Cmpu,
    Cmps,
}

// A value, and z, c, s, o at their places in f.
#[derive(Clone, Copy)]
pub struct Answer {
    pub value: u16,
    pub flags: u16,
}

fn flags(z: bool, c: bool, s: bool, o: bool) -> u16
    ensures { result ≡ flags_of z c s o }
{
    choice::weigh(z, 16) + choice::weigh(c, 32) + choice::weigh(s, 64) + choice::weigh(o, 128)
}

// What an operation finds: z and s, which go by the value, are not yet made.
#[derive(Clone, Copy)]
struct Outcome {
    value: u16,
    c: bool,
    o: bool,
}

#[tactic(auto, unfolding(crate::specs::Unit::add_of))]
fn add(a: u16, b: u16) -> Outcome
    ensures { answer_as result ≡ add_of a b }
{
    Outcome {
        value: sums::plus(a, b),
        c: 65536 <= a as u32 + b as u32,
        o: signed::sum_overflows(a, b),
    }
}

#[tactic(auto, unfolding(crate::specs::Unit::sub_of))]
fn sub(a: u16, b: u16) -> Outcome
    ensures { answer_as result ≡ sub_of a b }
{
    Outcome {
        value: sums::minus(a, b),
        c: a < b,
        o: signed::difference_overflows(a, b),
    }
}

#[tactic(auto, unfolding(crate::specs::Unit::logic_of))]
fn logic(v: u16) -> Outcome
    ensures { answer_as result ≡ logic_of v }
{
    Outcome {
        value: v,
        c: false,
        o: false,
    }
}

// The last bit that a shift by n to the left puts out. It then stands just above the word, where a shift by 0 has put nothing: 0 is no case of its own.
fn last_left(a: u16, n: u16) -> bool
    requires { n ≤ 16 }
    ensures { result ≡ last_out a n (16 - n) }
{
    ((a as u32) << n) / 65536 % 2 == 1
}

// To the right. There it would stand just below the word; so the word is doubled first, which leaves a 0 there for a shift by 0.
#[tactic(auto, using(crate::proofs::LastOut::under))]
fn last_right(a: u16, n: u16) -> bool
    requires { n ≤ 16 }
    ensures { result ≡ last_out a n (n - 1) }
{
    ((a as u32 * 2) >> n) % 2 == 1
}

// What a shift has put out and left of a word; it overflows where the sign is another one.
fn shifted(a: u16, value: u16, last: bool) -> Outcome
    ensures value { result.value ≡ value }
    ensures carry { result.c ≡ last }
    ensures overflow { result.o ≡ xor (bit_at a 15) (bit_at value 15) }
{
    Outcome {
        value,
        c: last,
        o: choice::unlike(bits::bit(a, 15), bits::bit(value, 15)),
    }
}

#[tactic(auto, unfolding(crate::specs::Unit::shl_of))]
fn shl(a: u16, by: u16) -> Outcome
    ensures { answer_as result ≡ shl_of a (by % 16) }
{
    shifted(a, bits::shl(a, by), last_left(a, by % 16))
}

#[tactic(auto, unfolding(crate::specs::Unit::shr_of))]
fn shr(a: u16, by: u16) -> Outcome
    ensures { answer_as result ≡ shr_of a (by % 16) }
{
    shifted(a, bits::shr(a, by), last_right(a, by % 16))
}

#[tactic(auto, unfolding(crate::specs::Unit::shra_of))]
fn shra(a: u16, by: u16) -> Outcome
    ensures { answer_as result ≡ shra_of a (by % 16) }
{
    let n = by % 16;
    Outcome {
        value: bits::shra(a, by),
        c: last_right(a, n),
        o: choice::both(n == 1, a == 65535),
    }
}

#[tactic(auto, unfolding(crate::specs::Unit::alu_of))]
fn operate(op: AluOp, d: u16, s: u16) -> Outcome
    ensures { answer_as result ≡ alu_of op d s }
{
    match op {
        AluOp::Add => add(d, s),
        AluOp::And => logic(bits::and(d, s)),
        AluOp::Dec1 => sub(s, 1),
        AluOp::Dec2 => sub(s, 2),
        AluOp::Inc1 => add(s, 1),
        AluOp::Inc2 => add(s, 2),
        AluOp::Not => logic(bits::not(s)),
        AluOp::Or => logic(bits::or(d, s)),
        AluOp::Rev => logic(bits::rev(s)),
        AluOp::Shl => shl(d, s),
        AluOp::Shr => shr(d, s),
        AluOp::Shra => shra(d, s),
        AluOp::Sub => sub(d, s),
        AluOp::Xor => logic(bits::xor(d, s)),
    }
}

// The value and the flags of an operation on the destination's and the source's words. The flags are made in this one place, once for
// all operations, which also keeps the compiled step small.
pub fn compute(op: AluOp, d: u16, s: u16) -> Answer
    ensures { result ≡ alu_of op d s }
{
    let found = operate(op, d, s);
    let v = found.value;
    Answer {
        value: v,
        flags: flags(v == 0, found.c, bits::bit(v, 15), found.o),
    }
}

// The flags of a comparison, which stores no value.
#[tactic(auto, unfolding(crate::specs::Unit::compare_of))]
pub fn compare(op: CompareOp, d: u16, s: u16) -> u16
    ensures { result ≡ compare_of op d s }
{
    match op {
        CompareOp::Cmpu => flags(d == s, d <= s, d < s, false),
        CompareOp::Cmps => flags(d == s, signed::at_most(d, s), signed::below(d, s), false),
    }
}
