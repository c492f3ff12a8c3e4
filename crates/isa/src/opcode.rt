// What each opcode byte is, for stepping, listing and assembling alike: one table tells each byte's kind, and what is of a kind has one operation.
ghost use Rattle.std.specs.Prelude.{◌≡◌, ◌%◌, get_or};
ghost use Rattle.isa.specs.Opcode.{opcode_named};
ghost use Rattle.isa.specs.Code.{kind_op, kind_names, kind_name, flag_keys, flag_key, ended, under, op_in, name_in, TellsAll, Marked, CanOnlyBe};

use alu::{AluOp, CompareOp};
use names::keys;

#[derive(Clone, Copy)]
pub enum MoveOp {
    Csrr,
    Csrw,
    Exch,
    Mv,
    MvIf,
    Reti,
}

#[derive(Clone, Copy)]
pub enum LoadOp {
    Ld,
    Ldb,
    Ldis,
    LdIf,
    LdisIf,
}

#[derive(Clone, Copy)]
pub enum StoreOp {
    Sto,
    Stob,
    Ddsto,
}

// An operation; an illegal one with its reason, by the number that the machine stores of it.
#[derive(Clone, Copy)]
pub enum Op {
    Illegal(u8),
    Alu(AluOp),
    Compare(CompareOp),
    Move(MoveOp),
    Load(LoadOp),
    Store(StoreOp),
}

// The kind of each opcode byte: 0 gives reason 2; 1 to 3 are `ld`, `ld..is` and `mv` under a condition; from 4 on the plain mnemonics, by their opcodes.
// A kind is a number, since `decode` and `mnemonic` take any 256 bytes as a table, and `op_in` and `name_in` say what they make of each.
static TABLE: [u8; 256] = [
    4, 5, 6, 7, 8, 9, 10, 11, 12, 13, 14, 15, 16, 0, 17, 0, 18, 19, 20, 21, 22, 23, 24, 25, 26, 27,
    28, 29, 30, 31, 0, 0, 0, 0, 0, 0, 0, 0, 0, 0, 0, 0, 0, 0, 0, 0, 0, 0, 0, 0, 0, 0, 0, 0, 0, 0,
    0, 0, 0, 0, 0, 0, 0, 0, 0, 0, 0, 0, 0, 0, 0, 0, 0, 0, 0, 0, 0, 0, 0, 0, 0, 0, 0, 0, 0, 0, 0, 0,
    0, 0, 0, 0, 0, 0, 0, 0, 0, 0, 0, 0, 0, 0, 0, 0, 0, 0, 0, 0, 0, 0, 0, 0, 0, 0, 0, 0, 0, 0, 0, 0,
    0, 0, 0, 0, 0, 0, 0, 0, 0, 0, 0, 0, 0, 0, 0, 0, 0, 0, 0, 0, 0, 0, 0, 0, 1, 1, 1, 1, 1, 1, 1, 1,
    1, 1, 1, 1, 1, 1, 1, 1, 2, 2, 2, 2, 2, 2, 2, 2, 2, 2, 2, 2, 2, 2, 2, 2, 0, 0, 0, 0, 0, 0, 0, 0,
    0, 0, 0, 0, 0, 0, 0, 0, 3, 3, 3, 3, 3, 3, 3, 3, 3, 3, 3, 3, 3, 3, 3, 3, 0, 0, 0, 0, 0, 0, 0, 0,
    0, 0, 0, 0, 0, 0, 0, 0, 0, 0, 0, 0, 0, 0, 0, 0, 0, 0, 0, 0, 0, 0, 0, 0, 0, 0, 0, 0, 0, 0, 0, 0,
    0, 0, 0, 0, 0, 0, 0, 0,
];

// The names of the flags as numbers, the first byte lowest.
static FLAGS: [u16; 8] = [0x3066, 0x3166, 0x3266, 0x3366, 0x7a, 0x63, 0x73, 0x6f];

// The opcode of the mnemonic that has the mark; 0x0d, which has no mnemonic, where none has it.
static MARKS: [u8; 163] = [
    0x0d, 0x0d, 0xaa, 0x9a, 0x0d, 0xa7, 0x13, 0xc6, 0xce, 0x97, 0x1a, 0xcd, 0x0d, 0x14, 0x0d, 0x0d,
    0x0d, 0x0d, 0x0d, 0xa1, 0x10, 0x0d, 0x0d, 0x0d, 0xae, 0x0d, 0xc5, 0xad, 0x0d, 0x0d, 0x0d, 0x0d,
    0x0d, 0x9c, 0x0d, 0x0d, 0x0d, 0xc2, 0x0d, 0x0d, 0x04, 0x0d, 0x0d, 0x0d, 0x93, 0x0d, 0x0d, 0x0d,
    0xca, 0x0d, 0x17, 0x90, 0x0d, 0xa9, 0xc7, 0x0d, 0x19, 0x99, 0x06, 0x0d, 0x0d, 0x0d, 0x0d, 0x0d,
    0x0d, 0x0d, 0x0d, 0x0d, 0x0d, 0x0d, 0x16, 0xa2, 0x0d, 0x0d, 0x0d, 0x0c, 0x0d, 0x18, 0xcc, 0x0d,
    0x02, 0x0d, 0x0d, 0x0d, 0xa4, 0x09, 0x9f, 0x0d, 0x94, 0xc3, 0x0d, 0x0d, 0x1d, 0x0d, 0xac, 0x0d,
    0xc0, 0x0d, 0x0d, 0x0d, 0x0d, 0x0d, 0xc9, 0x91, 0xa8, 0x0d, 0x0d, 0x0d, 0x98, 0x12, 0x0d, 0xab,
    0x05, 0x0d, 0x15, 0x9b, 0x0d, 0x0a, 0x11, 0x0b, 0x0d, 0x0d, 0x0d, 0xa3, 0xa6, 0x96, 0x9e, 0x0d,
    0x01, 0x9d, 0xa0, 0xcf, 0x0d, 0xc4, 0x0d, 0x0d, 0x0d, 0x0d, 0x03, 0x08, 0xa5, 0x0d, 0x0d, 0x0d,
    0x95, 0x00, 0x0d, 0xaf, 0xc1, 0x0d, 0x0d, 0x0d, 0x0d, 0xc8, 0x1c, 0x92, 0x0d, 0x0d, 0x1b, 0x07,
    0xcb, 0x0d, 0x0e,
];

// The table, to be lent to `decode` and `mnemonic`.
pub fn table() -> [u8; 256]
    ensures { TellsAll result }
{
    TABLE
}

// The kind of an opcode byte.
fn kind(table: &[u8; 256], opcode: u8) -> u8
    ensures { result ≡ get_or table.now opcode 0 }
{
    table[opcode as usize]
}

// The operation of a kind.
#[tactic(auto, unfolding(crate::specs::Code::kind_op, crate::specs::Code::kind_ops))]
fn operation(kind: u8) -> Op
    ensures { result ≡ kind_op kind }
{
    match kind {
        1 => Op::Load(LoadOp::LdIf),
        2 => Op::Load(LoadOp::LdisIf),
        3 => Op::Move(MoveOp::MvIf),
        4 => Op::Illegal(1),
        5 => Op::Alu(AluOp::Add),
        6 => Op::Alu(AluOp::And),
        7 => Op::Move(MoveOp::Csrr),
        8 => Op::Move(MoveOp::Csrw),
        9 => Op::Alu(AluOp::Dec1),
        10 => Op::Alu(AluOp::Dec2),
        11 => Op::Move(MoveOp::Exch),
        12 => Op::Alu(AluOp::Inc1),
        13 => Op::Alu(AluOp::Inc2),
        14 => Op::Load(LoadOp::Ld),
        15 => Op::Load(LoadOp::Ldb),
        16 => Op::Load(LoadOp::Ldis),
        17 => Op::Move(MoveOp::Mv),
        18 => Op::Alu(AluOp::Not),
        19 => Op::Alu(AluOp::Or),
        20 => Op::Alu(AluOp::Shl),
        21 => Op::Alu(AluOp::Shr),
        22 => Op::Alu(AluOp::Shra),
        23 => Op::Store(StoreOp::Sto),
        24 => Op::Store(StoreOp::Stob),
        25 => Op::Store(StoreOp::Ddsto),
        26 => Op::Alu(AluOp::Sub),
        27 => Op::Compare(CompareOp::Cmpu),
        28 => Op::Alu(AluOp::Xor),
        29 => Op::Compare(CompareOp::Cmps),
        30 => Op::Move(MoveOp::Reti),
        31 => Op::Alu(AluOp::Rev),
        _ => Op::Illegal(2),
    }
}

// What an opcode byte does, by the table that is lent.
#[tactic(auto, unfolding(crate::specs::Code::op_in))]
pub fn decode(table: &[u8; 256], opcode: u8) -> Op
    ensures { result ≡ op_in table.now opcode }
{
    operation(kind(table, opcode))
}

// The two names that also begin those under a condition.
const LD: u64 = 0x646c;

const MV: u64 = 0x766d;

// The name of a kind that has one name, as a number, the first byte lowest; 0 of the others.
#[tactic(auto, unfolding(crate::specs::Code::kind_names))]
fn plain_name(kind: u8) -> u64
    ensures { result ≡ get_or kind_names kind 0 }
{
    match kind {
        4 => 0x6c6c69,
        5 => 0x646461,
        6 => 0x646e61,
        7 => 0x72727363,
        8 => 0x77727363,
        9 => 0x31636564,
        10 => 0x32636564,
        11 => 0x68637865,
        12 => 0x31636e69,
        13 => 0x32636e69,
        14 => LD,
        15 => 0x62646c,
        16 => 0x7369646c,
        17 => MV,
        18 => 0x746f6e,
        19 => 0x726f,
        20 => 0x6c6873,
        21 => 0x726873,
        22 => 0x61726873,
        23 => 0x6f7473,
        24 => 0x626f7473,
        25 => 0x6f74736464,
        26 => 0x627573,
        27 => 0x75706d63,
        28 => 0x726f78,
        29 => 0x73706d63,
        30 => 0x69746572,
        31 => 0x766572,
        _ => 0,
    }
}

// The name of the flag that a condition tests.
#[tactic(auto, unfolding(crate::specs::Code::flag_keys))]
fn flag(opcode: u8) -> u16
    ensures { result ≡ flag_key opcode }
{
    FLAGS[(opcode % 8) as usize]
}

// A flag's name of one or two bytes, and `is` after it.
#[tactic(auto, unfolding(crate::specs::Code::ended))]
fn ended(flag: u16) -> u32
    ensures { result ≡ ended flag }
{
    if flag < 0x100 {
        flag as u32 + 0x736900
    } else {
        flag as u32 + 0x73690000
    }
}

// The name of an opcode under a condition: two letters, `n` where bit 3 is 0, and the rest.
#[tactic(auto, unfolding(crate::specs::Code::under))]
fn under(head: u16, opcode: u8, rest: u32) -> u64
    ensures { result ≡ under head opcode rest }
{
    let first = head as u64;
    let last = rest as u64;
    if opcode / 8 % 2 == 0 {
        first + 0x6e0000 + 0x1000000 * last
    } else {
        first + 0x10000 * last
    }
}

// The name of an opcode of this kind.
#[tactic(auto, unfolding(crate::specs::Code::kind_name))]
fn name(kind: u8, opcode: u8) -> u64
    ensures { result ≡ kind_name kind opcode }
{
    match kind {
        1 => under(LD as u16, opcode, flag(opcode) as u32),
        2 => under(LD as u16, opcode, ended(flag(opcode))),
        3 => under(MV as u16, opcode, flag(opcode) as u32),
        _ => plain_name(kind),
    }
}

// An opcode's mnemonic as one number, its first byte lowest, by the table that is lent; 0 where the opcode gives reason 2: it can't fail, by `name_in`.
#[tactic(auto, unfolding(crate::specs::Code::name_in))]
pub fn mnemonic(table: &[u8; 256], opcode: u8) -> u64
    ensures { result ≡ name_in table.now opcode }
{
    name(kind(table, opcode), opcode)
}

// The divisors that make a key's mark. No two mnemonics share a mark, and `mulss`, `mulsu`, `mulus` and `muluu` would have free ones: 36, 143, 97 and 38.
const SPREAD: u64 = 12561598;

const ROOM: u64 = 163;

// The only opcode whose mnemonic can have the key: the one at the key's mark.
fn likely(key: u64) -> u8
    ensures { CanOnlyBe key result }
{
    MARKS[(key % SPREAD % ROOM) as usize]
}

// The opcode that a mnemonic of either case stands for.
pub fn named(name: &[u8]) -> Option<u8>
    ensures { result ≡ opcode_named name.now }
{
    let key = keys::key(name)?;
    let opcode = likely(key);
    (mnemonic(&TABLE, opcode) == key).then_some(opcode)
}
