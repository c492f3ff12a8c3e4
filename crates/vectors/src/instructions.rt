// Opcodes, conditions, the arithmetic unit over a grid of words, and names.
use crate::{grid, shifts};
use alu::{AluOp, Answer, CompareOp};
use isa::opcode::{LoadOp, MoveOp, Op, StoreOp};
use isa::{condition, opcode};
use names::register::{Csr, Reg};

// Labels of operations.
fn alu_label(op: AluOp) -> &'static [u8] {
    match op {
        AluOp::Add => b"add",
        AluOp::And => b"and",
        AluOp::Dec1 => b"dec1",
        AluOp::Dec2 => b"dec2",
        AluOp::Inc1 => b"inc1",
        AluOp::Inc2 => b"inc2",
        AluOp::Not => b"not",
        AluOp::Or => b"or",
        AluOp::Rev => b"rev",
        AluOp::Shl => b"shl",
        AluOp::Shr => b"shr",
        AluOp::Shra => b"shra",
        AluOp::Sub => b"sub",
        AluOp::Xor => b"xor",
    }
}

fn compare_label(op: CompareOp) -> &'static [u8] {
    match op {
        CompareOp::Cmpu => b"cmpu",
        CompareOp::Cmps => b"cmps",
    }
}

fn move_label(op: MoveOp) -> &'static [u8] {
    match op {
        MoveOp::Csrr => b"csrr",
        MoveOp::Csrw => b"csrw",
        MoveOp::Exch => b"exch",
        MoveOp::Mv => b"mv",
        MoveOp::MvIf => b"mvif",
        MoveOp::Reti => b"reti",
    }
}

fn load_label(op: LoadOp) -> &'static [u8] {
    match op {
        LoadOp::Ld => b"ld",
        LoadOp::Ldb => b"ldb",
        LoadOp::Ldis => b"ldis",
        LoadOp::LdIf => b"ldif",
        LoadOp::LdisIf => b"ldisif",
    }
}

fn store_label(op: StoreOp) -> &'static [u8] {
    match op {
        StoreOp::Sto => b"sto",
        StoreOp::Stob => b"stob",
        StoreOp::Ddsto => b"ddsto",
    }
}

fn label(op: Op) -> &'static [u8] {
    match op {
        Op::Illegal(1) => b"illegal1",
        Op::Illegal(_) => b"illegal2",
        Op::Alu(a) => alu_label(a),
        Op::Compare(c) => compare_label(c),
        Op::Move(m) => move_label(m),
        Op::Load(l) => load_label(l),
        Op::Store(s) => store_label(s),
    }
}

fn opcode_row(rt: &impl Print, table: &[u8; 256], code: u8) {
    report::hex(rt, code as u64, 2);
    report::space(rt);
    let key = opcode::mnemonic(table, code);
    if key == 0 {
        report::text(rt, b"-");
    } else {
        report::name(rt, key);
    }
    report::space(rt);
    report::text(rt, label(opcode::decode(table, code)));
    report::end(rt);
}

fn opcode_rows(rt: &impl Print, table: &[u8; 256]) {
    for code in 0..=255u8 {
        opcode_row(rt, table, code);
    }
}

fn condition_digest(code: u8, words: &[u16]) -> u64 {
    words.iter().fold(1, |digest, &flags| {
        report::absorb(digest, condition::holds(code, flags) as u16)
    })
}

fn condition_rows(rt: &impl Print, words: &[u16]) {
    for code in 0..16u8 {
        report::text(rt, b"cond ");
        report::hex(rt, code as u64, 1);
        report::space(rt);
        report::hex(rt, condition_digest(code, words), 8);
        report::end(rt);
    }
}

// A computational instruction as the table has it: its name, and what it does.
#[derive(Clone, Copy)]
struct Instruction {
    name: u64,
    op: Op,
}

impl Instruction {
    fn of(table: &[u8; 256], code: u8) -> Instruction {
        Instruction {
            name: opcode::mnemonic(table, code),
            op: opcode::decode(table, code),
        }
    }

    fn answer(self, d: u16, s: u16) -> Answer {
        match self.op {
            Op::Alu(a) => alu::compute(a, d, s),
            Op::Compare(c) => Answer {
                value: 0,
                flags: alu::compare(c, d, s),
            },
            _ => Answer { value: 0, flags: 0 },
        }
    }

    fn digest(self, d: u16, words: &[u16]) -> u64 {
        words.iter().fold(1, |digest, &s| {
            let a = self.answer(d, s);
            report::absorb(report::absorb(digest, a.value), a.flags)
        })
    }

    fn digest_row(self, rt: &impl Print, d: u16, words: &[u16]) {
        report::name(rt, self.name);
        report::space(rt);
        report::hex(rt, d as u64, 4);
        report::space(rt);
        report::hex(rt, self.digest(d, words), 8);
        report::end(rt);
    }

    fn edge_row(self, rt: &impl Print, d: u16, s: u16) {
        let a = self.answer(d, s);
        report::name(rt, self.name);
        for word in [d, s, a.value, a.flags] {
            report::space(rt);
            report::hex(rt, word as u64, 4);
        }
        report::end(rt);
    }

    fn digest_rows(self, rt: &impl Print, words: &[u16]) {
        for &d in words {
            self.digest_row(rt, d, words);
        }
    }

    fn edge_rows(self, rt: &impl Print, edges: &[u16]) {
        for &d in edges {
            for &s in edges {
                self.edge_row(rt, d, s);
            }
        }
    }
}

// The computational instructions, in the vectors' order.
static UNIT: [u8; 16] = [
    0x01, 0x02, 0x05, 0x06, 0x08, 0x09, 0x10, 0x11, 0x1d, 0x12, 0x13, 0x14, 0x18, 0x1a, 0x19, 0x1b,
];

fn all_digests(rt: &impl Print, table: &[u8; 256], words: &[u16]) {
    for &code in &UNIT {
        Instruction::of(table, code).digest_rows(rt, words);
    }
}

fn all_edges(rt: &impl Print, table: &[u8; 256], edges: &[u16]) {
    for &code in &UNIT {
        Instruction::of(table, code).edge_rows(rt, edges);
    }
}

fn number_or_dash(rt: &impl Print, number: Option<u8>) {
    match number {
        Some(n) => report::decimal(rt, n as u64),
        None => report::text(rt, b"-"),
    }
}

fn name_row(rt: &impl Print, index: u64, name: &[u8]) {
    report::decimal(rt, index);
    report::space(rt);
    number_or_dash(rt, Reg::from_name(name).map(|register| register.number));
    report::space(rt);
    number_or_dash(rt, Csr::from_name(name).map(|csr| csr.number));
    report::end(rt);
}

fn name_rows(rt: &impl Print, input: &[u8]) {
    for (index, line) in input.split_inclusive(|&b| b == b'\n').enumerate() {
        let name = line.strip_suffix(b"\n").unwrap_or(line);
        name_row(rt, index as u64, name);
    }
}

pub fn run(rt: &impl Print, input: &[u8]) {
    let mut room = [0u16; 255];
    let n = grid::read(input, &mut room);
    let words = &room[..n];
    let Some(edges) = words.get(..9) else {
        report::text(rt, b"too few words\n");
        return;
    };
    let Some(names) = input.get(5 * n + 1..) else {
        report::text(rt, b"no names\n");
        return;
    };
    let table = opcode::table();
    opcode_rows(rt, &table);
    condition_rows(rt, words);
    all_digests(rt, &table, words);
    all_edges(rt, &table, edges);
    shifts::all(rt);
    name_rows(rt, names);
}
