// Listing every word, and assembling lines.
use text::assemble::NoWord;
use text::list::NoText;
use text::{assemble, list};

// A refusal's number, 0 where accepted, and the value.
#[derive(Clone, Copy)]
struct Numbered {
    number: u16,
    value: u16,
}

impl Numbered {
    fn accepted(value: u16) -> Numbered {
        Numbered { number: 0, value }
    }

    fn refused(number: u16) -> Numbered {
        Numbered { number, value: 0 }
    }
}

fn listed(answer: Result<usize, NoText>) -> Numbered {
    match answer {
        Ok(n) => Numbered::accepted((n % 65536) as u16),
        Err(NoText::Reason2) => Numbered::refused(10),
        Err(NoText::NoRoom) => Numbered::refused(11),
    }
}

fn assembled(answer: Result<u16, NoWord>) -> Numbered {
    match answer {
        Ok(w) => Numbered::accepted(w),
        Err(NoWord::BadLine) => Numbered::refused(12),
        Err(NoWord::BadMnemonic) => Numbered::refused(13),
        Err(NoWord::BadOperand) => Numbered::refused(14),
    }
}

fn absorb_answer(digest: u64, answer: Numbered) -> u64 {
    report::absorb(report::absorb(digest, answer.number), answer.value)
}

// The number and the word that a listed text assembles to; 0 and 0 where it was not listed.
fn back(answer: Result<usize, NoText>, out: &[u8]) -> Numbered {
    match answer.ok().and_then(|n| out.get(..n)) {
        Some(line) => assembled(assemble::assemble(line)),
        None => Numbered::accepted(0),
    }
}

fn word_digest(digest: u64, word: u16) -> u64 {
    let mut out = [0xaau8; 16];
    let answer = list::list(word, &mut out);
    let h = report::absorb_bytes(absorb_answer(digest, listed(answer)), &out);
    absorb_answer(h, back(answer, &out))
}

fn opcode_digest(code: u8) -> u64 {
    let mut digest: u64 = 1;
    for second in 0..256u16 {
        digest = word_digest(digest, second * 256 + code as u16);
    }
    digest
}

fn opcode_rows(rt: &impl Print) {
    for code in 0..=255u8 {
        report::hex(rt, code as u64, 2);
        report::space(rt);
        report::hex(rt, opcode_digest(code), 8);
        report::end(rt);
    }
}

fn print_numbered(rt: &impl Print, answer: Numbered, digest: u64) {
    report::decimal(rt, answer.number as u64);
    report::space(rt);
    report::decimal(rt, answer.value as u64);
    report::space(rt);
    report::hex(rt, digest, 8);
    report::end(rt);
}

// `ldnf0is r10, r11` into an output of n bytes.
fn room_row(rt: &impl Print, n: usize, out: &mut [u8]) {
    report::text(rt, b"room ");
    report::decimal(rt, n as u64);
    report::space(rt);
    let answer = listed(list::list(0xaba0, out));
    print_numbered(rt, answer, report::absorb_bytes(1, out));
}

fn room_rows(rt: &impl Print) {
    for n in 0..17usize {
        let mut out = [0xaau8; 16];
        room_row(rt, n, &mut out[0..n]);
    }
}

fn line_row(rt: &impl Print, index: u64, line: &[u8]) {
    let answer = assembled(assemble::assemble(line));
    report::decimal(rt, index);
    report::space(rt);
    report::decimal(rt, answer.number as u64);
    report::space(rt);
    report::hex(rt, answer.value as u64, 4);
    report::end(rt);
}

// Each line has its length in front.
fn line_rows(rt: &impl Print, input: &[u8]) {
    let mut rest = input;
    let mut index: u64 = 0;
    while let [n, lines @ ..] = rest {
        let Some((line, others)) = lines.split_at_checked(*n as usize) else {
            report::text(rt, b"cut short\n");
            return;
        };
        line_row(rt, index % 1000000, line);
        rest = others;
        index = index % 1000000 + 1;
    }
}

pub fn run(rt: &impl Print, input: &[u8]) {
    opcode_rows(rt);
    room_rows(rt);
    line_rows(rt, input);
}
