// Every word shifted by every count, a digest a count.
use alu::AluOp;

fn shifted(op: AluOp, count: u16) -> u64 {
    (0..=u16::MAX).fold(1, |digest, d| {
        let a = alu::compute(op, d, count);
        report::absorb(report::absorb(digest, a.value), a.flags)
    })
}

fn row(rt: &impl Print, name: &[u8], op: AluOp, count: u16) {
    report::text(rt, name);
    report::text(rt, b" by ");
    report::decimal(rt, count as u64);
    report::space(rt);
    report::hex(rt, shifted(op, count), 8);
    report::end(rt);
}

fn rows(rt: &impl Print, name: &[u8], op: AluOp) {
    for count in 0..16u16 {
        row(rt, name, op, count);
    }
}

pub fn all(rt: &impl Print) {
    rows(rt, b"shl", AluOp::Shl);
    rows(rt, b"shr", AluOp::Shr);
    rows(rt, b"shra", AluOp::Shra);
}
