// The version, which stands here and nowhere else.

fn number(rt: &impl Print) {
    report::text(rt, b"1.0");
}

pub fn show(rt: &impl Print) {
    report::text(rt, b"mehakuila ");
    number(rt);
    report::end(rt);
}
