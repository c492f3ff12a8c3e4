// What is said on standard error. No contract can say what is written.
use console::values;

// Where it takes no more, the rest is let go.
pub fn text(rt: &HostRuntime, bytes: &[u8]) {
    report::text(&rt.stderr(), bytes);
}

pub fn decimal(rt: &HostRuntime, n: u64) {
    report::decimal(&rt.stderr(), n);
}

// Each message begins so.
pub fn begin(rt: &HostRuntime) {
    text(rt, b"pens: ");
}

pub fn end(rt: &HostRuntime) {
    text(rt, b"\n");
}

// A word as it may be shown on a terminal.
pub fn show(rt: &HostRuntime, word: &[u8]) {
    values::show(&rt.stderr(), word);
}

// A message with nothing after it.
pub fn say(rt: &HostRuntime, what: &[u8]) {
    begin(rt);
    text(rt, what);
    end(rt);
}

// A line that says what was wrong with a word.
pub fn complain(rt: &HostRuntime, what: &[u8], word: &[u8]) {
    begin(rt);
    values::complain(&rt.stderr(), what, word);
}
