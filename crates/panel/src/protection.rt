// What a dump's row tells of the protected addresses.
use crate::view::View;
use console::rows::Row;
use word::sums;

// The first and the last protected place of a row.
#[derive(Clone, Copy)]
struct Span {
    from: u16,
    to: u16,
}

// All places between the two are protected. So it is also of a row that goes on at address 0: no RAM reaches up to the last address.
fn marked(view: View, at: u16) -> Option<Span> {
    let is_dropped = |i: &u16| view.drops(sums::plus(at, *i));
    let from = (0..16).find(is_dropped)?;
    let to = (0..16).rev().find(is_dropped)?;
    Some(Span { from, to })
}

// What of the 16 bytes from an address on is protected, at the end of their row.
pub fn put(row: &mut Row, view: View, at: u16) {
    let Some(span) = marked(view, at) else {
        return;
    };
    row.put_all(b"  protected");
    if (span.from, span.to) != (0, 15) {
        row.put(b' ');
        row.put_hex(sums::plus(at, span.from), 4);
        row.put_all(b" to ");
        row.put_hex(sums::plus(at, span.to), 4);
    }
}
