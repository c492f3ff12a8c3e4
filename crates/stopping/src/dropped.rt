// The stores that were dropped, since their bytes are protected. A record tells of them as of others.
use crate::lent::Lent;
use crate::newest;
use entries::Met;
use panel::parts;
use panel::view::View;
use word::sums;

// What of a step's stores was not dropped: only there a watch is met.
pub fn kept(x: Met, view: View) -> Met {
    watching::landed(
        false,
        parts::stretch(view.state),
        view.ram.len(),
        x.count,
        x.first,
    )
}

fn mark_byte(marks: &mut [u8], view: View, at: u16) {
    if !view.drops(at) {
        return;
    }
    if let Some(mark) = marks.get_mut(usize::from(at)) {
        *mark = 1;
    }
}

fn mark_stored(marks: &mut [u8], view: View, x: Met) {
    if 0 < x.count {
        mark_byte(marks, view, x.first);
    }
    if 1 < x.count {
        mark_byte(marks, view, sums::plus(x.first, 1));
    }
}

// A mark at each byte at which the last steps, so many, had a store dropped. Their records are the newest, as far as they are held.
pub fn mark(marks: &mut [u8], steps: u64, lent: &Lent) {
    let view = lent.view();
    let mut slot = view.state[25];
    for _ in 0..steps.min(u64::from(view.held())) {
        slot = newest::before(slot, lent.journal.len());
        mark_stored(marks, view, newest::stored(slot, &*lent.journal));
    }
}
