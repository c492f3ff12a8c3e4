// execute by the breaks and watches, and rexecute: the calls, made one after the other.
#![tactic(auto)]

mod backward;
pub mod dropped;
mod forward;
pub mod lent;
mod newest;

use entries::{Entry, Met};
use lent::Lent;
use orders::{Order, RUNS};
use panel::view::View;
use stops::list::Stops;
use telling::causes::{Kind, Stop};
use telling::outcomes::Outcome;

// What calls leave, the entry that stopped them, and what the stop meets, by which hits rise.
#[derive(Clone, Copy)]
pub struct Deed {
    pub outcome: Outcome,
    pub stop: Option<Stop>,
    pub met: Option<Met>,
}

// Calls that no entry stopped.
pub fn unstopped(outcome: Outcome) -> Deed {
    Deed {
        outcome,
        stop: None,
        met: None,
    }
}

// The stop at an entry, with its hits where they count, and the byte there before.
fn stop_at(e: Entry, hits: Option<u16>, old: u8) -> Option<Stop> {
    Some(Stop {
        kind: Kind::numbered(e.kind)?,
        address: e.address,
        hits,
        old,
        new: 0,
    })
}

// The calls of an order that goes by the list; None of another. Without entries execute is a run as any other.
pub fn made(rt: &impl Print, order: Order, s: &Stops, lent: &mut Lent) -> Option<Deed> {
    match order {
        Order::Run(_) if s.list().is_empty() => None,
        Order::Run(Some(n)) => Some(forward::executed(rt, 1, n, order, s, lent)),
        Order::Run(None) => Some(forward::executed(rt, RUNS, 65535, order, s, lent)),
        Order::RunBack(most) => Some(backward::returned(most.unwrap_or(65535), s, lent)),
        _ => None,
    }
}

// The stop with the byte at its address before and after. rexecute has read the one before; in a run it is that from before the run, since the first store to a
// watched address stops it.
pub fn seen(stop: Option<Stop>, before: View, after: View) -> Option<Stop> {
    let mut s = stop?;
    s.new = after.byte_at(s.address);
    if s.hits.is_some() {
        s.old = before.byte_at(s.address);
    }
    Some(s)
}
