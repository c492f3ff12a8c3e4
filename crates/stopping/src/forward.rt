// execute by the list.
use crate::lent::Lent;
use crate::{Deed, stop_at, unstopped};
use entries::Met;
use orders::Order;
use panel::parts;
use stops::list;
use stops::list::{Kind, Stops};
use telling::deeds;
use telling::outcomes::Outcome;

// A stop by the first entry that it meets, with the hits that it then has.
fn stopped(outcome: Outcome, s: &Stops, met: Met) -> Deed {
    let stop = match list::first(list::raised(*s, met), met) {
        Some(e) => stop_at(e, Some(e.hits), 0),
        None => None,
    };
    Deed {
        outcome,
        stop,
        met: Some(met),
    }
}

// The last run: a step that halted the machine and stored to a watch is told as halted, and counts as a hit.
fn ended(outcome: Outcome, s: &Stops, met: Met) -> Deed {
    if outcome.is_halted {
        return Deed {
            outcome,
            stop: None,
            met: Some(met),
        };
    }
    stopped(outcome, s, met)
}

// What a break at pc meets.
fn here(state: &[u16; 32]) -> Met {
    list::met(u16::from(Kind::Break), 1, parts::pc(state))
}

// So many runs of so many steps at most, one after the other. To the hand at the desk all are one run, of which the first step alone passes a break: so only the
// first run may start at one.
pub fn executed(
    rt: &impl Print,
    runs: usize,
    budget: u16,
    order: Order,
    s: &Stops,
    lent: &mut Lent,
) -> Deed {
    let mut outcome = Outcome::default();
    for n in 0..runs {
        let met = here(&*lent.state);
        if (n != 0) & list::first(*s, met).is_some() {
            return stopped(outcome, s, met);
        }
        let run = lent.cross_points(entries::gather(s.list()), budget);
        outcome = outcome.with(false, run.result);
        if outcome.is_last() | (0 < run.met.count) {
            return ended(outcome, s, run.met);
        }
        deeds::progress(rt, order, outcome.steps, lent.view());
    }
    unstopped(outcome)
}
