// rexecute: steps back until pc is at a break, or the step taken back had stored to a watch.
use crate::lent::Lent;
use crate::{Deed, dropped, newest, stop_at, unstopped};
use entries::Met;
use machine::Call;
use panel::parts;
use stops::list;
use stops::list::{Kind, Stops};
use telling::causes::Stop;
use telling::inputs;
use telling::outcomes::Outcome;

// One step back: the call's result, and the entry that it stops at.
#[derive(Clone, Copy)]
struct Turn {
    result: u64,
    stop: Option<Stop>,
}

// A poke is no step. It stores one byte and changes no state; an instruction that leaves pc where it was stores two.
fn is_poke(x: Met, before: &[u16; 32], after: &[u16; 32]) -> bool {
    (x.count == 1) & inputs::same(before, after)
}

// The break at pc, if there is one.
fn at_break(s: &Stops, before: &[u16; 32]) -> Option<Stop> {
    let met = list::met(u16::from(Kind::Break), 1, parts::pc(before));
    stop_at(list::first(*s, met)?, None, 0)
}

// The watch that the stores of the newest record meet, if there is one, with the byte there, which is about to be taken back.
fn at_watch(s: &Stops, x: Met, lent: &Lent) -> Option<Stop> {
    let view = lent.view();
    let e = list::first(*s, dropped::kept(x, view))?;
    stop_at(e, None, view.byte_at(e.address))
}

// One record taken back. Where both are met the watch is named, as in a run forwards.
fn taken_back(s: &Stops, lent: &mut Lent) -> Turn {
    let after = *lent.state;
    let x = newest::last(&after, &*lent.journal);
    let watch = at_watch(s, x, lent);
    let result = lent.cross(Call::Back);
    let before = *lent.state;
    let stop = if watch.is_some() & !is_poke(x, &before, &after) {
        watch
    } else {
        at_break(s, &before)
    };
    Turn { result, stop }
}

// So many records at most. The end of those that are held is no refusal, but where there was none to begin with.
pub fn returned(most: u16, s: &Stops, lent: &mut Lent) -> Deed {
    let mut outcome = Outcome::default();
    for n in 0..most {
        if (n != 0) & (parts::held(&*lent.state) == 0) {
            return unstopped(outcome);
        }
        let turn = taken_back(s, lent);
        outcome = outcome.with(false, turn.result);
        if outcome.is_last() {
            return unstopped(outcome);
        }
        if turn.stop.is_some() {
            return Deed {
                outcome,
                stop: turn.stop,
                met: None,
            };
        }
    }
    unstopped(outcome)
}
