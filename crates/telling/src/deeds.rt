// What an order's calls did, told.
use crate::outcomes::Outcome;
use orders::Order;
use panel::status::{Noun, Walk};
use panel::view::View;
use panel::{code, status};

// Of several bytes, how many went in before the one that was refused.
fn keys(rt: &impl Print, o: Outcome, of: usize) {
    o.say(rt);
    if o.refusal.is_some() & (2 <= of) {
        report::decimal(rt, o.calls);
        report::text(rt, b" of ");
        report::decimal(rt, of as u64);
        report::text(rt, b" bytes were received\n");
    }
}

// What was taken back, and what refused the rest.
fn back(rt: &impl Print, o: Outcome, asked: Option<u16>, view: View, cause: Option<&[u8]>) {
    if !o.is_refused() {
        let walk = Walk {
            noun: status::STEPS_BACK,
            steps: o.calls,
            asked: asked.map(|n| n as u64),
            bus: None,
            cause,
        };
        status::after(rt, view, walk);
    }
    o.say(rt);
}

// What was run back.
fn ran_back(rt: &impl Print, o: Outcome, asked: Option<u16>, view: View, entry: Option<&[u8]>) {
    let otherwise: &[u8] = match view.held() {
        0 => b"no record left",
        _ => b"budget used up",
    };
    back(rt, o, asked, view, Some(entry.unwrap_or(otherwise)));
}

// What was done, and why it stopped.
fn ran(rt: &impl Print, o: Outcome, asked: Option<u16>, view: View, otherwise: &[u8]) {
    o.say(rt);
    if o.is_refused() {
        return;
    }
    let cause = if o.is_halted { b"halted" } else { otherwise };
    let walk = Walk {
        noun: status::STEPS,
        steps: o.steps,
        asked: asked.map(|n| n as u64),
        bus: Some(o.bus),
        cause: Some(cause),
    };
    status::after(rt, view, walk);
}

// The instruction that was stored.
fn instruction(rt: &impl Print, o: Outcome, at: u16, view: View) {
    o.say(rt);
    code::show(rt, view, at);
    report::end(rt);
}

// The refusal of a byte sent, if it was refused.
fn sent(rt: &impl Print, o: Outcome) {
    if let Some(why) = o.refusal {
        why.say_of_sent(rt);
    }
}

// Why a run stopped that no entry stopped, and that did not halt.
fn end(asked: Option<u16>) -> &'static [u8] {
    match asked {
        Some(_) => b"budget used up",
        None => b"stopped at the limit of 6,553,500 steps",
    }
}

fn tell(rt: &impl Print, order: Order, o: Outcome, view: View, entry: Option<&[u8]>) {
    match order {
        Order::Back(n) => back(rt, o, Some(n), view, None),
        Order::Keys(bytes) => keys(rt, o, bytes.len()),
        Order::Sent => sent(rt, o),
        Order::Steps(n) => ran(rt, o, Some(n), view, b"done"),
        Order::Run(asked) => ran(rt, o, asked, view, entry.unwrap_or(end(asked))),
        Order::RunBack(asked) => ran_back(rt, o, asked, view, entry),
        Order::Code(at, _) => instruction(rt, o, at, view),
        _ => o.say(rt),
    }
}

// Whether what an order changed is shown. What was stored is said before, and need not be.
fn is_shown(order: Order) -> bool {
    !matches!(order, Order::Pokes(_, _) | Order::Code(_, _))
}

// What the calls did is told, with the entry that stopped them if one did; whether what they changed is to be shown.
pub fn told(rt: &impl Print, order: Order, o: Outcome, view: View, entry: Option<&[u8]>) -> bool {
    tell(rt, order, o, view, entry);
    is_shown(order) & !o.is_refused()
}

// Of how many steps, the last ones, it is told which stores were dropped: of all that step did, and of the last that execute did.
pub fn steps_told(order: Order, o: Outcome) -> u64 {
    match order {
        Order::Steps(_) => o.steps,
        Order::Run(_) => o.steps.min(1),
        _ => 0,
    }
}

// A line after each run of many.
pub fn progress(rt: &impl Print, order: Order, steps: u64, view: View) {
    let noun = Noun {
        one: b"step so far\n",
        more: b"steps so far\n",
    };
    if let Order::Run(None) = order {
        status::place(rt, view);
        noun.count(rt, steps);
    }
}
