// What a hand on the debugger does to the machine: a command is read, the calls that it asks for are made, what they did is told, what they changed is shown.
#![tactic(auto)]

mod carrying;
mod copies;
mod origins;

use console::commands::Command;
use orders::{Order, images};
use panel::changes;
use panel::view::View;
use std::rt::Files;
use stopping::lent::Lent;
use stopping::{Deed, dropped};
use stops::list;
use stops::list::Stops;
use telling::{causes, deeds};

// The calls of an order, by the list of breaks and watches where the order goes by it.
fn made(rt: &impl Print, order: Order, s: &Stops, lent: &mut Lent) -> Deed {
    match stopping::made(rt, order, s, lent) {
        Some(deed) => deed,
        None => stopping::unstopped(carrying::carried(rt, order, lent)),
    }
}

// What the calls did is told; what they changed is shown where the order is one that shows it.
fn tell(rt: &impl Print, order: Order, d: Deed, before: View, after: View, marks: &[u8]) {
    let mut row = [b' '; 64];
    let entry = causes::told(&mut row, stopping::seen(d.stop, before, after));
    if deeds::told(rt, order, d.outcome, after, entry) {
        changes::show(rt, before, after, marks);
    }
}

// The calls of an order, made and told; hits rise in the list.
fn done(rt: &impl Print, order: Order, s: &mut Stops, lent: &mut Lent) {
    let state = *lent.state;
    let ram = copies::of(&*lent.ram);
    let d = made(rt, order, s, lent);
    let mut marks = copies::room();
    let steps = deeds::steps_told(order, d.outcome);
    dropped::mark(&mut marks, steps, lent);
    let before = View {
        state: &state,
        ram: &ram,
    };
    tell(rt, order, d, before, lent.view(), &marks);
    if let Some(met) = d.met {
        *s = list::raised(*s, met);
    }
}

// A command on the machine, by the line behind its name.
pub fn operate(
    rt: &(impl Print + Files),
    command: Command,
    line: &[u8],
    s: &mut Stops,
    lent: &mut Lent,
) {
    let mut room = images::room();
    let Some(order) = orders::read(rt, command, line, lent.view(), &mut room) else {
        return;
    };
    if let Some(known) = origins::resolved(rt, order, lent) {
        done(rt, known, s, lent);
    }
}
