// The calls on the machine, on the lent parts of the buffers.
use crate::state::Desk;
use crate::{digest, lists};
use machine::Call;

pub fn make(d: &mut Desk, call: Call) {
    let m = d.machine;
    let r = machine::answer(call, m, d.ram.lent(), d.journal.lent());
    d.machine = r.machine;
    d.digest = digest::called(d.digest, r.answer, r.machine);
}

pub fn watched_run(d: &mut Desk, budget: u16) {
    let m = d.machine;
    let points = d.list;
    let r = watched::run_points(m, d.ram.lent(), d.journal.lent(), points, budget);
    d.machine = r.machine;
    lists::mark(&mut d.list, r.told.met);
    let h = digest::ended_run(d.digest, r.number, r.told, r.machine);
    d.digest = digest::listed(h, &d.list);
}
