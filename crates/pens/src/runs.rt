// The firmware's matching routine, and what its run tells.
ghost use Rattle.std.specs.Prelude.{◌≡◌, [], ◌∷◌};
ghost use Rattle.calls.specs.Calls.{world_of};
ghost use Rattle.entries.specs.Entries.{entry, marked};
ghost use Rattle.watched.specs.Code.{Watches};
ghost use Rattle.pens.specs.Pen.{matching, reported};
ghost use Rattle.pens.specs.Code.{report_as, report_of};

use crate::{Report, giving};
use calls::state::Machine;
use entries::Entry;
use manifests::Held;
use watched::Watched;

// A watched run with one break.
fn matched(m: Machine, ram: &mut [u8], journal: &mut [u16], stop: u16, budget: u16) -> Watched
    ensures { Watches budget m ram.old journal.old (entry stop 1 0 ∷ [])
        result ram.new journal.new (marked result.told.met (entry stop 1 0 ∷ [])) }
{
    let one = Entry {
        address: stop,
        kind: 1,
        hits: 0,
    };
    watched::run_unmarked(m, ram, journal, &[one], budget)
}

// What a run tells of a pen.
fn told_of(held: Option<Held>, r: Watched) -> Report
    ensures { result ≡ report_of held r }
{
    let told = r.told;
    let m = r.machine;
    let regs = m.cpu.regs;
    let ending = told.ending;
    Report {
        number: 0,
        held,
        r0: regs[0],
        steps: told.steps,
        bus: told.bus,
        ending,
        machine: m,
    }
}

// The run of a machine that stands ready.
pub fn run(
    m: Machine,
    ram: &mut [u8],
    journal: &mut [u16],
    held: Option<Held>,
    setup: &[u16],
) -> Report
    ensures { reported held (matching setup.now (world_of m ram.old journal.old)) ≡ report_as result ram.new journal.new }
{
    let stop = giving::word_at(setup, 1);
    let budget = giving::word_at(setup, 2);
    let r = matched(m, ram, journal, stop, budget);
    told_of(held, r)
}
