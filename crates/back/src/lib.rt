// Step back.
#![tactic(auto)]

ghost use Rattle.std.specs.Prelude.{◌≡◌};
ghost use Rattle.history.specs.Trace.{back};
ghost use Rattle.calls.specs.Calls.{check_of, world_of};
ghost use Rattle.calls.specs.Code.{Acts};

use calls::checks;
use calls::state::{Answer, Machine, Refusal, Reply};
use history::{Place, undo};

// Where a check fails, the newest record's slot may be none: of such a machine nothing is said, and no call comes here with it.
pub fn step_back(m: Machine, ram: &mut [u8], journal: &[u16]) -> Reply
    ensures { check_of (world_of m ram.old journal.now) ≡ 0 → Acts back m ram.old journal.now result ram.new journal.now }
{
    if m.held == 0 {
        return checks::refused(m, Refusal::NoRecord);
    }
    let newest = history::pop(
        journal,
        Place {
            next: m.next,
            held: m.held,
        },
    );
    if !records::is_sound(newest.words) {
        return checks::refused(m, Refusal::BadRecord);
    }
    let before = records::decode(newest.words, m.cpu.board.stretch);
    undo::restore(ram, before.count, before.first, before.low, before.high);
    Reply {
        answer: Answer::Accepted,
        machine: Machine {
            cpu: before.cpu,
            next: newest.place.next,
            held: newest.place.held,
        },
    }
}
