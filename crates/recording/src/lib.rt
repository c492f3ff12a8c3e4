// One recorded step: every run goes step by step through it.
#![tactic(auto)]

ghost use Rattle.std.specs.Prelude.{◌≡◌};
ghost use Rattle.isa.specs.Code.{TellsAll};
ghost use Rattle.bus.specs.State.{cpu};
ghost use Rattle.recording.specs.Code.{noted, standing, turn_of, turn_as};

use bus::state::Board;
use cpu::step;
use history::Place;

// What a recorded step leaves, beside what was lent to it: the rest of the state, next slot and records held, and what the step told.
#[derive(Clone, Copy)]
pub struct Recorded {
    pub board: Board,
    pub place: Place,
    pub count: u8,
    pub first: u16,
    pub bus: u8,
}

// What a step wrote, put into the record that was pushed before it; a step that wrote nothing leaves the zeros there.
fn note(journal: &mut [u16], slot: usize, count: u8, first: u16, old: u16)
    ensures { journal.new ≡ noted journal.old slot count first old }
{
    if count != 0 {
        history::amend(journal, slot, 25, u16::from(count), first, old);
    }
}

// The record of the state before the step is pushed first, and what the step wrote goes in after it: so the record needs no copy of registers and CSRs.
// The board is handed on part by part, as the run takes it: docs/DECISIONS.md says what it costs whole.
pub fn recorded_step(
    table: &[u8; 256],
    regs: &mut [u16; 16],
    csrs: &mut [u16; 6],
    board: Board,
    place: Place,
    ram: &mut [u8],
    journal: &mut [u16],
) -> Recorded
    ensures { TellsAll table.now → turn_as result regs.new csrs.new ram.new journal.new
        ≡ turn_of (standing (cpu regs.old csrs.old board) place ram.old journal.old) }
{
    let v = board.devices;
    let words = records::encode(*regs, *csrs, v, board.halted, 0, 0, 0);
    let slot = place.next;
    let after = history::push(journal, place, words);
    let q = step::step(table, regs, csrs, ram, board);
    note(journal, slot, q.count, q.first, q.old);
    let b = q.board;
    let devices = b.devices;
    let stretch = b.stretch;
    Recorded {
        board: Board {
            devices,
            halted: b.halted,
            stretch,
        },
        place: after,
        count: q.count,
        first: q.first,
        bus: q.bus,
    }
}
