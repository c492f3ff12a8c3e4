// The run, and the lone step.
ghost use Rattle.std.specs.Prelude.{◌≡◌};
ghost use Rattle.bus.specs.State.{cpu};
ghost use Rattle.history.specs.Trace.{Call, give, ran};
ghost use Rattle.calls.specs.Inputs.{Input, machine};
ghost use Rattle.calls.specs.Calls.{journal_of};
ghost use Rattle.calls.specs.Code.{Acts};
ghost use Rattle.recording.specs.Code.{standing};
ghost use Rattle.watching.specs.Watched.{run_cause, as_ran};
ghost use Rattle.watching.specs.Code.{ended_as};
ghost use Rattle.running.specs.Code.{run_told, stop_from, machine_at, place_in};

use bus::state::{Board, Cpu};
use calls::checks;
use calls::state::{Answer, Machine, Refusal, Reply, Run, Stop};
use history::Place;
use isa::opcode;
use watching::{Ended, Ending, Told};

// Why a run by an empty list stopped (no `From`: neither type is of this crate).
fn stop_of(ending: Ending) -> Stop
    ensures { result ≡ stop_from (run_cause ending) }
{
    match ending {
        Ending::Refused => Stop::Budget,
        Ending::Budget => Stop::Budget,
        Ending::Halted => Stop::Halted,
        Ending::Watch => Stop::Budget,
        Ending::Break => Stop::Budget,
    }
}

fn told(t: Told) -> Run
    ensures { result ≡ run_told t.steps t.bus (stop_from (run_cause t.ending)) }
{
    let ending = t.ending;
    Run {
        steps: t.steps,
        bus: t.bus,
        stop: stop_of(ending),
    }
}

// The run by no breaks and no watches.
fn advance(
    regs: &mut [u16; 16],
    csrs: &mut [u16; 6],
    board: Board,
    place: Place,
    ram: &mut [u8],
    journal: &mut [u16],
    steps: u16,
) -> Ended
    ensures { ran machine (journal_of board.stretch) steps (standing (cpu regs.old csrs.old board) place ram.old journal.old)
        ≡ as_ran (ended_as result regs.new csrs.new ram.new journal.new) }
{
    let table = opcode::table();
    watching::advance(&table, regs, csrs, board, place, ram, journal, &[], steps)
}

pub fn machine_of(regs: [u16; 16], csrs: [u16; 6], board: Board, p: Place) -> Machine
    ensures { result ≡ machine_at (cpu regs csrs board) p }
{
    Machine {
        cpu: Cpu { regs, csrs, board },
        next: p.next,
        held: p.held,
    }
}

pub fn place_of(m: Machine) -> Place
    ensures { result ≡ place_in m }
{
    Place {
        next: m.next,
        held: m.held,
    }
}

pub fn run(m: Machine, ram: &mut [u8], journal: &mut [u16], budget: u16) -> Reply
    ensures { Acts (Call.run budget) m ram.old journal.old result ram.new journal.new }
{
    let before = m.cpu;
    let mut regs = before.regs;
    let mut csrs = before.csrs;
    let b = before.board;
    let e = advance(&mut regs, &mut csrs, b, place_of(m), ram, journal, budget);
    let after = e.board;
    let p = e.place;
    let t = e.told;
    Reply {
        answer: Answer::Ran(told(t)),
        machine: machine_of(regs, csrs, after, p),
    }
}

// A run of one, so that there is no second loop over steps.
pub fn step(m: Machine, ram: &mut [u8], journal: &mut [u16]) -> Reply
    ensures { Acts (give Input.step) m ram.old journal.old result ram.new journal.new }
{
    if m.cpu.board.halted {
        return checks::refused(m, Refusal::Halted);
    }
    let before = m.cpu;
    let mut regs = before.regs;
    let mut csrs = before.csrs;
    let b = before.board;
    let e = advance(&mut regs, &mut csrs, b, place_of(m), ram, journal, 1);
    let after = e.board;
    let p = e.place;
    Reply {
        answer: Answer::Stepped(e.told.bus),
        machine: machine_of(regs, csrs, after, p),
    }
}
