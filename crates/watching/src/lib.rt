// The one loop over recorded steps: a run that goes by a list of breaks and watches. The plain run goes by an empty list.
#![tactic(auto)]

ghost use Rattle.std.specs.Prelude.{◌≡◌, true, cond, None};
ghost use Rattle.isa.specs.Code.{TellsAll};
ghost use Rattle.bus.specs.State.{cpu};
ghost use Rattle.recording.specs.Code.{standing};
ghost use Rattle.entries.specs.Entries.{met_at, meets, found};
ghost use Rattle.watching.specs.Watched.{goes, landed_byte, landed as landed_of};
ghost use Rattle.watching.specs.Code.{tells_of, caught_as, ended_as, sought_after, Names};

use bus::address;
use bus::state::{Board, Stretch};
use entries::{Entry, Met};
use history::Place;
use names::register::PC;
use word::sums;

// Why a watched run stopped; a refused one did not run.
#[derive(Clone, Copy)]
pub enum Ending {
    Refused,
    Budget,
    Halted,
    Watch,
    Break,
}

// The steps done, the sum of their bus bytes, why the run stopped, the entries that the stop meets, and the place of the one that is named: 0 where none is, as
// `Names` and the result over the C boundary have it.
#[derive(Clone, Copy)]
pub struct Told {
    pub steps: u16,
    pub bus: u32,
    pub ending: Ending,
    pub met: Met,
    pub place: usize,
}

// What a run leaves beside the registers and CSRs that were lent to it.
#[derive(Clone, Copy)]
pub struct Ended {
    pub board: Board,
    pub place: Place,
    pub told: Told,
}

fn met(kind: u16, count: u8, first: u16) -> Met
    ensures { result ≡ met_at kind count first }
{
    Met { kind, count, first }
}

// What one stored byte meets; a dropped one meets nothing.
fn landed_byte(p: Stretch, ram: usize, a: u16) -> Met
    ensures { result ≡ landed_byte p ram a }
{
    if address::drops(p, ram, a) {
        return met(2, 0, a);
    }
    met(2, 1, a)
}

// What the stored bytes of a word meet.
fn landed_word(p: Stretch, ram: usize, a: u16) -> Met
    ensures { result ≡ landed_of p ram 2 a }
{
    let second = sums::plus(a, 1);
    if address::drops(p, ram, a) {
        return landed_byte(p, ram, second);
    }
    if address::drops(p, ram, second) {
        return met(2, 1, a);
    }
    met(2, 2, a)
}

// What a step's stored bytes meet; not asked where `skip` says that nothing can be met, as in each step of a run by an empty list.
pub fn landed(skip: bool, p: Stretch, ram: usize, count: u8, first: u16) -> Met
    ensures { result ≡ sought_after skip p ram count first }
{
    if skip | (count == 0) {
        return met(2, 0, first);
    }
    if count == 1 {
        return landed_byte(p, ram, first);
    }
    landed_word(p, ram, first)
}

fn tells(steps: u16, bus: u32, ending: Ending, met: Met, place: usize) -> Told
    ensures { result ≡ tells_of steps bus ending met place }
{
    Told {
        steps,
        bus,
        ending,
        met,
        place,
    }
}

// The stop after a step that stored to a watched address: where the machine is halted, that is told and no entry named.
fn caught(steps: u16, bus: u32, halted: bool, met: Met, place: usize) -> Told
    ensures { result ≡ caught_as steps bus met place halted }
{
    if halted {
        return tells(steps, bus, Ending::Halted, met, 0);
    }
    tells(steps, bus, Ending::Watch, met, place)
}

// The place of the first entry that is met; not asked where `skip` says that none can be. An empty list is told first, since the plain run asks here at each step.
fn sought(skip: bool, list: &[Entry], x: Met) -> Option<usize>
    ensures { result ≡ cond skip None (found (meets x) list.now) }
{
    if list.len() == 0 {
        return None;
    }
    if skip {
        return None;
    }
    entries::first(list, x)
}

// Steps until the machine is halted, the budget used up, a watch or a break met. Registers and CSRs are lent and not copied, since a lone step's caller reads
// at once what the step wrote; the protected addresses are those at the start, and the board's other parts stay apart from step to step (`recorded_step` says why). There is no other loop over steps: with a second
// place that steps, the compiler would not make one loop of the run and the recorded step. What travels together stays apart, in one body (docs/DECISIONS.md,
// "Choices for speed").
pub fn advance(
    table: &[u8; 256],
    regs: &mut [u16; 16],
    csrs: &mut [u16; 6],
    board: Board,
    place: Place,
    ram: &mut [u8],
    journal: &mut [u16],
    list: &[Entry],
    budget: u16,
) -> Ended
    ensures whole_run { TellsAll table.now
        → goes budget true list.now
        (standing (cpu regs.old csrs.old board) place ram.old journal.old)
        ≡ ended_as result regs.new csrs.new ram.new journal.new }
    ensures names { Names result.told list.now }
{
    let mut devices = board.devices;
    let mut halted = board.halted;
    let stretch = board.stretch;
    let mut at = place;
    let mut left = budget;
    let mut bus: u32 = 0;
    let told = loop {
        if halted {
            break tells(budget - left, bus, Ending::Halted, met(0, 0, 0), 0);
        }
        if left == 0 {
            break tells(budget, bus, Ending::Budget, met(0, 0, 0), 0);
        }
        let reached = met(1, 1, regs[PC]);
        if let Some(i) = sought(left == budget, list, reached) {
            break tells(budget - left, bus, Ending::Break, reached, i);
        }
        let before = Board {
            devices,
            halted,
            stretch,
        };
        let r = recording::recorded_step(table, regs, csrs, before, at, ram, journal);
        let b = r.board;
        devices = b.devices;
        halted = b.halted;
        at = r.place;
        bus = bus + r.bus as u32;
        left = left - 1;
        let skip = (list.len() == 0) | (r.count == 0);
        let stored = landed(skip, stretch, ram.len(), r.count, r.first);
        if let Some(k) = sought(skip, list, stored) {
            break caught(budget - left, bus, halted, stored, k);
        }
    };
    Ended {
        board: Board {
            devices,
            halted,
            stretch,
        },
        place: at,
        told,
    }
}
