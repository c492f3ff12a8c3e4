// The watched run as a call of the machine: its checks, the run, and the hits marked in the list.
#![tactic(auto)]

ghost use Rattle.std.specs.Prelude.{◌≡◌, List, true};
ghost use Rattle.calls.specs.Calls.{check_of, world_of};
ghost use Rattle.entries.specs.declared.Entry.{Entry};
ghost use Rattle.watched.specs.declared.Refusal.TheVariants.{Check};
ghost use Rattle.entries.specs.Entries.{marked};
ghost use Rattle.entries.specs.Code.{points_of};
ghost use Rattle.watched.specs.Answer.{list_check, or_else, told as told_of};
ghost use Rattle.watched.specs.Code.{bared, number_of, checked, answered as answered_by, refuse, stopped_as, answer_as, Watches};
ghost use Rattle.watching.specs.Code.{Names};
ghost use Rattle.watching.specs.Watched.{goes};

use calls::checks;
use calls::state::Machine;
use entries::{Entry, Met, Points};
use isa::opcode;
use running::run;
use watching::{Ending, Told};

// What the run refuses: what every call does, or its list.
#[derive(Clone, Copy)]
pub enum Refusal {
    Check(calls::state::Refusal),
    TooMany,
    UnknownKind,
}

impl From<calls::state::Refusal> for Refusal {
    ghost from_gives = { λ why e. e ≡ Check why };

    fn from(why: calls::state::Refusal) -> Refusal {
        Refusal::Check(why)
    }
}

// The number that the rules give a refusal.
impl From<Refusal> for u8 {
    fn from(why: Refusal) -> u8
        ensures { result ≡ number_of why }
    {
        match why {
            Refusal::Check(first) => u8::from(first),
            Refusal::TooMany => 40,
            Refusal::UnknownKind => 41,
        }
    }
}

// The refusal's number (0: accepted), what the run tells, and the machine.
#[derive(Clone, Copy)]
pub struct Watched {
    pub number: u8,
    pub told: Told,
    pub machine: Machine,
}

#[derive(Clone, Copy)]
struct Stopped {
    machine: Machine,
    told: Told,
}

// The list's own refusals.
fn list_check(list: &[Entry]) -> Result<(), Refusal>
    ensures { checked result ≡ list_check list.now }
{
    if 64 < list.len() {
        return Err(Refusal::TooMany);
    }
    if entries::known(list) {
        return Ok(());
    }
    Err(Refusal::UnknownKind)
}

// What every call checks, then the list.
fn check(m: Machine, ram: &[u8], journal: &[u16], list: &[Entry]) -> Result<(), Refusal>
    ensures { checked result ≡ or_else (check_of (world_of m ram.now journal.now)) (list_check list.now) }
{
    checks::check(m, ram, journal)?;
    list_check(list)
}

// What refuses a list by value that is too long: what every call checks, else its length.
fn overfull(m: Machine, ram: &[u8], journal: &[u16]) -> Refusal
    ensures { number_of result ≡ or_else (check_of (world_of m ram.now journal.now)) 40 }
{
    match checks::check(m, ram, journal) {
        Err(why) => Refusal::from(why),
        Ok(()) => Refusal::TooMany,
    }
}

fn answered(number: u8, told: Told, machine: Machine) -> Watched
    ensures { result ≡ answered_by number told machine }
{
    Watched {
        number,
        told,
        machine,
    }
}

fn refused(m: Machine, number: u8) -> Watched
    ensures { result ≡ refuse m number }
{
    let met = Met {
        kind: 0,
        count: 0,
        first: 0,
    };
    let told = Told {
        steps: 0,
        bus: 0,
        ending: Ending::Refused,
        met,
        place: 0,
    };
    answered(number, told, m)
}

// The run of a machine that has passed the checks, by the entries of a list.
fn run_list(m: Machine, ram: &mut [u8], journal: &mut [u16], list: &[Entry], budget: u16) -> Stopped
    ensures whole_run { goes budget true list.now (world_of m ram.old journal.old)
        ≡ stopped_as result ram.new journal.new }
    ensures names { Names result.told list.now }
{
    let table = opcode::table();
    let before = m.cpu;
    let mut regs = before.regs;
    let mut csrs = before.csrs;
    let b = before.board;
    let e = watching::advance(
        &table,
        &mut regs,
        &mut csrs,
        b,
        run::place_of(m),
        ram,
        journal,
        list,
        budget,
    );
    let after = e.board;
    let p = e.place;
    let t = e.told;
    Stopped {
        machine: run::machine_of(regs, csrs, after, p),
        told: t,
    }
}

// The run of a machine and a list that have passed the checks.
fn accepted(m: Machine, ram: &mut [u8], journal: &mut [u16], list: &[Entry], budget: u16) -> Watched
    ensures { told_of (goes budget true list.now (world_of m ram.old journal.old)) list.now
        ≡ answer_as result ram.new journal.new (marked result.told.met list.now) }
{
    let s = run_list(m, ram, journal, list, budget);
    let told = s.told;
    let after = s.machine;
    answered(0, told, after)
}

// A watched run by a list that stays as it is: the hits of the entries that the answer's `met` tells of rise by one, for whoever keeps them. Nothing is
// copied of the list, so that the C boundary needs no function of the C library.
pub fn run_unmarked(
    m: Machine,
    ram: &mut [u8],
    journal: &mut [u16],
    list: &[Entry],
    budget: u16,
) -> Watched
    ensures { Watches budget m ram.old journal.old list.now
        result ram.new journal.new (marked result.told.met list.now) }
{
    match check(m, ram, journal, list) {
        Err(why) => refused(m, u8::from(why)),
        Ok(()) => accepted(m, ram, journal, list, budget),
    }
}

// The same by a list by value, whose own hits it does not read: whatever the list's hits are, those of the entries that the answer's `met` tells of rise by one.
pub fn run_points(
    m: Machine,
    ram: &mut [u8],
    journal: &mut [u16],
    p: Points,
    budget: u16,
) -> Watched
    ensures { (l : List Entry) → bared p ≡ points_of l
        → Watches budget m ram.old journal.old l result ram.new journal.new (marked result.told.met l) }
{
    let n = p.count;
    let entries = p.entries;
    if 64 < n {
        return refused(m, u8::from(overfull(m, ram, journal)));
    }
    run_unmarked(m, ram, journal, &entries[0..n], budget)
}

// The same on a lent list, whose hits are marked in it.
pub fn run_watched(
    m: Machine,
    ram: &mut [u8],
    journal: &mut [u16],
    list: &mut [Entry],
    budget: u16,
) -> Watched
    ensures { Watches budget m ram.old journal.old list.old
        result ram.new journal.new list.new }
{
    let r = run_unmarked(m, ram, journal, list, budget);
    entries::mark(list, r.told.met);
    r
}
