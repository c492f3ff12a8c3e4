// The watched run on 32 words of state, by the addresses and kinds of a list.
#![tactic(auto)]

ghost use Rattle.std.specs.Prelude.{ℕ, ◌+◌, ◌*◌, ◌≡◌, List};
ghost use Rattle.word.specs.Word.{low_at};
ghost use Rattle.entries.specs.declared.Entry.{Entry};
ghost use Rattle.entries.specs.Entries.{marked};
ghost use Rattle.entries.specs.Code.{points_of};
ghost use Rattle.calls.specs.Calls.{world_of};
ghost use Rattle.boundary.specs.Boundary.{taken, packed};
ghost use Rattle.watched.specs.Answer.{watched_of};
ghost use Rattle.watched.specs.Code.{bared, answer_as};
ghost use Rattle.crossing.specs.Crossing.{ending_number, crossed_with, leaves_list, CrossesWatched};

use boundary::{fields, words};
use calls::state::{Answer, Machine, Reply};
use entries::{Entry, Met, Points};
use watched::Watched;
use watching::{Ending, Told};

// The result, and what the stop meets: the hits that rise by it.
#[derive(Clone, Copy)]
pub struct Crossing {
    pub result: u64,
    pub met: Met,
}

// The number of a run's cause (no `From`: neither type is of this crate).
pub fn cause(ending: Ending) -> u8
    ensures { result ≡ ending_number ending }
{
    match ending {
        Ending::Refused => 0,
        Ending::Budget => 0,
        Ending::Halted => 1,
        Ending::Watch => 2,
        Ending::Break => 3,
    }
}

// Cause and place, in one byte.
fn cause_and_place(ending: Ending, place: usize) -> u8
    ensures { result ≡ ending_number ending + 4 * low_at 6 place }
{
    cause(ending) + 4 * ((place % 64) as u8)
}

fn said(number: u8, told: Told) -> u64
    ensures { result ≡ packed number told.steps told.bus (ending_number told.ending + 4 * low_at 6 told.place) }
{
    let ending = told.ending;
    fields::pack(
        number,
        told.steps,
        told.bus,
        cause_and_place(ending, told.place),
    )
}

// The words of the machine where the run was accepted, and the answer as one number.
fn answer(state: &mut [u16; 32], r: Watched) -> u64
    ensures { (ram ws : List ℕ) (l : List Entry) → crossed_with state.old (answer_as r ram ws l) ≡ leaves_list result state.new ram ws l }
{
    let number = r.number;
    let told = r.told;
    let m = r.machine;
    let result = said(number, told);
    if number != 0 {
        return result;
    }
    let reply = Reply {
        answer: Answer::Accepted,
        machine: m,
    };
    let ignored = words::answer(state, reply);
    result
}

// Words to machine, the run, machine to words; the list stays as it is.
pub fn cross_list(
    state: &mut [u16; 32],
    ram: &mut [u8],
    journal: &mut [u16],
    list: &[Entry],
    budget: u16,
) -> Crossing
    ensures crosses_watched { CrossesWatched budget state.old ram.old journal.old list.now
        result.result state.new ram.new journal.new (marked result.met list.now) }
    ensures met_value { result.met ≡ (watched_of budget list.now (world_of (taken state.old) ram.old journal.old)).met }
{
    let m = words::taken(*state);
    let r = watched::run_unmarked(m, ram, journal, list, budget);
    let told = r.told;
    let met = told.met;
    Crossing {
        result: answer(state, r),
        met,
    }
}

// The same by a list by value.
pub fn cross_points(
    state: &mut [u16; 32],
    ram: &mut [u8],
    journal: &mut [u16],
    p: Points,
    budget: u16,
) -> Crossing
    ensures crosses_watched { (l : List Entry) → bared p ≡ points_of l → CrossesWatched budget state.old ram.old journal.old l
        result.result state.new ram.new journal.new (marked result.met l) }
    ensures met_value { (l : List Entry) → bared p ≡ points_of l
        → result.met ≡ (watched_of budget l (world_of (taken state.old) ram.old journal.old)).met }
{
    let m = words::taken(*state);
    let r = watched::run_points(m, ram, journal, p, budget);
    let told = r.told;
    let met = told.met;
    Crossing {
        result: answer(state, r),
        met,
    }
}
