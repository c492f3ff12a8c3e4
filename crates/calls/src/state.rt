// The machine by value, and what a call answers.
ghost use Rattle.std.specs.Prelude.{◌≡◌};
ghost use Rattle.calls.specs.Calls.{number_of, started};

use bus::state::{Cpu, Stretch};

#[derive(Clone, Copy)]
pub struct Machine {
    pub cpu: Cpu,
    pub next: usize,
    pub held: usize,
}

// The starting state, with the protected addresses that no call changes.
pub fn start(stretch: Stretch) -> Machine
    ensures { result ≡ started stretch }
{
    let cpu = bus::state::reset(stretch);
    Machine {
        cpu,
        next: 0,
        held: 0,
    }
}

// The refusals 1 to 9, in the order of their numbers.
#[derive(Clone, Copy)]
pub enum Refusal {
    RamTooLong,
    BadJournal,
    BadState,
    Halted,
    NotReady,
    NoRegister,
    NotRam,
    NoRecord,
    BadRecord,
}

// Why a run stopped.
#[derive(Clone, Copy)]
pub enum Stop {
    Budget,
    Halted,
}

// The steps done, the sum of their bus bytes, and why the run stopped.
#[derive(Clone, Copy)]
pub struct Run {
    pub steps: u16,
    pub bus: u32,
    pub stop: Stop,
}

// A lone step tells its bus bytes. No Result: three of the four are ways to be accepted, and `said_by` tells all four apart; a Result round three says no more.
#[derive(Clone, Copy)]
pub enum Answer {
    Accepted,
    Stepped(u32),
    Ran(Run),
    Refused(Refusal),
}

#[derive(Clone, Copy)]
pub struct Reply {
    pub answer: Answer,
    pub machine: Machine,
}

// The number that the rules give a refusal.
impl From<Refusal> for u8 {
    fn from(why: Refusal) -> u8
        ensures { result ≡ number_of why }
    {
        match why {
            Refusal::RamTooLong => 1,
            Refusal::BadJournal => 2,
            Refusal::BadState => 3,
            Refusal::Halted => 4,
            Refusal::NotReady => 5,
            Refusal::NoRegister => 6,
            Refusal::NotRam => 7,
            Refusal::NoRecord => 8,
            Refusal::BadRecord => 9,
        }
    }
}
